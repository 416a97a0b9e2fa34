// The rows of calls on both sides, a home that is closed between them, and two threads.
ghost use Rattle.std.specs.Prelude.{◌≡◌, [], None, IfOk};

use core_interrupt::{
    Heard, Hearer, InterruptHome, Raised, Raiser, Remains, State, armed_agrees, raise_where_armed,
};
use std::alloc::{AllocError, Global};
use std::test::Fail;
use std::thread;
use std::thread::Threads;

type Home = InterruptHome<u64, u64>;

type Sides<'h> = (Hearer<'h, u64, u64>, Raiser<'h, u64, u64>);

fn home(alloc: Global) -> Result<Home, AllocError> {
    InterruptHome::new(alloc).map_err(|_| AllocError)
}

fn sides<'h>(home: &'h mut Home) -> Result<Sides<'h>, AllocError>
    ensures home { IfOk result (λ pair. pair.0.home ≡ pair.1.home) }
    ensures first { IfOk result (λ pair. pair.1.raised ≡ []) }
{
    match home.pair() {
        Some(pair) => Ok(pair),
        None => Err(AllocError),
    }
}

// Whether the pair was taken before.
fn is_taken(home: &mut Home) -> bool {
    match home.pair() {
        Some((hearer, _)) => {
            let _ = hearer.end();
            false
        }
        None => true,
    }
}

#[test]
fn handler_first_then_two_raises_the_end_and_a_third(rt: HostRuntime) -> Result<(), Fail> {
    let mut home = home(rt.alloc())?;
    let (hearer, mut raiser) = sides(&mut home)?;
    let (heard, armed) = hearer.set_handler(7);
    let first = raiser.raise(1);
    let second = raiser.raise(2);
    let (back, _) = armed.end();
    let third = raiser.raise(3);
    drop(raiser);
    assert_eq!(rt; heard, Heard::Kept);
    assert_eq!(rt; first, Raised::Call(7, 1));
    assert_eq!(rt; second, Raised::Late(2));
    assert_eq!(rt; back, None);
    assert_eq!(rt; third, Raised::Gone(3));
    assert!(rt; is_taken(&mut home));
    Ok(())
}

#[test]
fn object_first_then_a_handler_or_the_end(rt: HostRuntime) -> Result<(), Fail> {
    let mut one = home(rt.alloc())?;
    let (hearer, mut raiser) = sides(&mut one)?;
    let first = raiser.raise(1);
    let late = raiser.raise(2);
    let (heard, armed) = hearer.set_handler(7);
    let (back, _) = armed.end();
    drop(raiser);
    assert_eq!(rt; (first, late), (Raised::Kept, Raised::Late(2)));
    assert_eq!(rt; (heard, back), (Heard::Call(7, 1), None));
    let mut other = home(rt.alloc())?;
    let (hearer, mut raiser) = sides(&mut other)?;
    let first = raiser.raise(1);
    let (object, _) = hearer.end();
    drop(raiser);
    assert_eq!(rt; (first, object), (Raised::Kept, Some(1)));
    Ok(())
}

#[test]
fn nothing_raised_gives_the_handler_back(rt: HostRuntime) -> Result<(), Fail> {
    let mut one = home(rt.alloc())?;
    let (hearer, raiser) = sides(&mut one)?;
    let (_, armed) = hearer.set_handler(7);
    let (handler, _) = armed.end();
    drop(raiser);
    assert_eq!(rt; handler, Some(7));
    let mut other = home(rt.alloc())?;
    let (hearer, mut raiser) = sides(&mut other)?;
    let (object, _) = hearer.end();
    let gone = raiser.raise(1);
    drop(raiser);
    assert_eq!(rt; (object, gone), (None, Raised::Gone(1)));
    Ok(())
}

#[test]
fn a_closed_home_hands_out_what_it_keeps(rt: HostRuntime) -> Result<(), Fail> {
    let mut one = home(rt.alloc())?;
    let (hearer, mut raiser) = sides(&mut one)?;
    let first = raiser.raise(1);
    let (object, _) = hearer.end();
    drop(raiser);
    let ended = one.close();
    assert_eq!(rt; (first, object), (Raised::Kept, Some(1)));
    assert_eq!(rt;
        ended,
        Remains {
            handler: None,
            object: None,
            state: State::Ended
        }
    );
    let unused = home(rt.alloc())?.close();
    assert_eq!(rt;
        unused,
        Remains {
            handler: None,
            object: None,
            state: State::Empty
        }
    );
    Ok(())
}

// One holder of both sides sets a handler and raises.
fn call_at_once<'h>(hearer: Hearer<'h, u64, u64>, raiser: Raiser<'h, u64, u64>) -> (u64, u64)
    requires home { hearer.home ≡ raiser.home }
    requires first { raiser.raised ≡ [] }
{
    match hearer.set_handler(7) {
        (Heard::Kept, armed) => raise_where_armed(armed, raiser, 1),
        (Heard::Call(handler, object), armed) => {
            armed_agrees(armed, raiser);
            (handler, object)
        }
    }
}

#[test]
fn one_holder_of_both_sides_calls_the_handler(rt: HostRuntime) -> Result<(), Fail> {
    let mut home = home(rt.alloc())?;
    let (hearer, raiser) = sides(&mut home)?;
    assert_eq!(rt; call_at_once(hearer, raiser), (7, 1));
    Ok(())
}

// What came out of one use, by side: how many handlers and how many objects.
fn hear(hearer: Hearer<'_, u64, u64>) -> (u64, u64) {
    match hearer.set_handler(7) {
        (Heard::Call(_, _), armed) => {
            let _ = armed.end();
            (1, 1)
        }
        (Heard::Kept, armed) => match armed.end() {
            (Some(_), _) => (1, 0),
            (None, _) => (0, 0),
        },
    }
}

fn raise_one(mut raiser: Raiser<'_, u64, u64>) -> (u64, u64) {
    match raiser.raise(1) {
        Raised::Kept => (0, 0),
        Raised::Call(_, _) => (1, 1),
        Raised::Late(_) | Raised::Gone(_) => (0, 1),
    }
}

// Hears, if the hearer is still there.
fn hear_taken(hearer: &mut Option<Hearer<'_, u64, u64>>) -> (u64, u64)
    ensures { hearer.new ≡ None }
{
    match hearer.take() {
        Some(hearer) => hear(hearer),
        None => (0, 0),
    }
}

// Raises, if the raiser is still there.
fn raise_taken(raiser: &mut Option<Raiser<'_, u64, u64>>) -> (u64, u64)
    ensures { raiser.new ≡ None }
{
    match raiser.take() {
        Some(raiser) => raise_one(raiser),
        None => (0, 0),
    }
}

// How many handlers and how many objects came out, where one thread raises and another hears.
fn meet(rt: &impl Threads, home: &mut Home) -> Result<(u64, u64), AllocError> {
    let (hearer, raiser) = sides(home)?;
    let mut hearer = Some(hearer);
    let mut raiser = Some(raiser);
    let (heard, raised) = thread::join(rt, || hear_taken(&mut hearer), || raise_taken(&mut raiser));
    let rest = hear_taken(&mut hearer);
    let last = raise_taken(&mut raiser);
    let None = hearer else { unreachable!() };
    let all = [heard, raised, rest, last];
    let handlers = all.iter().fold(0, |n: u64, x| n.saturating_add(x.0));
    let objects = all.iter().fold(0, |n: u64, x| n.saturating_add(x.1));
    Ok((handlers, objects))
}

#[test]
fn two_threads_meet_ten_thousand_times(rt: HostRuntime) -> Result<(), Fail> {
    let mut met: u64 = 0;
    for _ in 0..10_000 {
        let mut home = home(rt.alloc())?;
        if meet(&rt, &mut home)? == (1, 1) {
            met = met.saturating_add(1);
        }
    }
    assert_eq!(rt; met, 10_000);
    Ok(())
}
