//! Both sides of a home by hand, with the answers that they must give.
ghost use Rattle.std.specs.Prelude.{◌≡◌, IfOk};

use fan_base::ExecId;
use semi_defer::{Added, Adder, DeferredHome, Holder, State};
use std::alloc::{AllocError, Global};
use std::mem::ManuallyDrop;
use std::test::Fail;

type Home = DeferredHome<u64>;

fn home(alloc: Global) -> Result<Home, AllocError> {
    DeferredHome::new(alloc).map_err(|_| AllocError)
}

fn sides<'h>(home: &'h mut Home) -> Result<(Adder<'h, u64>, Holder<'h, u64>), AllocError> {
    match home.pair() {
        Some(pair) => Ok(pair),
        None => Err(AllocError),
    }
}

// What both sides answer where the adder adds 7 before the holder chooses an executor, or detaches.
fn added_first(
    alloc: Global,
    exec: Option<ExecId>,
) -> Result<(Added<u64>, Option<u64>), AllocError> {
    let mut home = home(alloc)?;
    let (adder, holder) = sides(&mut home)?;
    let (added, _) = adder.add(7);
    let (job, _) = match exec {
        Some(exec) => holder.set_executor(exec),
        None => holder.detach(),
    };
    Ok((added, job))
}

// The same where the holder comes first.
fn chosen_first(
    alloc: Global,
    exec: Option<ExecId>,
) -> Result<(Added<u64>, Option<u64>), AllocError> {
    let mut home = home(alloc)?;
    let (adder, holder) = sides(&mut home)?;
    let (job, _) = match exec {
        Some(exec) => holder.set_executor(exec),
        None => holder.detach(),
    };
    let (added, _) = adder.add(7);
    Ok((added, job))
}

#[test]
fn a_job_comes_out_once_by_the_later_side(rt: HostRuntime) -> Result<(), Fail> {
    let alloc = rt.alloc();
    let three = Some(ExecId(3));
    assert_eq!(rt; added_first(alloc, three)?, (Added::Kept, Some(7)));
    assert_eq!(rt;
        chosen_first(alloc, three)?,
        (Added::RunOn(ExecId(3), 7), None)
    );
    assert_eq!(rt; chosen_first(alloc, None)?, (Added::Gone(7), None));
    assert_eq!(rt; added_first(alloc, None)?, (Added::Kept, Some(7)));
    Ok(())
}

// What the holder gets where the adder has ended, and whether the pair can be taken again.
fn nothing_added(alloc: Global) -> Result<(Option<u64>, bool), AllocError> {
    let mut home = home(alloc)?;
    let (adder, holder) = sides(&mut home)?;
    adder.end();
    let (job, _) = holder.set_executor(ExecId(4_294_967_295));
    let taken = match home.pair() {
        Some((adder, holder)) => {
            adder.end();
            let _ = holder.detach();
            false
        }
        None => true,
    };
    Ok((job, taken))
}

// A closed home, where the adder has added and the holder was forgotten.
fn kept(alloc: Global) -> Result<(State, Option<u64>), AllocError> {
    let mut home = home(alloc)?;
    let (adder, holder) = sides(&mut home)?;
    let _ = adder.add(7);
    let _ = unsafe { ManuallyDrop::new_unchecked(holder) };
    let remains = home.close();
    Ok((remains.state(), remains.into_job()))
}

// A closed home, where an executor was set and nothing was added.
fn chosen(alloc: Global) -> Result<(State, Option<u64>), AllocError> {
    let mut home = home(alloc)?;
    let (adder, holder) = sides(&mut home)?;
    adder.end();
    let _ = holder.set_executor(ExecId(4_294_967_295));
    let remains = home.close();
    Ok((remains.state(), remains.into_job()))
}

// A closed home whose pair nobody has taken.
fn untaken(alloc: Global) -> Result<(State, Option<u64>), AllocError> {
    let remains = home(alloc)?.close();
    Ok((remains.state(), remains.into_job()))
}

#[test]
fn a_pair_comes_once_and_a_home_gives_back_what_it_keeps(rt: HostRuntime) -> Result<(), Fail> {
    let alloc = rt.alloc();
    assert_eq!(rt; nothing_added(alloc)?, (None, true));
    assert_eq!(rt; kept(alloc)?, (State::HasFunction, Some(7)));
    assert_eq!(rt;
        chosen(alloc)?,
        (State::HasExecutor(ExecId(4_294_967_295)), None)
    );
    assert_eq!(rt; untaken(alloc)?, (State::Empty, None));
    Ok(())
}
