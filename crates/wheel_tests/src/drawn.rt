// Drawn lists of calls on a wheel and on an ordered map of what is due, which give the same answers.
ghost use Rattle.std.specs.Prelude.{◌≡◌, ◌<◌, ◌≤◌, ◌^◌};

use std::alloc::Global;
use std::collections::BTreeMap;
use std::marker::Brand;
use std::sync::ledger::{Blank, Ledger};
use std::test::Fail;
use tick_wheel::{Steps, Wheel};

// What is due, by tick and order of scheduling.
#[derive(Drop)]
struct Plain {
    now: u64,
    next: u64,
    due: BTreeMap<(u64, u64), u64>,
    ids: BTreeMap<u64, (u64, u64)>,
}

impl Plain {
    fn new(alloc: Global, start: u64) -> Plain {
        Plain {
            now: start,
            next: 0,
            due: BTreeMap::new(alloc),
            ids: BTreeMap::new(alloc),
        }
    }

    fn schedule(&mut self, delay: u64, id: u64) -> Result<(), Fail> {
        let key = (self.now.wrapping_add(delay), self.next);
        self.next = self.next.wrapping_add(1);
        self.due.insert(key, id)?;
        self.ids.insert(id, key)?;
        Ok(())
    }

    fn cancel(&mut self, id: u64) -> Option<u64> {
        let key = self.ids.remove(&id)?;
        self.due.remove(&key);
        Some(key.0)
    }

    // The next id that is due now.
    fn take_due(&mut self) -> Option<u64> {
        let (key, id) = self.due.first_key_value()?;
        let (key, id) = (*key, *id);
        if key.0 != self.now {
            return None;
        }
        self.due.remove(&key);
        self.ids.remove(&id);
        Some(id)
    }
}

// How many timers are held at a time, as ids and ticks are drawn.
#[derive(Clone, Copy)]
enum Held {
    Few,
    Many,
}

// A number that is drawn from the one before.
fn draw(seed: &mut u64) -> u64 {
    *seed = seed
        .wrapping_mul(6364136223846793005)
        .wrapping_add(1442695040888963407);
    *seed >> 33
}

fn differ(at: u64) -> Result<(), Fail> {
    Err(Fail::new(format_args!("the wheel and the map differ at {at}")))
}

fn tick_both<L: Ledger>(
    wheel: &mut Wheel,
    plain: &mut Plain,
    steps: &mut Steps<L>,
) -> Result<(), Fail> {
    if wheel.now() >= 1 << 63 {
        return differ(wheel.now());
    }
    let ids = wheel.tick(steps)?;
    agree(wheel, plain, &ids)
}

// The same, into a list that is kept.
fn tick_both_into<L: Ledger>(
    wheel: &mut Wheel,
    plain: &mut Plain,
    ids: &mut Vec<u64>,
    steps: &mut Steps<L>,
) -> Result<(), Fail> {
    if wheel.now() >= 1 << 63 {
        return differ(wheel.now());
    }
    ids.clear();
    wheel.tick_into(steps, ids)?;
    agree(wheel, plain, ids)
}

// The map's tick gives these ids, too, and as many are left.
fn agree(wheel: &Wheel, plain: &mut Plain, ids: &[u64]) -> Result<(), Fail> {
    plain.now = plain.now.wrapping_add(1);
    for id in ids {
        if plain.take_due() != Some(*id) {
            return differ(plain.now);
        }
    }
    if plain.take_due().is_some() || wheel.now() != plain.now || wheel.len() != plain.ids.len() {
        return differ(plain.now);
    }
    Ok(())
}

fn call_both<L: Ledger>(
    wheel: &mut Wheel,
    plain: &mut Plain,
    held: Held,
    seed: &mut u64,
    steps: &mut Steps<L>,
) -> Result<(), Fail> {
    let (id, turn) = match held {
        Held::Few => (draw(seed) % 20_000, draw(seed) % 8),
        Held::Many => (draw(seed) % 200_000, draw(seed) % 64),
    };
    match turn {
        0 => tick_both(wheel, plain, steps),
        1 => {
            if wheel.cancel(id) != plain.cancel(id) {
                return differ(plain.now);
            }
            Ok(())
        }
        _ => {
            let delay = 1 + draw(seed) % (1 << (draw(seed) % 18));
            if wheel.holds(id) != plain.ids.contains_key(&id) {
                return differ(plain.now);
            }
            if wheel.holds(id) {
                return Ok(());
            }
            wheel.schedule(delay, id)?;
            plain.schedule(delay, id)
        }
    }
}

// Drawn calls, ticks until most has fired, and what is left.
fn compare<L: Ledger>(
    alloc: Global,
    start: u64,
    held: Held,
    calls: u64,
    steps: &mut Steps<L>,
) -> Result<(), Fail>
    requires { start ≤ 2 ^ 62 }
{
    let mut wheel = Wheel::new(alloc, start)?;
    let mut plain = Plain::new(alloc, start);
    let mut seed = start.wrapping_add(14);
    for _ in 0..calls {
        call_both(&mut wheel, &mut plain, held, &mut seed, steps)?;
    }
    let mut ids = Vec::new(alloc);
    for _ in 0..66_000 {
        tick_both_into(&mut wheel, &mut plain, &mut ids, steps)?;
    }
    let left = wheel.cancel_all()?;
    if !left.iter().eq(plain.ids.keys()) {
        return differ(plain.now);
    }
    Ok(())
}

fn compare_all<L: Ledger>(alloc: Global, blank: Blank) -> Result<(), Fail>
    requires name { blank.name ≡ L.name }
    requires parts { blank.parts ≡ L.parts }
    requires some { 0 < blank.parts }
{
    let mut steps = Steps::<L>::new(blank);
    for start in [0, 65535, 16777000, 4294967000, 1 << 62] {
        compare(alloc, start, Held::Few, 50_000, &mut steps)?;
    }
    compare(alloc, 65535, Held::Many, 150_000, &mut steps)
}

#[test]
fn a_wheel_is_an_ordered_map(rt: HostRuntime) -> Result<(), Fail> {
    compare_all::<Brand>(rt.alloc(), Blank::new(1))
}
