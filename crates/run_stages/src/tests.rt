ghost use Rattle.std.specs.Prelude.{◌≡◌, ◌+◌, ◌<◌, ◌^◌};

use crate::{Stage, call_beside, run_before, run_beside};
use std::sync::Wait;
use std::test::Fail;

// A number that a run raises by what is shared.
#[derive(Debug, PartialEq, Eq, Drop)]
struct Counter(u64);

impl Stage<u64> for Counter {
    ghost ready = { λ step c. (c.0 < 2 ^ 32) × (step < 2 ^ 32) };

    ghost ran = { λ step old new. new.0 ≡ old.0 + step };

    fn run<R: Wait>(&mut self, _rt: &R, shared: &u64) {
        self.0 += *shared;
    }
}

#[test]
fn each_stage_runs_once_beside_the_front(rt: HostRuntime) -> Result<(), Fail> {
    let mut stages = Vec::from_array(rt.alloc(), [Counter(1), Counter(2)])?;
    let mut front = false;
    run_beside(&rt, &3, stages.as_mut_slice(), &mut || front = true);
    assert_eq!(rt; stages.as_slice(), [Counter(4), Counter(5)].as_slice());
    assert!(rt; front);
    Ok(())
}

#[test]
fn the_last_stage_runs_once_beside_the_others(rt: HostRuntime) {
    let mut last = Counter(10);
    let mut others = false;
    run_before(&rt, &3, &mut last, &mut || others = true);
    assert_eq!(rt; last, Counter(13));
    assert!(rt; others);
}

#[test]
fn each_item_is_called_once_beside_the_front(rt: HostRuntime) -> Result<(), Fail> {
    let mut items = Vec::from_array(rt.alloc(), [1u64, 2])?;
    let mut front = false;
    call_beside(
        &rt,
        &3u64,
        &|step: &u64, item: &mut u64| *item = item.saturating_add(*step),
        items.as_mut_slice(),
        &mut || front = true,
    );
    assert_eq!(rt; items.as_slice(), [4, 5].as_slice());
    assert!(rt; front);
    Ok(())
}
