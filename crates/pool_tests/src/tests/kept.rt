// Jobs that may be neither copied nor dropped.
ghost use Rattle.std.specs.Prelude.{◌≡◌, ◌⊎◌, ◌∷◌, ◌++◌, []};

use super::*;

// It notes its id in the world, and must be run or taken apart.
pub(super) struct Kept(Head);

impl Headed for Kept {
    ghost head = { λ kept. kept.0 };

    fn id(&self) -> JobId {
        self.0.id
    }

    fn exec(&self) -> ExecId {
        self.0.exec
    }
}

impl Job<Vec<u64>> for Kept {
    ghost runs = { λ id before mark after. (after.items ≡ before.items ++ id.0 ∷ []) ⊎ (after.items ≡ before.items) };

    fn run<R: Wait>(self, _rt: &R, world: &mut Vec<u64>) -> Mark {
        let Kept(head) = self;
        match world.push(head.id.0) {
            Ok(()) => Mark::Done(head.number),
            Err(_) => Mark::Memory,
        }
    }
}

impl Numbered for Kept {
    fn of(id: u64) -> Kept {
        Kept(Head {
            id: JobId(id),
            exec: ExecId(7),
            number: id,
        })
    }

    fn taken_apart(self) -> u64 {
        let Kept(head) = self;
        head.id.0
    }
}

// Compares the ids of the jobs that come back, which are taken apart: they are the indexes of their tickets.
fn check_back<J: Numbered, R: Abort>(
    rt: &R,
    alloc: Global,
    returned: Returned<J>,
    expected: &[u64],
) {
    let mut back = Vec::new(alloc);
    put_back(rt, &mut back, returned);
    check_list(rt, back, expected);
}

// Adds four jobs, of which the helper runs one, and stops. Three come back.
fn stop_three<J: Numbered, R: Abort + Wait>(rt: &R, alloc: Global) {
    let rows = [(0, 0), (0, 1), (0, 2), (0, 3)];
    let mut world = Vec::new(alloc);
    let left = run_alone::<J, R>(rt, alloc, &rows, 1, true, &mut world);
    let mut returned = came_back(rt, left, (1, 3));
    run_back(rt, &mut returned, &mut world, (1, 1, 1), 1);
    check_back(rt, alloc, returned, &[2, 3]);
    check_list(rt, world, &[0, 1]);
}

#[test]
fn jobs_that_may_not_be_dropped_come_back(rt: HostRuntime) {
    stop_three::<Kept, HostRuntime>(&rt, rt.alloc());
}
