ghost use Rattle.std.specs.Prelude.{◌≡◌, ◌<◌, ◌≤◌, [], false, length, vec_capacity, All, IfOk};
ghost use Rattle.core_word.specs.Seen.{SeenHome};
ghost use Rattle.core_cells.specs.Seen.{SeenPass};

use core_cells::{CellPass, Cells, NoCell};
use core_word::{Consumer, Home, Landed, Left, Met, Producer, Tally};
use fan_base::Try;
use std::alloc::{AllocError, Global};
use std::process::Abort;
use std::sync::Wait;
use std::test::Fail;
use std::thread;

type Numbers = Home<u64, u64, u64>;

fn home(alloc: Global) -> Result<Numbers, AllocError>
    ensures { IfOk result (λ home. home.taken ≡ false) }
{
    Home::new(alloc).map_err(|_| AllocError)
}

// Made, handed over, freed and reopened.
fn counts(t: &Tally) -> (u64, u64, u64, u64) {
    (t.made(), t.handed(), t.freed(), t.reopened())
}

// Uses a core once, and gives its cell back. It answers whether the core was its own and the cell came back.
fn used<'h>(
    rt: &impl Wait,
    cells: &Cells<'h, u64, u64, u64>,
    pass: &mut CellPass<'h, u64, u64, u64>,
    n: u64,
    halves: (Producer<'h, u64, u64, u64>, Consumer<'h, u64, u64, u64>),
    t: &mut Tally,
) -> bool
    requires { pass.old.cells ≡ cells.now }
    ensures { pass.new.cells ≡ pass.old.cells }
{
    let (producer, consumer) = halves;
    let (answer, consumer) = consumer.set_callback(n);
    let is_first = match answer {
        Met::Waiting => true,
        Met::Fire(fire) => {
            fire.unpack(t);
            false
        }
        Met::Forward(forward) => {
            forward.unpack(t);
            false
        }
    };
    let (answer, producer) = producer.set_result(Try::Value(n));
    let is_own = match answer {
        Landed::Waiting => false,
        Landed::Fire(fire) => fire.unpack(t) == (n, Try::Value(n), n),
    };
    let first = given_back(rt, cells, pass, consumer.leave(), t);
    let last = given_back(rt, cells, pass, producer.leave(), t);
    is_first && is_own && !first && last
}

// Whether this leave was the last one and its cell came back.
fn given_back<'h>(
    rt: &impl Wait,
    cells: &Cells<'h, u64, u64, u64>,
    pass: &mut CellPass<'h, u64, u64, u64>,
    left: Left<'h, u64, u64, u64>,
    t: &mut Tally,
) -> bool
    requires { pass.old.cells ≡ cells.now }
    ensures { pass.new.cells ≡ pass.old.cells }
{
    match left {
        Left::First(_) => false,
        Left::Last(_, husk) => cells.give_back(rt, pass, husk, t).is_ok(),
    }
}

// Takes a cell, uses it and gives it back, as soon as one is free.
fn cycle<'h>(
    rt: &impl Wait,
    cells: &Cells<'h, u64, u64, u64>,
    pass: &mut CellPass<'h, u64, u64, u64>,
    n: u64,
    t: &mut Tally,
) -> bool
    requires { pass.old.cells ≡ cells.now }
    ensures { pass.new.cells ≡ pass.old.cells }
{
    for _ in rt.forever() {
        match cells.core(rt, pass, n, t) {
            Ok(halves) => return used(rt, cells, pass, n, halves, t),
            Err(NoCell) => thread::yield_now(),
        }
    }
    unreachable!()
}

// A thread's pass, beside its cells.
#[derive(Drop)]
struct Worker<'c, 'h> {
    cells: &'c Cells<'h, u64, u64, u64>,
    pass: CellPass<'h, u64, u64, u64>,
    ghost of_cells: { pass.cells ≡ cells.now },
}

impl<'c, 'h> Worker<'c, 'h> {
    // Uses a core for each of these numbers. It answers what was counted, and how many were used as their own.
    fn work(&mut self, rt: &impl Wait, first: u64, end: u64) -> (Tally, u64) {
        let mut t = Tally::new();
        let mut own = 0u64;
        for n in first..end {
            if cycle(rt, self.cells, &mut self.pass, n, &mut t) {
                own = own.saturating_add(1);
            }
        }
        (t, own)
    }

    // How many cells are free, up to this number. Each is taken before the first one is given back.
    fn free_cells(&mut self, rt: &impl Wait, most: u64, t: &mut Tally) -> u64 {
        if most == 0 {
            return 0;
        }
        match self.cells.core(rt, &mut self.pass, most, t) {
            Err(NoCell) => 0,
            Ok(halves) => {
                let others = self.free_cells(rt, most - 1, t);
                used(rt, self.cells, &mut self.pass, most, halves, t);
                others.saturating_add(1)
            }
        }
    }

    // Whether a core that is begun now is used as its own.
    fn uses(&mut self, rt: &impl Wait, n: u64, t: &mut Tally) -> bool {
        match self.cells.core(rt, &mut self.pass, n, t) {
            Err(NoCell) => false,
            Ok(halves) => used(rt, self.cells, &mut self.pass, n, halves, t),
        }
    }

    // Begins a core while another one is begun, and one after that: whether each was used as its own.
    fn in_one_cell(&mut self, rt: &impl Wait, t: &mut Tally) -> (bool, bool, bool) {
        match self.cells.core(rt, &mut self.pass, 1, t) {
            Err(NoCell) => (false, false, false),
            Ok(halves) => {
                let second = self.uses(rt, 2, t);
                let first = used(rt, self.cells, &mut self.pass, 1, halves, t);
                (first, second, self.uses(rt, 3, t))
            }
        }
    }
}

type Made<'h> = (Cells<'h, u64, u64, u64>, Vec<CellPass<'h, u64, u64, u64>>);

fn cells_over<'h>(
    rt: &impl Wait,
    alloc: Global,
    homes: &'h mut [Numbers],
    passes: u32,
) -> Result<Made<'h>, AllocError>
    requires homes { (0 < length homes.old) × (length homes.old ≤ 65536) }
    requires untaken { All (λ (home : SeenHome). home.taken ≡ false) homes.old }
    requires passes { (0 < passes) × (passes ≤ 64) }
    ensures { IfOk result (λ made. All (λ (p : SeenPass). p.cells ≡ made.0) made.1.items) }
{
    match Cells::new(rt, alloc, homes, passes) {
        Ok(made) => Ok(made),
        Err(_) => Err(AllocError),
    }
}

// The last of the passes that were made.
fn last_pass<'h>(
    rt: &impl Abort,
    cells: &Cells<'h, u64, u64, u64>,
    passes: &mut Vec<CellPass<'h, u64, u64, u64>>,
) -> CellPass<'h, u64, u64, u64>
    requires { All (λ (p : SeenPass). p.cells ≡ cells.now) passes.old.items }
    ensures pass { result.cells ≡ cells.now }
    ensures others { All (λ (p : SeenPass). p.cells ≡ cells.now) passes.new.items }
{
    let Some(pass) = passes.pop() else {
        panic!(rt; "no pass is left")
    };
    pass
}

#[test]
fn one_cell_is_given_out_refused_and_given_out_again(rt: HostRuntime) -> Result<(), Fail> {
    let mut homes = [home(rt.alloc())?];
    let mut t = Tally::new();
    let (cells, mut passes) = cells_over(&rt, rt.alloc(), &mut homes, 1)?;
    let pass = last_pass(&rt, &cells, &mut passes);
    let mut worker = Worker {
        cells: &cells,
        pass,
    };
    let answers = worker.in_one_cell(&rt, &mut t);
    assert_eq!(rt; answers, (true, false, true));
    assert_eq!(rt; counts(&t), (2, 2, 2, 2));
    Ok(())
}

#[test]
fn two_threads_take_and_give_back_a_hundred_thousand_cells(rt: HostRuntime) -> Result<(), Fail> {
    let alloc = rt.alloc();
    let mut homes = [
        home(alloc)?,
        home(alloc)?,
        home(alloc)?,
        home(alloc)?,
        home(alloc)?,
        home(alloc)?,
        home(alloc)?,
        home(alloc)?,
    ];
    let (cells, mut passes) = cells_over(&rt, alloc, &mut homes, 2)?;
    let second = last_pass(&rt, &cells, &mut passes);
    let first = last_pass(&rt, &cells, &mut passes);
    let mut first = Worker {
        cells: &cells,
        pass: first,
    };
    let mut second = Worker {
        cells: &cells,
        pass: second,
    };
    let ((t, own), (other_t, other_own)) = thread::join(
        &rt,
        || first.work(&rt, 0, 50000),
        || second.work(&rt, 50000, 100000),
    );
    let mut t = t.merge(other_t);
    assert_eq!(rt; (own, other_own), (50000, 50000));
    assert_eq!(rt; counts(&t), (100000, 100000, 100000, 100000));
    assert_eq!(rt; first.free_cells(&rt, 9, &mut t), 8);
    Ok(())
}

// Cells with one pass.
fn cells_of_one_pass<'h>(
    rt: &impl Wait,
    alloc: Global,
    homes: &'h mut [Numbers],
) -> Result<(Cells<'h, u64, u64, u64>, CellPass<'h, u64, u64, u64>), AllocError>
    requires homes { (0 < length homes.old) × (length homes.old ≤ 65536) }
    requires untaken { All (λ (home : SeenHome). home.taken ≡ false) homes.old }
    ensures { IfOk result (λ made. (made.1.cells ≡ made.0) × (made.1.passes ≡ 1)) }
{
    let Ok((cells, mut passes)) = Cells::new(rt, alloc, homes, 1) else {
        return Err(AllocError);
    };
    let Some(pass) = passes.pop() else {
        unreachable!()
    };
    Ok((cells, pass))
}

fn ended(left: Left<'_, u64, u64, u64>, t: &mut Tally) {
    match left {
        Left::First(_) => {}
        Left::Last(_, husk) => husk.end(t),
    }
}

// Begins a core, and ends it without giving its cell back.
fn ended_for_good<'h>(
    rt: &impl Wait,
    cells: &Cells<'h, u64, u64, u64>,
    pass: &mut CellPass<'h, u64, u64, u64>,
    t: &mut Tally,
)
    requires { pass.old.cells ≡ cells.now }
    ensures { (pass.new.cells ≡ pass.old.cells) × (pass.new.passes ≡ pass.old.passes) }
{
    let Ok((producer, consumer)) = cells.core(rt, pass, 1, t) else {
        return;
    };
    let (answer, producer) = producer.set_result(Try::Value(5));
    match answer {
        Landed::Waiting => {}
        Landed::Fire(fire) => {
            fire.unpack(t);
        }
    }
    ended(producer.leave(), t);
    ended(consumer.give_up().leave(), t);
}

fn closed<'h>(
    rt: &impl Wait,
    cells: Cells<'h, u64, u64, u64>,
    mut passes: Vec<CellPass<'h, u64, u64, u64>>,
    pass: CellPass<'h, u64, u64, u64>,
) -> usize
    requires place { (passes.items ≡ []) × (1 ≤ vec_capacity passes) }
    requires only { (pass.cells ≡ cells) × (pass.passes ≡ 1) }
{
    passes.push_reserved(pass);
    cells.close(rt, passes)
}

// Closes cells one of which was not given back: how many are free.
fn free_at_the_close<'h>(
    rt: &impl Wait,
    alloc: Global,
    homes: &'h mut [Numbers],
    t: &mut Tally,
) -> Result<usize, AllocError>
    requires homes { (0 < length homes.old) × (length homes.old ≤ 65536) }
    requires untaken { All (λ (home : SeenHome). home.taken ≡ false) homes.old }
{
    let (cells, mut pass) = cells_of_one_pass(rt, alloc, homes)?;
    let passes = Vec::with_capacity(alloc, 1)?;
    ended_for_good(rt, &cells, &mut pass, t);
    Ok(closed(rt, cells, passes, pass))
}

#[test]
fn a_close_says_how_many_cells_are_free(rt: HostRuntime) -> Result<(), Fail> {
    let alloc = rt.alloc();
    let mut homes = [home(alloc)?, home(alloc)?, home(alloc)?];
    let mut t = Tally::new();
    let free = free_at_the_close(&rt, alloc, &mut homes, &mut t)?;
    assert_eq!(rt; free, 2);
    assert_eq!(rt; counts(&t), (1, 0, 1, 0));
    Ok(())
}
