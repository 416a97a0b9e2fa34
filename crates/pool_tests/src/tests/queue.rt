// One queue and a mark on one thread.
ghost use Rattle.std.specs.Prelude.{◌≡◌, ◌<◌, [], Some};
ghost use Rattle.pool_model.specs.declared.task.Ending.TheVariants.{Stops};

use super::{Note, Numbered, let_go, same};
use fan_base::Refused;
use job_trait::Headed;
use keep_alive::{KeepAlive, KeepOwner};
use pool_model::{Ending, Ticket};
use std::alloc::Global;
use std::process::Abort;
use std::sync::Wait;
use task_queue::{
    Adder, EndMark, KeptMark, Looks, OpenSeat, Packets, Queued, Taker, TaskQueue, Watch,
};

fn make_task<J: Numbered>(adder: u32, index: u64, id: u64) -> Queued<J>
    ensures { result.ticket ≡ record { adder = adder; index = index } }
{
    Queued {
        ticket: Ticket { adder, index },
        job: J::of(id),
    }
}

fn id_of<J: Numbered>(task: Queued<J>) -> u64 {
    let Queued { ticket: _, job } = task;
    job.taken_apart()
}

// The id of the job that is left next, or 0.
fn next<J: Numbered>(left: &mut Packets<Queued<J>>) -> u64 {
    match left.pop_front() {
        Some(task) => id_of(task),
        None => 0,
    }
}

// Takes a task, of which the job has to have this id; where it is 0, the queue has to be empty. The taker stays one of this queue.
fn check_take<J: Numbered, R: Abort + Wait>(
    rt: &R,
    queue: &TaskQueue<J>,
    taker: &mut Taker<J>,
    looks: &mut Looks<J>,
    id: u64,
)
    requires { taker.old.queue ≡ queue.now }
    ensures { taker.new.queue ≡ taker.old.queue }
{
    let found = match queue.take(rt, taker, 0, looks) {
        Some(task) => id_of(task),
        None => 0,
    };
    same(rt, found, id);
}

// Pushes an adder's first task, for which there has to be memory.
fn push_first<J: Numbered, R: Abort + Wait>(
    rt: &R,
    queue: &TaskQueue<J>,
    adder: &mut Adder<J>,
    number: u32,
    id: u64,
)
    requires queue { adder.old.queue ≡ queue.now }
    requires number { number ≡ adder.old.number }
    requires first { adder.old.pushed ≡ [] }
    ensures { (adder.new.queue ≡ adder.old.queue) × (adder.new.passes ≡ adder.old.passes) }
{
    match queue.push(rt, adder, make_task(number, 0, id)) {
        Ok(()) => {}
        Err(Refused::Memory(task)) => {
            same(rt, id_of(task), id);
            rt.panic("memory")
        }
    }
}

// Ends a queue of three passes, and hands out what is left.
fn end_queue<J: Headed, R: Wait>(
    rt: &R,
    queue: TaskQueue<J>,
    first: Adder<J>,
    second: Adder<J>,
    taker: Taker<J>,
) -> Packets<Queued<J>>
    requires first { (first.queue ≡ queue) × (first.passes ≡ 3) }
    requires second { second.queue ≡ queue }
    requires taker { taker.queue ≡ queue }
{
    let mut all = queue.gather(first);
    queue.put_taker(&mut all, taker);
    queue.put_adder(&mut all, second);
    queue.settle(rt, all)
}

// Compares what is left: one task.
fn check_left<J: Numbered, R: Abort>(rt: &R, mut left: Packets<Queued<J>>, id: u64) {
    same(rt, (next(&mut left), next(&mut left)), (id, 0));
}

fn pass_two<J: Numbered, R: Abort + Wait>(rt: &R, alloc: Global) {
    let (queue, mut maker) = TaskQueue::<J>::new(alloc, 3).expect(rt, "memory");
    let mut first = queue.next_adder(&mut maker);
    let mut second = queue.next_adder(&mut maker);
    let mut taker = queue.next_taker(&mut maker);
    let mut looks = Looks::new();
    check_take(rt, &queue, &mut taker, &mut looks, 0);
    push_first(rt, &queue, &mut first, 0, 10);
    push_first(rt, &queue, &mut second, 1, 11);
    check_take(rt, &queue, &mut taker, &mut looks, 10);
    check_left(rt, end_queue(rt, queue, first, second, taker), 11);
}

#[test]
fn tasks_leave_in_order_and_the_rest_is_handed_out(rt: HostRuntime) {
    pass_two::<Note, HostRuntime>(&rt, rt.alloc());
}

// Looks at the mark, and compares what it finds. The watch stays one of this mark.
fn check_look<J, R: Abort>(
    rt: &R,
    mark: &EndMark,
    watch: &mut Watch,
    looks: &mut Looks<J>,
    expected: Option<Ending>,
)
    requires { watch.old.mark ≡ mark.now.mark }
    ensures { watch.new.mark ≡ watch.old.mark }
{
    same(rt, mark.look(watch, looks), expected);
}

// Sets the mark to a stop, once the keep-alive has been released.
fn begin_to_stop<R: Wait>(
    rt: &R,
    kept: &KeptMark,
    owner: KeepOwner,
    keep: KeepAlive,
    all: OpenSeat,
) -> Watch
    requires owner { owner.count ≡ kept.now.count }
    requires mark { all.mark ≡ kept.now.mark }
    requires all { all.parts ≡ kept.now.adders }
    requires some { 0 < all.parts }
    ensures mark { result.mark ≡ kept.now.mark }
    ensures found { result.found ≡ Some Stops }
{
    let_go(keep);
    let joined = owner.join(rt);
    kept.begin(&joined, all, Ending::Stops)
}

fn set_once<J, R: Abort + Wait>(rt: &R, alloc: Global) {
    let (open, mut all) = EndMark::new(alloc, 2).expect(rt, "memory");
    let (owner, keep) = KeepOwner::new(alloc, 0).expect(rt, "memory");
    let kept = open.kept_by(&keep);
    let mark = kept.mark();
    let mut worker = mark.watch(&mut all);
    let mut looks: Looks<J> = Looks::new();
    let other = mark.one_part(&mut all);
    check_look(rt, mark, &mut worker, &mut looks, None);
    mark.put_parts(&mut all, other);
    let mut begun = begin_to_stop(rt, &kept, owner, keep, all);
    check_look(rt, mark, &mut worker, &mut looks, Some(Ending::Stops));
    mark.agree(&mut begun, worker);
    check_look(rt, mark, &mut begun, &mut looks, Some(Ending::Stops));
}

#[test]
fn a_mark_is_found_once_it_is_set(rt: HostRuntime) {
    set_once::<Note, HostRuntime>(&rt, rt.alloc());
}
