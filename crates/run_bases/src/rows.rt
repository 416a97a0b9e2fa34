ghost use Rattle.std.specs.Prelude.{◌≡◌, ◌<◌, ◌≤◌, ℕ, suc, List, [], length, vec_capacity};
ghost use Rattle.fan_base.specs.declared.number.ExecId.{ExecId};
ghost use Rattle.notify_queue.specs.Ends.{AreAllEnds, QueueId, Receiving, Sending, new_sender};
ghost use Rattle.event_base.specs.Closing.{AreOn};
ghost use Rattle.run_bases.specs.Columns.{AreBack, AreColumns, IsColumn, IsEndOf, IsEndRow, IsRow};

use event_base::Poster;
use job_trait::Headed;
use notify_queue::SenderEnd;

/// The posters of one base that nobody has yet, and the ends that came back. There is room for the ends of all posters.
pub struct Column<J> {
    pub posters: Vec<Poster<J>>,
    pub ends: Vec<SenderEnd<J>>,
}

/// Takes the last poster of each column.
pub fn take_row<J: Headed>(columns: &mut [Column<J>], row: &mut Vec<Poster<J>>)
    requires row { row.old.items ≡ [] }
    requires room { length columns.old ≤ vec_capacity row.old }
    requires left { (queues : List QueueId) × (first senders left low : ℕ) × AreColumns J.head queues first senders (suc left) low columns.old }
    ensures row { (queues : List QueueId) (first senders left low : ℕ) → AreColumns J.head queues first senders (suc left) low columns.old
        → IsRow queues left row.new.items }
    ensures columns { (queues : List QueueId) (first senders left low : ℕ) → AreColumns J.head queues first senders (suc left) low columns.old
        → AreColumns J.head queues first senders left low columns.new }
{
    for place in 0..columns.len() {
        row.push_reserved(take_one(&mut columns[place]));
    }
}

/// Takes the poster with the greatest number.
pub fn take_one<J: Headed>(column: &mut Column<J>) -> Poster<J>
    requires left { (queue : QueueId) × (exec : ExecId) × (senders left low : ℕ) × IsColumn J.head queue exec senders (suc left) low column.old }
    ensures poster { (queue : QueueId) (exec : ExecId) (senders left low : ℕ) → IsColumn J.head queue exec senders (suc left) low column.old
        → result ≡ new_sender queue left }
    ensures column { (queue : QueueId) (exec : ExecId) (senders left low : ℕ) → IsColumn J.head queue exec senders (suc left) low column.old
        → IsColumn J.head queue exec senders left low column.new }
{
    let Some(poster) = column.posters.pop() else {
        unreachable!()
    };
    poster
}

/// Puts the ends of a row back, each into its column.
pub fn put_row<J: Headed>(columns: &mut [Column<J>], row: Vec<SenderEnd<J>>)
    requires back { (queues : List QueueId) × (first senders left low : ℕ) × AreColumns J.head queues first senders left (suc low) columns.old
        × IsEndRow J.head queues first low row.items }
    ensures { (queues : List QueueId) (first senders left low : ℕ) → AreColumns J.head queues first senders left (suc low) columns.old
        → IsEndRow J.head queues first low row.items
        → AreColumns J.head queues first senders left low columns.new }
{
    let mut row = row;
    while let Some(end) = row.pop() {
        let place = row.len();
        put_one(&mut columns[place], end);
    }
}

/// Puts the end of the poster with the greatest number of those that are away back into its column.
pub fn put_one<J: Headed>(column: &mut Column<J>, end: SenderEnd<J>)
    requires back { (queue : QueueId) × (exec : ExecId) × (senders left low : ℕ) × IsColumn J.head queue exec senders left (suc low) column.old }
    ensures { (queue : QueueId) (exec : ExecId) (senders left low : ℕ) → IsColumn J.head queue exec senders left (suc low) column.old
        → IsEndOf J.head queue low exec end
        → IsColumn J.head queue exec senders left low column.new }
{
    column.ends.push_reserved(end);
}

/// Where all rows are back, a column has the ends of all posters of its base: of each number one.
pub fn all_are_back<J: Headed>()
    ensures { (queue : QueueId) (exec : ExecId) (senders : ℕ) (ends : List (Sending J)) (base : Receiving J)
        → AreBack J.head queue exec senders 0 ends
        → base.queue ≡ queue → base.senders ≡ senders → AreAllEnds base ends × AreOn J.head exec ends }
{}
