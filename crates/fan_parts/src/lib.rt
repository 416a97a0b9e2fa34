//! The types that the stages of a run share: what a task's core, a query's desk, and a reply's core hand over, and what is posted to
//! a base. Each says by its type of which input it is: the facts stand over the names of a [`RunName`].
//!
//! ```text
//! task's core:   Part, to PartCallback        on a gathering base: the part arrives at its query's desk
//! desk:          parts by shard, then End      the last arrival has all parts, and the producer of the reply's core
//! reply's core:  PlacedReply, to ReplyCallback on the printer's base; or, for `top`, it names an inner core
//! inner core:    PlacedReply, to ReplyCallback fulfilled by a Scoring, in a loop callback of the gathering base
//! ```
#![tactic(auto)]

pub use ask::NumberedAsk;
pub use awaited::{forward_awaited, fulfil_awaited, look_until_left};
pub use cores::{
    End, InnerConsumer, InnerHome, InnerKey, InnerProducer, PartCallback, PartDesk, ReplyConsumer,
    ReplyFire, ReplyHome, ReplyKey, ReplyProducer, TaskConsumer, TaskFire, TaskHome, TaskKey,
    TaskProducer,
};
pub use jobs::{GatherJob, PrintJob, ScoreCall, Scoring};
pub use part::Part;
pub use poster::BasePoster;
pub use reply::{CancelledReply, PlacedReply, ReplyCallback};
pub use run_name::RunName;
pub use shards::RunShards;
pub use spending::{
    spend_end, spend_gather_job, spend_print_job, spend_reply, spend_scoring, spend_task,
};

mod ask;
mod awaited;
mod cores;
mod jobs;
mod part;
mod poster;
mod reply;
mod run_name;
mod shards;
mod spending;
