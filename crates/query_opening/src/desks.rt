ghost use Rattle.std.specs.Prelude.{◌≡◌, ◌<◌, ◌≤◌};
ghost use Rattle.fan_model.specs.Notes.{base_of};
ghost use Rattle.fan_parts.specs.Facts.{IsCountable};

use fan_base::ExecId;
use fan_parts::{PartCallback, RunName};

/// The callback of the task of a query over a shard, for the base on which the query is gathered.
pub fn task_callback<N: RunName>(number: u32, shard: u32, exec: ExecId) -> PartCallback<N>
    requires shard { shard < N.asked.shards }
    requires few { number ≤ 50000 }
    requires exec { exec ≡ record { 0 = base_of N.asked.bases number } }
    requires countable { IsCountable N.asked }
    ensures { result ≡ record { number = number; shard = shard; exec = exec } }
{
    PartCallback::new(number, shard, exec)
}
