ghost use Rattle.run_tasks.specs.Worlds.{TaskRan};

use crate::answer::answer_task;
use crate::task::ShardTask;
use crate::world::TaskWorld;
use fan_base::Mark;
use fan_parts::RunName;
use job_trait::Job;
use std::sync::Wait;

impl<'c, 't, 'i: 't, N: RunName> Job<TaskWorld<'c, 't, 'i, N>> for ShardTask<'t, 'i, N> {
    ghost use Rattle.run_tasks.specs.Worlds.{TaskRan};

    ghost runs = { TaskRan };

    fn run<R: Wait>(self, rt: &R, world: &mut TaskWorld<'c, 't, 'i, N>) -> Mark {
        let ShardTask {
            producer,
            ask,
            shard,
            exec: _,
        } = self;
        let alloc = *world.posters.allocator();
        let (outcome, mark) = answer_task(alloc, &world.shards, &ask, shard, &mut world.refused);
        world.fulfil(rt, producer, outcome);
        mark
    }
}
