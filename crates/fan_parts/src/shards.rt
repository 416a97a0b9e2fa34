ghost use Rattle.std.specs.Prelude.{◌≡◌};
ghost use Rattle.fan_parts.specs.Facts.{AreShardsOf};

use crate::run_name::RunName;
use shard_index::Shard;
use std::marker::PhantomData;

/// All shards of the run's documents, by number.
#[derive(Drop)]
pub struct RunShards<'s, N: RunName> {
    shards: &'s [Shard],
    of: PhantomData<N>,
    pub ghost are: { AreShardsOf N.asked shards.now },
}

impl<'s, N: RunName> RunShards<'s, N> {
    /// These shards.
    pub fn new(shards: &'s [Shard]) -> RunShards<'s, N>
        requires { AreShardsOf N.asked shards.now }
        ensures { result.shards.now ≡ shards.now }
    {
        RunShards {
            shards,
            of: PhantomData,
        }
    }

    /// The same once more.
    pub fn again(&self) -> RunShards<'s, N>
        ensures { result.shards.now ≡ self.now.shards.now }
    {
        RunShards {
            shards: self.shards,
            of: PhantomData,
        }
    }

    /// The shards.
    pub fn all(&self) -> &'s [Shard]
        ensures same { result.now ≡ self.now.shards.now }
        ensures are { AreShardsOf N.asked result.now }
    {
        self.shards
    }
}
