// Steps, each for a shard.
ghost use Rattle.std.specs.Prelude.{◌≡◌, None};
ghost use Rattle.hc_shards.specs.Shards.{sharded_wrong};
ghost use Rattle.hc_shard_laws.specs.OwnKeys.{is_own};
ghost use Rattle.hc_shard_run.specs.Steps.{is_for};

use hc_run::{Request, Step};
use hc_shards::Sharded;
use std::alloc::{Allocator, Global};
use std::marker::Model;

/// A step of a schedule, and the shard that it is for, from 0.
#[derive(Drop)]
pub struct ShardStep<A: Allocator = Global> {
    pub shard: u8,
    pub step: Step<A>,
}

impl<A: Allocator> Model for ShardStep<A> {
    ghost use Rattle.hc_shard_laws.specs.OwnKeys.{ShardStep as Meaning};

    ghost Value = { Meaning };

    ghost view = { λ s. record { shard = s.shard; step = s.step } };
}

/// Whether the step names no key, or one of the shard's.
fn names_own<A: Allocator>(sharded: &Sharded<A>, shard: u8, step: &Step<A>) -> bool
    requires { sharded_wrong sharded.now ≡ None }
    ensures { result ≡ is_own sharded.now.shards shard step.now.deed }
{
    match &step.request {
        Request::Open { key, .. } => sharded.shard_of(key) == shard,
        Request::Find { key } => sharded.shard_of(key) == shard,
        Request::Remove { key } => sharded.shard_of(key) == shard,
        Request::Put { .. } => true,
        Request::PutNew { .. } => true,
        Request::Discard { .. } => true,
        Request::Reply { .. } => true,
        Request::Tick { .. } => true,
        Request::WriterTake => true,
        Request::FillerTake => true,
        Request::Reclaim => true,
        Request::Io { .. } => true,
        Request::Finish { .. } => true,
    }
}

/// Whether there is the shard, and the step names no key of another.
pub(crate) fn is_taken<A: Allocator>(sharded: &Sharded<A>, one: &ShardStep<A>) -> bool
    requires { sharded_wrong sharded.now ≡ None }
    ensures { result ≡ is_for sharded.now.shards one.now }
{
    one.shard < sharded.shards && names_own(sharded, one.shard, &one.step)
}
