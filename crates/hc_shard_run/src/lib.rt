//! Schedules of a cache in shards: any list of steps of all shards over one device, and what each shard leaves.
#![tactic(auto)]

mod lane;
mod laws;
mod runs;
mod steps;

pub use laws::refused_steps_change_nothing;
pub use runs::{RanShard, RanShards, run_shards};
pub use steps::ShardStep;
