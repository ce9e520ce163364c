//! One shard of a cache, which refuses the keys of the others.
#![tactic(auto)]

mod handles;
mod plain;
mod shard;
mod workers;

pub use shard::Shard;
