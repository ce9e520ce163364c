//! A cache in shards: how a configuration is cut into those of its shards, which shard a key is of, and which pages of a
//! device are a shard's.
#![tactic(auto)]

mod laws;
mod part;
mod sharded;

pub use laws::{pages_are_apart, pages_are_known, parts_are_apart, shares_are_right};
pub use part::DevicePart;
pub use sharded::Sharded;
