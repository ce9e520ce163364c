//! What follows for shards: whose keys a log speaks of.
#![tactic(auto)]

mod laws;

pub use laws::shards_keep_keys;
