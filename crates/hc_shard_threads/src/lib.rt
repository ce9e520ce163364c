//! A cache in shards, each under a lock of its own, for many clients, and workers in threads beside them.
#![tactic(auto)]

mod client;
mod close;
mod gate;
mod serving;
mod shards;

pub use client::ShardClient;
pub use close::Unclosed;
pub use gate::ShardGate;
pub use serving::serve;
pub use shards::Shards;
