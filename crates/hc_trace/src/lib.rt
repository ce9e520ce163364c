//! Replays a trace of cache operations on a cache, and prints its answers (docs/FORMATS.md).
#![tactic(auto)]

mod chunks;
mod machine;
mod state;
mod telling;

pub use crate::chunks::replay;
