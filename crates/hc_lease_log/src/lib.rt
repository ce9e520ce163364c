//! What a ticket promises, over the log of a cache: whatever clients and workers do, and in whatever order. No code, but two
//! functions that do nothing and whose contracts are the laws.
#![tactic(auto)]

mod laws;

pub use laws::{fresh_over_log, no_find_is_stale};
