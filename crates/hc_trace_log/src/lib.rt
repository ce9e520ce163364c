//! The log of a trace: its lines move a cache that keeps every note, with flash or without.
#![tactic(auto)]

mod configuring;
mod lines;
mod logged;
mod running;

pub use logged::{Logged, log_of};
