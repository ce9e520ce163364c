//! Replays a trace by many clients in threads, beside the workers, and prints their answers in the order of the trace
//! (docs/FORMATS.md).
#![tactic(auto)]

mod answers;
mod calls;
mod closing;
mod plan;
mod reading;
mod replaying;
mod session;

pub use closing::{mismatch, verdict};
pub use replaying::replay_by;
