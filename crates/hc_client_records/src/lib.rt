//! What clients did and were answered, and whether that agrees with a log.
#![tactic(auto)]

mod calls;
mod failing;
mod own;
mod reached;
mod reconciling;
mod record;
mod walk;

pub use failing::failures;
pub use reconciling::reconcile;
pub use record::{Entry, Mismatch, OpenCall, Record, Recorded};
