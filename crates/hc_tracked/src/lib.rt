//! A core over any device at all: what it is handed of a page that was read is compared with the digest of what was written.
#![tactic(auto)]

mod resting;
mod same;
mod tracked;

pub use resting::TrackedParts;
pub use same::is_same;
pub use tracked::{TrackedCore, digest_of};
