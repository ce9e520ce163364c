//! The results of device operations that wait until they are handed in, each by the number of its job.
#![tactic(auto)]

mod results;

pub use results::{Results, copy};
