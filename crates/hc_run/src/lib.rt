//! Schedules: any list of steps of clients and workers on a new cache over any device, and the log that they leave.
#![tactic(auto)]

mod device;
mod helpers;
mod laws;
mod runs;
mod slots;
mod stage;
mod steps;
mod tracked;
mod window;

pub use laws::{chains_are_runs, runs_keep_promise, runs_stand};
pub use runs::{Ran, Stopped, go_on, run, run_quiet};
pub use stage::Stage;
pub use steps::{Answer, Outcome, Request, Step};
pub use tracked::{RanTracked, run_tracked};
pub use window::Window;
