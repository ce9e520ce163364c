//! A cache over a device in memory, moved by the lines of a trace: each is what the machine does, and is answered as it is.
#![tactic(auto)]

mod answers;
mod device;
mod outcomes;
mod player;
mod steps;
mod working;

pub use answers::Answer;
pub use player::{Player, new_device};
