//! What a trace comes to, with flash or without, in the words of the machine: what is printed, and that the log behind it
//! is legal and honest.
#![tactic(auto)]

mod laws;

pub use laws::{each_line_is_answered, logs_are_right, output_is_by_lines, traces_are_runs};
