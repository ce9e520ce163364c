//! The judge of a log: whether it is legal and honest, and else which note is the first that is wrong.
#![tactic(auto)]

mod lawful;
mod text;
mod verdict;

pub use hc_judge_memory::{first_lie, first_lie_in, is_at_end};
pub use lawful::first_unlawful;
pub use text::judge_text;
pub use verdict::{Verdict, judge};
