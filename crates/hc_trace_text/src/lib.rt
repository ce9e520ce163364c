//! The lines of a trace, and those of its answers: what a line says, and how answers, losses, counts and faults are printed
//! (docs/FORMATS.md).
#![tactic(auto)]

mod grammar;
mod numbers;
mod serving;
mod texts;
mod value;

pub use grammar::{LONGEST, Line, NewItem, Order, Step, Work, first_field, line_in};
pub use numbers::number;
pub use texts::{
    add_fault, add_hit, add_losses, add_moment, add_number, add_reads, add_reclaimed, add_refusal,
    add_stats, add_value, add_verdict, add_waiting, add_word, add_writes, is_repeated,
};
pub use value::{TIMES_MAX, Value, all_visible, is_key, value_in};
