//! What each step of the machine does, law by law.
#![tactic(auto)]

mod laws;

pub use laws::{
    answers_are_framed, evicted_items_leave_by_the_table, filler_serves_the_first,
    fills_are_linked_clean, find_takes_the_first_case, gets_end_their_fill, insert_is_due,
    nothing_live_brings_nothing, orphans_bring_nothing, refused_changes_nothing,
    tombstones_end_by_deletes_and_losses, writer_serves_the_first,
};
