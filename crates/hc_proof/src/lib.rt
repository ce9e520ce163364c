//! That the steps of the machine keep the invariant, as far as clients and the engine for large objects go: frames (a state in the
//! midst of a step, and what notes and changes leave as it was), shapes (what a part of a step tells), losses, and that fills are
//! fresh; the engine for large objects against the books (books, jobs, reads, writes); the steps of clients (calls, storing,
//! evicting); and what holds of the cache whatever the device answers (structure).
#![tactic(auto)]

mod laws;

pub use laws::{
    add_is_structured, allocate_is_structured, discard_is_structured, evicted_never_waits,
    filler_is_structured, find_is_structured, finish_is_structured, insert_is_structured,
    new_is_structured, reclaim_is_structured, remove_is_structured, reply_is_structured,
    tick_is_structured, waiting_adds_are_open, writer_is_structured,
};
