//! The theorem: each step keeps the invariant, and every run leaves a legal and honest log, and follows its steps. The steps of
//! workers (writer, fills, buckets), whole runs (runs: the device, traces, schedules, logs of a device that lies), that every run
//! follows its steps (slots, clients, charges, workers, idle), and the headlines (headlines).
#![tactic(auto)]

mod laws;

pub use laws::{
    add_keeps, allocate_keeps, between, calls_stay_guarded, discard_keeps, filler_keeps,
    find_keeps, finish_keeps, headline, headline_of_logs, headline_of_quiet_schedules,
    headline_of_schedules, honest_finish, insert_keeps, lines_are_steps, new_stands, reclaim_keeps,
    remove_keeps, reply_keeps, schedules_stand, step_keeps, tick_keeps, writer_keeps,
};
