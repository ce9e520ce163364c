//! What follows for a cache that is closed and goes on with its parts, any number of times: what its runs tell is one legal
//! log, and nothing stale is found in a later run either. No code, but functions that do nothing and whose contracts are the
//! laws.
#![tactic(auto)]

mod laws;

pub use laws::{
    digests_go_on, new_tickets_are_fresh, no_hit_is_stale, nothing_stale, old_tickets_are_stale,
    runs_are_legal, runs_are_one, schedules_go_on,
};
