//! What each call of the cache's machine tells its stamps, and what a ticket promises of any calls of clients and
//! workers. No code, but functions that do nothing and whose contracts are the laws.
#![tactic(auto)]

mod laws;

pub use laws::{
    calls_store, calls_tell, no_hit_is_stale, no_reply_is_stale, nothing_stale, removes_delete,
    tickets_hold,
};
