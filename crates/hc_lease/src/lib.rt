//! Leases: when the keys of a cache were changed last, so that what was loaded before a change of its key is not stored
//! after it, and who loads what.
//!
//! A service that misses loads the row from its database and stores it. Where another has changed the row and deleted the
//! key meanwhile, what is stored is stale. So a miss is handed a `Ticket`, the moment of that miss, and what was loaded is
//! stored only where no key of its slot was changed since then (`Stamps`). That many who miss one key load it once is
//! another matter, of which no promise speaks (`Turns`). Leases are memcached's (Nishtala and others, NSDI 2013); there they
//! are entries of a table, here they are moments.
#![tactic(auto)]

mod laws;
mod shown;
mod stamps;
mod ticket;
mod turns;

pub use laws::{fresh_is_unchanged, never_stale, one_at_a_time, turns_end, unchanged_is_fresh};
pub use stamps::{Adding, Stamps};
pub use ticket::Ticket;
pub use turns::{Turn, Turns};
