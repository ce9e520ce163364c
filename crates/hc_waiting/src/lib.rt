//! What waits for flash, in order: the puts, the tombstones, and the fills with the calls that wait for them; and the replies that
//! the cache owes, each of which is there once its call is answered, until it is taken.
#![tactic(auto)]

mod fills;
mod line;
mod puts;
mod replies;
mod shown;
mod tombstones;
mod waiters;

pub use fills::Fills;
pub use puts::Puts;
pub use replies::{Replies, Untaken};
pub use tombstones::Tombstones;
pub use waiters::{Waiter, Wish};
