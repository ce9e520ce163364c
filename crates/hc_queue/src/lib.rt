//! What waits for its turn, in order: pieces of work in lanes, where a busy lane is passed over without a scan.
#![tactic(auto)]

mod inbox;
mod keyed;
mod lanes;
mod order;
mod queue;
mod shown;

pub use keyed::{KeyedQueue, Named};
pub use queue::{Piece, Queue};
