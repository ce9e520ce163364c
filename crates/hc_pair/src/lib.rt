//! The engines for small and for large objects on flash as one: who serves which size. It calls no device: an operation is
//! started, answers which page is to be read or written, and is resumed with what came of that.
#![tactic(auto)]

mod endings;
mod joining;
mod losing;
mod pair;
mod questions;
mod resting;
mod resuming;
mod shown;
mod starting;

pub use endings::Ending;
pub use pair::Pair;
