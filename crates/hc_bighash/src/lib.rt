//! The engine for small objects on flash: CacheLib's BigHash, hashed buckets of a page each, with a Bloom filter each in
//! memory. It calls no device: an operation is started, answers which page is to be read or written, and is resumed with
//! what came of that.
#![tactic(auto)]

mod awaiting;
mod big_hash;
mod copies;
mod endings;
mod jobs;
mod new_page;
mod pages;
mod plans;
mod questions;
mod resting;
mod results;
mod resuming;
mod shown;
mod steps;
mod turns;
mod words;

pub use big_hash::BigHash;
pub use endings::Ending;
pub use results::Handed;
