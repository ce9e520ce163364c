//! The small engine's buckets: the entries of a page, read where they stand, and entries written as a page.
#![tactic(auto)]

mod checking;
mod decoding;
mod entries;
mod fields;
mod laws;
mod placed;
mod writing;

pub use decoding::decode_page;
pub use entries::Entries;
pub use laws::one_list_a_page;
pub use placed::Placed;
pub use writing::{begin_page, end_page, entry_len, put_entry};
