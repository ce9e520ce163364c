//! What the notes so far come to on the device: pages, the entries of buckets, and regions.
#![tactic(auto)]

mod buckets;
mod ends;
mod pages;
mod places;
mod pushing;
mod regions;

pub use buckets::{bucket_entries, could_have, entries_in, is_in_bucket};
pub use ends::{before_losses, last};
pub use pages::{failed_page, is_known, wrote_page};
pub use places::{is_page_of, last_page, limits, region_bytes};
pub use pushing::{is_pushed_out, pushes_out};
pub use regions::{behind, clean_count, flushed, in_use, open_region};
