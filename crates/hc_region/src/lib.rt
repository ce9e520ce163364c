//! The regions of the flash: what is appended to each, which of its pages went out, which reads hold it, which regions are
//! clean, and the bytes of an entry. Regions, clean regions and the flush of a region are CacheLib's BlockCache's.
#![tactic(auto)]

mod clean;
mod decoding;
mod entries;
mod filling;
mod numbered;
mod pages;
mod place;
mod region;
mod resting;
mod shown;
mod status;
mod waiting;

pub use clean::{
    CleanRegions, add_emptied, all_clean, clean_count, clean_of, lowest_clean, open_lowest,
    with_released,
};
pub use decoding::entry_in;
pub use entries::{HEAD, entry_bytes};
pub use filling::fill;
pub use numbered::{
    append_at, appended_at, buffered_at, can_go_at, empty_at, filled_at, if_fits, mark_at,
    next_page_at, page_after_at, pin_at, release_at, seal_at, settle_at, stage_at, store_at,
    undo_at, written_at,
};
pub use place::Place;
pub use region::{Appended, Region};
pub use resting::{AtRest, all_rest};
pub use status::{Mark, Stage};
pub use waiting::{first_ready, oldest, take_out, take_sealed_out};
