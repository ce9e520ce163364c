//! The judge of flash: large puts and what is filed of them, and whether the notes and the causes of flash are lawful.
#![tactic(auto)]

mod causes;
mod filed;
mod filings;
mod keys;
mod opening;
mod puts;
mod rooms;
mod rules;

pub use causes::is_true_on_flash;
pub use filed::{RegionBooks, region_books};
pub use filings::{Filing, are_empty, is_empty, is_filed, is_filed_at, is_filed_under};
pub use keys::{is_due, is_writing};
pub use opening::{goes_on, is_lowest_clean, is_placed, is_unplaced, may_open};
pub use puts::{Put, before_put, is_put_of, put_from, put_told, put_under_way};
pub use rooms::{has_no_room, passes};
pub use rules::is_allowed_on_flash;
