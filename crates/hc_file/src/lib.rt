//! A device of pages in a file or on a block device, and how it is opened.
#![tactic(auto)]

mod file;
mod head;
mod in_use;
mod opening;

pub use file::FileDevice;
pub use opening::{OpenError, open, overwrite};
