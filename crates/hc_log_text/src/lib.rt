//! A log as text: the lines of its configuration and of its notes, written and read (docs/FORMATS.md).
#![tactic(auto)]

mod alone;
mod calls;
mod fields;
mod flash;
mod held;
mod line;
mod log;
mod losses;
mod notes;
mod read;
mod sayable;
mod texts;
mod write;

pub use flash::{read_flash, write_flash};
pub use log::{LogText, line_at, read_log};
pub use read::read_note;
pub use sayable::is_sayable;
pub use write::{WriteError, write_note};
