//! Paged flash devices: what a device is asked and may answer, a device in memory, and devices for tests that fail or lie.
#![tactic(auto)]

mod fail_at;
mod flash;
mod liar;
mod mem_flash;
mod operation;

pub use fail_at::FailAt;
pub use flash::{Flash, FlashError};
pub use liar::Liar;
pub use mem_flash::MemFlash;
pub use operation::{IoResult, Order, perform};
