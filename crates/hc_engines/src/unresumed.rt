// A result of a device operation that was refused.
use hc_flash::IoResult;
use hc_types::Refusal;
use std::alloc::{Allocator, Global};

/// A result that was refused, and why. It shows as the refusal.
#[derive(Drop)]
pub struct Unresumed<A: Allocator = Global> {
    pub refusal: Refusal,
    pub came: IoResult<A>,
}
