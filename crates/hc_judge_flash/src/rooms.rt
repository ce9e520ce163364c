// The room in the open region.
ghost use Rattle.std.specs.Prelude.{◌≡◌};
ghost use Rattle.hc_history.specs.Regions as spec;
ghost use Rattle.hc_judge_device.specs.Limits.{IsLimited};

use crate::puts::Put;
use hc_judge_device::region_bytes;
use hc_types::FlashConfig;
use std::alloc::Allocator;

/// Whether no region is open, or the one that is, filled so far, has no room for so many bytes.
#[must_use]
pub fn has_no_room(flash: &FlashConfig, current: Option<u32>, filled: u64, bytes: u64) -> bool
    requires { IsLimited flash.now }
    ensures { result ≡ spec.has_no_room flash.now current filled bytes }
{
    match current {
        Some(_) => {
            let all = region_bytes(flash);
            filled > all || bytes > all - filled
        }
        None => true,
    }
}

/// Whether there is a large put that the open region, filled so far, has no room for.
#[must_use]
pub fn passes<A: Allocator>(
    flash: &FlashConfig,
    current: Option<u32>,
    filled: u64,
    put: &Option<Put<'_, A>>,
) -> bool
    requires { IsLimited flash.now }
    ensures { result ≡ spec.passes flash.now current filled put.now }
{
    match put {
        Some(put) => has_no_room(flash, current, filled, put.bytes),
        None => false,
    }
}
