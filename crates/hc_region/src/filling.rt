// Regions as a new engine has them.
ghost use Rattle.std.specs.Prelude.{◌≡◌, ◌++◌, replicate, OnOk};
ghost use Rattle.hc_engines.specs.large.Region.{clean_region};

use crate::region::Region;
use std::alloc::{AllocError, Allocator};

/// So many more clean regions. Refused only when out of memory.
pub fn fill<A: Allocator + Clone + Copy>(
    alloc: A,
    regions: &mut Vec<Region<A>, A>,
    n: u64,
) -> Result<(), AllocError>
    ensures { OnOk result (regions.new.items ≡ regions.old.items ++ replicate n clean_region) }
{
    for _ in 0..n {
        regions.push(Region::clean(alloc))?;
    }
    Ok(())
}
