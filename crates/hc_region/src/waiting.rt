// The regions that wait, first come first: the sealed ones for their flush, those on flash for their reclaim.
ghost use Rattle.std.specs.Prelude.{◌≡◌, ◌<◌, ◌==◌, nat_eq, length, position, true};
ghost use Rattle.std.specs.List.{IsDistinct};
ghost use Rattle.hc_engines.specs.large.Numbers.{is_in, minus};
ghost use Rattle.hc_engines.specs.large.Region.{region_at, is_draining, is_sealed, Sealed};
ghost use Rattle.hc_engines.specs.large.Steps.{first_ready as first_ready_seen, oldest as oldest_seen};
ghost use Rattle.hc_region.specs.Numbers.{AllThere};

use crate::region::Region;
use std::alloc::Allocator;
use std::collections::VecDeque;

fn is_early_at<A: Allocator + Clone + Copy>(regions: &[Region<A>], r: u32) -> bool
    requires { r < length regions.now }
    ensures { result ≡ (region_at r regions.now).early }
{
    regions[r as usize].is_early()
}

/// The first of these regions of which no page is out.
#[must_use]
pub fn first_ready<A: Allocator + Clone + Copy>(
    regions: &[Region<A>],
    sealed: &VecDeque<u32, A>,
) -> Option<u32>
    requires { AllThere (length regions.now) sealed.now.items }
    ensures { result ≡ first_ready_seen regions.now sealed.now.items }
{
    for r in sealed {
        if !is_early_at(regions, *r) {
            return Some(*r);
        }
    }
    None
}

fn drains_at<A: Allocator + Clone + Copy>(regions: &[Region<A>], r: u32) -> bool
    requires { r < length regions.now }
    ensures { result ≡ is_draining (region_at r regions.now).status }
{
    regions[r as usize].is_draining()
}

/// The first of these regions that doesn't drain yet.
#[must_use]
pub fn oldest<A: Allocator + Clone + Copy>(
    regions: &[Region<A>],
    flushed: &VecDeque<u32, A>,
) -> Option<u32>
    requires { AllThere (length regions.now) flushed.now.items }
    ensures { result ≡ oldest_seen regions.now flushed.now.items }
{
    for r in flushed {
        if !drains_at(regions, *r) {
            return Some(*r);
        }
    }
    None
}

/// Where a number stands first.
fn place_of<A: Allocator>(numbers: &VecDeque<u32, A>, r: u32) -> Option<usize>
    ensures { result ≡ position (λ number. number == r) numbers.now.items }
{
    numbers.iter().position(|number| *number == r)
}

/// A number is taken out where it stands. What stands in front of it is looked at, and nothing behind it.
pub fn take_out<A: Allocator>(numbers: &mut VecDeque<u32, A>, r: u32)
    requires { IsDistinct nat_eq numbers.old.items }
    ensures { numbers.new.items ≡ minus r numbers.old.items }
{
    if let Some(at) = place_of(numbers, r) {
        let _ = numbers.remove(at);
    }
}

fn is_sealed_at<A: Allocator + Clone + Copy>(regions: &[Region<A>], r: u32) -> bool
    requires { r < length regions.now }
    ensures { result ≡ is_sealed (region_at r regions.now).status }
{
    regions[r as usize].is_sealed()
}

/// A region that is sealed leaves those that wait for their flush.
pub fn take_sealed_out<A: Allocator + Clone + Copy>(
    regions: &[Region<A>],
    sealed: &mut VecDeque<u32, A>,
    r: u32,
)
    requires there { r < length regions.now }
    requires distinct { IsDistinct nat_eq sealed.old.items }
    requires listed { is_in r sealed.old.items ≡ true → (region_at r regions.now).status ≡ Sealed }
    ensures { sealed.new.items ≡ minus r sealed.old.items }
{
    if is_sealed_at(regions, r) {
        take_out(sealed, r);
    }
}
