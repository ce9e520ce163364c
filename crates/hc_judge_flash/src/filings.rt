// Kept hashes, and the regions in which their entries are.
ghost use Rattle.std.specs.Prelude.{◌≡◌, ◌==◌, ◌&&◌, nat_lt, ◌∷◌, OnOk};
ghost use Rattle.hc_types.specs.Tally.{count};
ghost use Rattle.hc_types.specs.Places as places;
ghost use Rattle.hc_history.specs.Regions as spec;
ghost use Rattle.hc_history.specs.Regions.{Filing as Meaning, is_one_of};
ghost use Rattle.hc_judge_device.specs.Limits.{IsLimited};

use hc_judge_device::is_page_of;
use hc_types::FlashConfig;
use std::alloc::{AllocError, Allocator};
use std::marker::Model;

/// A kept hash, and the region in which its entry is.
#[derive(Debug, Drop)]
pub struct Filing {
    pub kept: u64,
    pub region: u32,
}

impl Model for Filing {
    ghost use Rattle.hc_history.specs.Regions.{Filing as Meaning};

    ghost Value = { Meaning };

    ghost view = { λ f. record { kept = f.kept; region = f.region } };
}

impl Filing {
    /// Whether the hash is this one.
    fn has_kept(&self, kept: u64) -> bool
        ensures { result ≡ (self.now.kept == kept) }
    {
        self.kept == kept
    }

    /// Whether the entry is in this region.
    fn is_in(&self, region: u32) -> bool
        ensures { result ≡ (self.now.region == region) }
    {
        self.region == region
    }

    /// Whether the hash is this one, and the entry in this region.
    fn is(&self, kept: u64, region: u32) -> bool
        ensures { result ≡ ((self.now.kept == kept) && (self.now.region == region)) }
    {
        self.kept == kept && self.region == region
    }

    /// Whether the hash is this one, and the page one of the region's.
    fn is_at(&self, flash: &FlashConfig, kept: u64, page: u32) -> bool
        requires { IsLimited flash.now }
        ensures { result ≡ ((self.now.kept == kept) && places.is_page_of flash.now self.now.region page) }
    {
        self.kept == kept && is_page_of(flash, self.region, page)
    }

    /// Whether the entry is in one of these regions.
    fn is_among(&self, regions: &[u32]) -> bool
        ensures { result ≡ is_one_of self.now.region regions.now }
    {
        regions.contains(&self.region)
    }
}

/// Files the hash under the region, in the place of what has it.
pub fn file<A: Allocator>(
    filings: &mut Vec<Filing, A>,
    kept: u64,
    region: u32,
) -> Result<(), AllocError>
    ensures { OnOk result (filings.new.items ≡ record { kept = kept; region = region } ∷ spec.unfiled kept filings.old.items) }
{
    unfile(filings, kept);
    filings.insert(0, Filing { kept, region })?;
    Ok(())
}

/// Takes out what has the hash.
pub fn unfile<A: Allocator>(filings: &mut Vec<Filing, A>, kept: u64)
    ensures { filings.new.items ≡ spec.unfiled kept filings.old.items }
{
    filings.retain(|filing| !filing.has_kept(kept));
}

/// Whether the hash is filed.
#[must_use]
pub fn is_filed(filings: &[Filing], kept: u64) -> bool
    ensures { result ≡ spec.is_filed kept filings.now }
{
    for filing in filings {
        if filing.has_kept(kept) {
            return true;
        }
    }
    false
}

/// Whether the hash is filed under this region.
#[must_use]
pub fn is_filed_under(filings: &[Filing], kept: u64, region: u32) -> bool
    ensures { result ≡ nat_lt 0 (count (λ (filing : Meaning). (filing.kept == kept) && (filing.region == region)) filings.now) }
{
    for filing in filings {
        if filing.is(kept, region) {
            return true;
        }
    }
    false
}

/// Whether the hash is filed under the region that the page is one of.
#[must_use]
pub fn is_filed_at(flash: &FlashConfig, filings: &[Filing], kept: u64, page: u32) -> bool
    requires { IsLimited flash.now }
    ensures { result ≡ nat_lt 0 (count (λ (filing : Meaning). (filing.kept == kept) && places.is_page_of flash.now filing.region page) filings.now) }
{
    for filing in filings {
        if filing.is_at(flash, kept, page) {
            return true;
        }
    }
    false
}

/// Whether nothing is filed under this region.
#[must_use]
pub fn is_empty(filings: &[Filing], region: u32) -> bool
    ensures { result ≡ (count (λ (filing : Meaning). filing.region == region) filings.now == 0) }
{
    for filing in filings {
        if filing.is_in(region) {
            return false;
        }
    }
    true
}

/// Whether nothing is filed under these regions.
#[must_use]
pub fn are_empty(filings: &[Filing], regions: &[u32]) -> bool
    ensures { result ≡ (count (λ (filing : Meaning). is_one_of filing.region regions.now) filings.now == 0) }
{
    for filing in filings {
        if filing.is_among(regions) {
            return false;
        }
    }
    true
}
