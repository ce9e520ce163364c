// Which regions are in use, and which are whole on flash.
ghost use Rattle.std.specs.Prelude.{◌≡◌, List, [], ◌∷◌, filter, not, ◌==◌, OnOk, IfOk};
ghost use Rattle.hc_history.specs.Note.{Note as Meaning};
ghost use Rattle.hc_history.specs.Lawful.{past};
ghost use Rattle.hc_history.specs.Regions as spec;
ghost use Rattle.hc_judge_device.specs.Limits.{IsLimited};

use crate::places::is_page_of;
use hc_history::{Note, Said};
use hc_types::FlashConfig;
use std::alloc::{AllocError, Allocator};

/// The regions that aren't clean, the one that was opened last first.
pub fn in_use<A: Allocator + Clone>(notes: &[Note<A>], alloc: &A) -> Result<Vec<u32, A>, AllocError>
    ensures { IfOk result (λ regions. regions.items ≡ spec.in_use (past [] notes.now)) }
{
    let mut regions = Vec::new(alloc.clone()?);
    for note in notes {
        use_next(&mut regions, note)?;
    }
    Ok(regions)
}

/// The same after this note.
fn use_next<A: Allocator>(regions: &mut Vec<u32, A>, note: &Note<A>) -> Result<(), AllocError>
    ensures { OnOk result ((older : List Meaning) → regions.old.items ≡ spec.in_use older → regions.new.items ≡ spec.in_use (note.now ∷ older)) }
{
    match &note.said {
        Said::Opened { region } => regions.insert(0, *region)?,
        Said::Cleared { region } => take_out(regions, *region),
        _ => {}
    }
    Ok(())
}

/// Takes the region out wherever it stands.
fn take_out<A: Allocator>(regions: &mut Vec<u32, A>, region: u32)
    ensures { regions.new.items ≡ filter (λ other. not (other == region)) regions.old.items }
{
    regions.retain(|other| *other != region);
}

/// The regions that are whole on flash, the last one first.
pub fn flushed<A: Allocator + Clone>(
    notes: &[Note<A>],
    alloc: &A,
) -> Result<Vec<u32, A>, AllocError>
    ensures { IfOk result (λ regions. regions.items ≡ spec.flushed (past [] notes.now)) }
{
    let mut regions = Vec::new(alloc.clone()?);
    for note in notes {
        flush_next(&mut regions, note)?;
    }
    Ok(regions)
}

/// The same after this note.
fn flush_next<A: Allocator>(regions: &mut Vec<u32, A>, note: &Note<A>) -> Result<(), AllocError>
    ensures { OnOk result ((older : List Meaning) → regions.old.items ≡ spec.flushed older → regions.new.items ≡ spec.flushed (note.now ∷ older)) }
{
    match &note.said {
        Said::Flushed { region } => regions.insert(0, *region)?,
        Said::Cleared { region } => take_out(regions, *region),
        _ => {}
    }
    Ok(())
}

/// Of regions in this order, those that come behind one.
#[must_use]
pub fn behind(region: u32, regions: &[u32]) -> &[u32]
    ensures { result.now ≡ spec.behind region regions.now }
{
    for place in 0..regions.len() {
        if regions[place] == region {
            return &regions[place + 1..];
        }
    }
    &regions[regions.len()..]
}

/// How many regions are clean.
pub fn clean_count<A: Allocator + Clone>(
    flash: &FlashConfig,
    notes: &[Note<A>],
    alloc: &A,
) -> Result<u64, AllocError>
    ensures { IfOk result (λ count. count ≡ spec.clean_count flash.now (past [] notes.now)) }
{
    let regions = in_use(notes, alloc)?;
    Ok(flash.regions.saturating_sub(regions.len() as u64))
}

/// The open region: the one that was opened last, unless a write of one of its pages failed since.
#[must_use]
pub fn open_region<A: Allocator>(flash: &FlashConfig, notes: &[Note<A>]) -> Option<u32>
    requires { IsLimited flash.now }
    ensures { result ≡ spec.open_region flash.now (past [] notes.now) }
{
    let mut region = None;
    for note in notes {
        region = open_next(flash, note, region);
    }
    region
}

/// The same after this note.
fn open_next<A: Allocator>(flash: &FlashConfig, note: &Note<A>, was: Option<u32>) -> Option<u32>
    requires { IsLimited flash.now }
    ensures { (older : List Meaning) → was ≡ spec.open_region flash.now older → result ≡ spec.open_region flash.now (note.now ∷ older) }
{
    match &note.said {
        Said::Opened { region } => Some(*region),
        Said::Wrote {
            page,
            is_written,
            ..
        } if !*is_written => unless_page_of(flash, *page, was),
        _ => was,
    }
}

/// The region, unless the page is one of its own.
fn unless_page_of(flash: &FlashConfig, page: u32, region: Option<u32>) -> Option<u32>
    requires { IsLimited flash.now }
    ensures { result ≡ spec.unless_page_of flash.now page region }
{
    match region {
        Some(number) if is_page_of(flash, number, page) => None,
        _ => region,
    }
}
