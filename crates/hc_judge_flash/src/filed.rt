// Which kept hashes are filed, and how full the region is that was opened last.
ghost use Rattle.std.specs.Prelude.{◌≡◌, ℕ, List, [], ◌∷◌, if◌then◌else◌, Some, OnOk, IfOk};
ghost use Rattle.hc_types.specs.Loss.{cause_of};
ghost use Rattle.hc_history.specs.Note.{Note as Meaning, Unqueued, Opened};
ghost use Rattle.hc_history.specs.Lawful.{past};
ghost use Rattle.hc_history.specs.Regions as spec;
ghost use Rattle.hc_judge_device.specs.Limits.{IsLimited};
ghost use Rattle.hc_judge_flash.specs.Filed.{AreBooks};

use crate::filings::{Filing, file, unfile};
use crate::puts::{Put, is_put_of, put_from, put_told, put_under_way};
use crate::rooms::has_no_room;
use hc_history::{Note, Said};
use hc_judge_device::open_region;
use hc_types::{Cause, FlashConfig, Key, Scope, kept};
use std::alloc::{AllocError, Allocator, Global};

/// How many bytes the puts take in the region that was opened last, and which kept hashes are filed, the last one
/// first.
#[derive(Drop)]
pub struct RegionBooks<A: Allocator = Global> {
    pub filled: u64,
    pub filings: Vec<Filing, A>,
}

/// What is filed after these notes. Refused only when out of memory.
pub fn region_books<A: Allocator + Clone>(
    flash: &FlashConfig,
    notes: &[Note<A>],
    alloc: &A,
) -> Result<RegionBooks<A>, AllocError>
    requires { IsLimited flash.now }
    ensures { IfOk result (λ books. AreBooks flash.now (past [] notes.now) books.filled books.filings.items) }
{
    let mut books = RegionBooks {
        filled: 0,
        filings: Vec::new(alloc.clone()?),
    };
    for place in 0..notes.len() {
        file_note(flash, &mut books, &notes[..place], &notes[place], alloc)?;
    }
    Ok(books)
}

/// What a note more makes of them.
fn file_note<A: Allocator + Clone>(
    flash: &FlashConfig,
    books: &mut RegionBooks<A>,
    before: &[Note<A>],
    note: &Note<A>,
    alloc: &A,
) -> Result<(), AllocError>
    requires { IsLimited flash.now }
    ensures { OnOk result (AreBooks flash.now (past [] before.now) books.old.filled books.old.filings.items → AreBooks flash.now (note.now ∷ past [] before.now) books.new.filled books.new.filings.items) }
{
    match &note.said {
        Said::Unqueued { key } => file_put(flash, books, before, key, alloc),
        Said::Opened { region } => file_opening(flash, books, before, *region, alloc),
        Said::Lose {
            scope: Scope::Hash { kept, .. },
            cause,
        } => lose(flash, books, before, *kept, cause, alloc),
        _ => Ok(()),
    }
}

/// A key leaves the queue: its large put is filed where the open region has room for it.
fn file_put<A: Allocator + Clone>(
    flash: &FlashConfig,
    books: &mut RegionBooks<A>,
    before: &[Note<A>],
    key: &Key<A>,
    alloc: &A,
) -> Result<(), AllocError>
    requires { IsLimited flash.now }
    ensures filling { OnOk result (books.new.filled ≡ spec.grown flash.now (spec.open_region flash.now (past [] before.now)) (spec.put_from flash.now (past [] before.now) key.now) books.old.filled) }
    ensures filed { OnOk result (books.new.filings.items ≡ spec.filed_if flash.now (spec.open_region flash.now (past [] before.now)) books.old.filled (spec.put_from flash.now (past [] before.now) key.now) books.old.filings.items) }
{
    match put_from(flash, before, key, alloc)? {
        Some(put) => place(flash, books, open_region(flash, before), &put),
        None => Ok(()),
    }
}

/// Files the put under the open region, where that has room for it.
fn place<A: Allocator>(
    flash: &FlashConfig,
    books: &mut RegionBooks<A>,
    current: Option<u32>,
    put: &Put<'_, A>,
) -> Result<(), AllocError>
    requires { IsLimited flash.now }
    ensures filling { OnOk result (books.new.filled ≡ spec.grown flash.now current (Some put.now) books.old.filled) }
    ensures filed { OnOk result (books.new.filings.items ≡ spec.filed_if flash.now current books.old.filled (Some put.now) books.old.filings.items) }
{
    match current {
        Some(region) if !has_no_room(flash, current, books.filled, put.bytes) => {
            books.filled += put.bytes;
            file(&mut books.filings, kept(put.key, flash.bits), region)
        }
        _ => Ok(()),
    }
}

/// A region is opened: the put for which it is is filed there.
fn file_opening<A: Allocator + Clone>(
    flash: &FlashConfig,
    books: &mut RegionBooks<A>,
    before: &[Note<A>],
    region: u32,
    alloc: &A,
) -> Result<(), AllocError>
    requires { IsLimited flash.now }
    ensures filling { OnOk result (books.new.filled ≡ spec.put_bytes (spec.put_told flash.now (past [] before.now))) }
    ensures filed { OnOk result (books.new.filings.items ≡ spec.file_under flash.now (spec.put_told flash.now (past [] before.now)) (Some region) books.old.filings.items) }
{
    match put_told(flash, before, alloc)? {
        Some(put) => {
            books.filled = put.bytes;
            file(&mut books.filings, kept(put.key, flash.bits), region)
        }
        None => {
            books.filled = 0;
            Ok(())
        }
    }
}

/// A kept hash is lost: a put that collides keeps its own place.
fn lose<A: Allocator + Clone>(
    flash: &FlashConfig,
    books: &mut RegionBooks<A>,
    before: &[Note<A>],
    kept: u64,
    cause: &Cause<A>,
    alloc: &A,
) -> Result<(), AllocError>
    requires { IsLimited flash.now }
    ensures filling { OnOk result (books.new.filled ≡ books.old.filled) }
    ensures filed { OnOk result (books.new.filings.items ≡ spec.left_by (cause_of cause.now) kept (spec.put_under_way flash.now (past [] before.now)) books.old.filings.items) }
{
    let put = put_under_way(flash, before, alloc)?;
    if !keeps_place(cause, &put) {
        unfile(&mut books.filings, kept);
    }
    Ok(())
}

/// Whether the put that is under way is the one that collides.
fn keeps_place<A: Allocator>(cause: &Cause<A>, put: &Option<Put<'_, A>>) -> bool
    ensures { (kept : ℕ) (filings : List spec.Filing) → spec.left_by (cause_of cause.now) kept put.now filings ≡ (if result then filings else spec.unfiled kept filings) }
{
    match cause {
        Cause::Collision(by) => is_put_of(by, put),
        _ => false,
    }
}
