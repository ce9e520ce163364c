// The first read that a device answered with a lie.
ghost use Rattle.std.specs.Prelude.{◌≡◌, [], ◌∷◌, List, IfOk, OnOk};
ghost use Rattle.std.specs.Ordering.{nat_cmp};
ghost use Rattle.std.specs.BTreeMap.{get};
ghost use Rattle.hc_history.specs.Note.{Note as Meaning};
ghost use Rattle.hc_history.specs.Lawful.{past};
ghost use Rattle.hc_history.specs.Pages.{bytes_at};
ghost use Rattle.hc_judge_memory.specs.Lies as spec;

use bytes::Bytes;
use hc_history::{Note, Said};
use std::alloc::{AllocError, Allocator, Global};
use std::collections::BTreeMap;
use std::marker::Model;

/// What a page was last written with.
#[derive(Drop)]
struct Known<'a, A: Allocator = Global> {
    bytes: &'a Bytes<A>,
}

impl<'a, A: Allocator> Model for Known<'a, A> {
    ghost use Rattle.std.specs.Prelude.{List, ℕ};

    ghost Value = { List ℕ };

    ghost view = { λ known. known.bytes.now };
}

/// The place, counted from 0, of the first read that succeeded and has other bytes than were last written to its page.
/// Nothing said of a page that was never written, or whose last write failed, is a lie. It is found without memory, by all
/// notes before each read, in time that grows with the square of the log: `first_lie_in` is quicker.
#[must_use]
pub fn first_lie<A: Allocator>(log: &[Note<A>]) -> Option<usize>
    ensures { spec.IsFirstLie [] log.now result }
{
    for place in 0..log.len() {
        if is_lie(&log[..place], &log[place]) {
            return Some(place);
        }
    }
    None
}

/// The same as `first_lie`, by one walk over the log, which keeps in an ordered map, in the allocator's memory, what each page
/// was last written with. Where there is no memory for that, it is found as `first_lie` finds it.
#[must_use]
pub fn first_lie_in<A: Allocator + Clone>(log: &[Note<A>], alloc: &A) -> Option<usize>
    ensures { spec.IsFirstLie [] log.now result }
{
    match first_in_one_walk(log, alloc) {
        Ok(lie) => lie,
        Err(_) => first_lie(log),
    }
}

/// The first lie, by one walk. Refused only when out of memory.
fn first_in_one_walk<A: Allocator + Clone>(
    log: &[Note<A>],
    alloc: &A,
) -> Result<Option<usize>, AllocError>
    ensures { IfOk result (λ lie. spec.IsFirstLie [] log.now lie) }
{
    let mut pages = BTreeMap::new(alloc.clone()?);
    for place in 0..log.len() {
        let note = &log[place];
        if is_lie_of(&pages, note) {
            return Ok(Some(place));
        }
        keep_page(&mut pages, note)?;
    }
    Ok(None)
}

/// Whether this note reads other bytes than its page was last written with.
fn is_lie_of<'a, A: Allocator>(pages: &BTreeMap<u32, Known<'a, A>, A>, note: &Note<A>) -> bool
    ensures { (older : List Meaning) → spec.AreKnown (get nat_cmp pages.now) older → result ≡ spec.is_lie older note.now }
{
    let Said::Read {
        page,
        result: Some(bytes),
    } = &note.said
    else {
        return false;
    };
    match pages.get(page) {
        Some(known) => bytes != known.bytes,
        None => false,
    }
}

/// Keeps what the note writes. Refused only when out of memory.
fn keep_page<'a, A: Allocator + Clone>(
    pages: &mut BTreeMap<u32, Known<'a, A>, A>,
    note: &'a Note<A>,
) -> Result<(), AllocError>
    ensures { OnOk result ((older : List Meaning) → spec.AreKnown (get nat_cmp pages.old) older → spec.AreKnown (get nat_cmp pages.new) (note.now ∷ older)) }
{
    let Said::Wrote {
        page,
        bytes,
        is_written,
    } = &note.said
    else {
        return Ok(());
    };
    if !*is_written {
        let _ = pages.remove(page);
        return Ok(());
    }
    match pages.insert(*page, Known { bytes }) {
        Ok(_) => Ok(()),
        Err(_) => Err(AllocError),
    }
}

/// Whether this note reads other bytes than the notes before it left on its page.
fn is_lie<A: Allocator>(before: &[Note<A>], note: &Note<A>) -> bool
    ensures { result ≡ spec.is_lie (past [] before.now) note.now }
{
    match &note.said {
        Said::Read {
            page,
            result: Some(bytes),
        } => differs(before, *page, bytes),
        _ => false,
    }
}

/// Whether the notes left other bytes than these on the page.
fn differs<A: Allocator>(notes: &[Note<A>], page: u32, bytes: &Bytes<A>) -> bool
    ensures { result ≡ spec.differs (bytes_at (past [] notes.now) page) bytes.now }
{
    let mut lie = false;
    for note in notes {
        lie = differs_after(note, page, bytes, lie);
    }
    lie
}

/// The same after this note.
fn differs_after<A: Allocator>(note: &Note<A>, page: u32, bytes: &Bytes<A>, was: bool) -> bool
    ensures { (older : List Meaning) → was ≡ spec.differs (bytes_at older page) bytes.now → result ≡ spec.differs (bytes_at (note.now ∷ older) page) bytes.now }
{
    match &note.said {
        Said::Wrote {
            page: other,
            bytes: known,
            is_written,
        } if *other == page => *is_written && bytes != known,
        _ => was,
    }
}
