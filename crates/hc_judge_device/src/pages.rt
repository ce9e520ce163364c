// Pages, as they were last written or failed.
ghost use Rattle.std.specs.Prelude.{◌≡◌, List, [], ◌∷◌, false, is_some};
ghost use Rattle.hc_history.specs.Note.{Note as Meaning};
ghost use Rattle.hc_history.specs.Lawful.{past};
ghost use Rattle.hc_history.specs.Lawful as lawful;
ghost use Rattle.hc_history.specs.Pages.{bytes_at};
ghost use Rattle.hc_history.specs.Stats.{is_loss};

use crate::ends::{before_losses, last};
use hc_history::{Note, Said};
use std::alloc::Allocator;

/// Whether it is known what the page holds: its last write didn't fail.
#[must_use]
pub fn is_known<A: Allocator>(notes: &[Note<A>], page: u32) -> bool
    ensures { result ≡ is_some (bytes_at (past [] notes.now) page) }
{
    let mut known = false;
    for note in notes {
        known = known_next(note, page, known);
    }
    known
}

/// The same after this note.
fn known_next<A: Allocator>(note: &Note<A>, page: u32, was: bool) -> bool
    ensures { (older : List Meaning) → was ≡ is_some (bytes_at older page) → result ≡ is_some (bytes_at (note.now ∷ older) page) }
{
    match &note.said {
        Said::Wrote {
            page: number,
            is_written,
            ..
        } if *number == page => *is_written,
        _ => was,
    }
}

/// Whether the last note wrote this page.
#[must_use]
pub fn wrote_page<A: Allocator>(notes: &[Note<A>], page: u64) -> bool
    ensures { result ≡ lawful.wrote_page (past [] notes.now) page }
{
    match last(notes) {
        Some((note, _)) => wrote(note, page),
        None => false,
    }
}

fn wrote<A: Allocator>(note: &Note<A>, page: u64) -> bool
    ensures { (older : List Meaning) → result ≡ lawful.wrote_page (note.now ∷ older) page }
{
    match &note.said {
        Said::Wrote {
            page: number,
            is_written,
            ..
        } => *is_written && u64::from(*number) == page,
        _ => false,
    }
}

/// The page of the last note but losses, where that note is a failure.
#[must_use]
pub fn failed_page<A: Allocator>(notes: &[Note<A>]) -> Option<u32>
    ensures { result ≡ lawful.failed_page (past [] notes.now) }
{
    match last(before_losses(notes)) {
        Some((note, _)) => failed(note),
        None => None,
    }
}

/// The page that this note tells the failure of.
fn failed<A: Allocator>(note: &Note<A>) -> Option<u32>
    ensures { (older : List Meaning) → is_loss note.now ≡ false → result ≡ lawful.failed_page (note.now ∷ older) }
{
    match &note.said {
        Said::Read { page, result: None } => Some(*page),
        Said::Wrote {
            page,
            is_written,
            ..
        } if !*is_written => Some(*page),
        _ => None,
    }
}
