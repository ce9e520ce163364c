// The clock after the notes so far.
ghost use Rattle.std.specs.Prelude.{◌≡◌, [], ◌∷◌, List};
ghost use Rattle.hc_history.specs.Note.{Note as Meaning};
ghost use Rattle.hc_history.specs.Books as books;
ghost use Rattle.hc_history.specs.Lawful.{past};

use hc_history::{Note, Said};
use std::alloc::Allocator;

/// The moment that the clock shows after these notes, in seconds: 0 before it moved.
#[must_use]
pub fn now_at<A: Allocator>(notes: &[Note<A>]) -> u64
    ensures { result ≡ books.now_at (past [] notes.now) }
{
    let mut moment = 0;
    for note in notes {
        moment = moment_after(note, moment);
    }
    moment
}

fn moment_after<A: Allocator>(note: &Note<A>, was: u64) -> u64
    ensures { (older : List Meaning) → was ≡ books.now_at older → result ≡ books.now_at (note.now ∷ older) }
{
    match &note.said {
        Said::Now { moment } => *moment,
        _ => was,
    }
}
