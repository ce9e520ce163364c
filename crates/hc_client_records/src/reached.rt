// Whether the clock of a log came to each moment to which a client moved it.
ghost use Rattle.std.specs.Prelude.{◌≡◌, [], ◌∷◌, List, map, nat_le};
ghost use Rattle.std.specs.List.{list_all};
ghost use Rattle.hc_history.specs.Note.{Note as Meaning};
ghost use Rattle.hc_history.specs.Books as books;
ghost use Rattle.hc_history.specs.Lawful.{past};
ghost use Rattle.hc_client_records.specs.Judge as judge;

use crate::record::Recorded;
use hc_history::{Note, Said};

/// Whether the clock came to each moment to which a client moved it.
pub(crate) fn are_reached<T: Recorded>(log: &[Note], records: &[T]) -> bool
    ensures { result ≡ list_all (judge.is_reached (books.now_at (past [] log.now))) (map T.recorded records.now) }
{
    let now = now_at(log);
    for who in records {
        if !is_reached(who.record().ticks.as_slice(), now) {
            return false;
        }
    }
    true
}

fn is_reached(ticks: &[u64], now: u64) -> bool
    ensures { result ≡ list_all (λ tick. nat_le tick now) ticks.now }
{
    for tick in ticks {
        if *tick > now {
            return false;
        }
    }
    true
}

/// The moment that the clock shows after these notes, in seconds: 0 before it moved.
fn now_at(notes: &[Note]) -> u64
    ensures { result ≡ books.now_at (past [] notes.now) }
{
    let mut moment = 0;
    for note in notes {
        moment = moment_after(note, moment);
    }
    moment
}

fn moment_after(note: &Note, was: u64) -> u64
    ensures { (older : List Meaning) → was ≡ books.now_at older → result ≡ books.now_at (note.now ∷ older) }
{
    match &note.said {
        Said::Now { moment } => *moment,
        _ => was,
    }
}
