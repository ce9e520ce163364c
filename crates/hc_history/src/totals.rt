// Who counts what is told, and keeps none of it.
ghost use Rattle.std.specs.Prelude.{◌≡◌};
ghost use Rattle.hc_history.specs.Told.{Sums, left_to_count, no_counts};
ghost use Rattle.hc_history.specs.Losses.{no_losses, reason_in as reason_seen, total_lost};

use crate::losses::{Losses, Reason};
use crate::note::{Note, Said};
use crate::notes::{Listener, Notes};
use crate::stats::{Kind, Stats};
use std::alloc::{AllocError, Allocator};
use std::fmt;
use std::marker::Model;

/// Counts the notes, and the losses by what they came of. It keeps neither notes nor losses, and takes no memory. Where 64
/// bits can't count more, it refuses room as when out of memory.
#[derive(Drop)]
pub struct Totals {
    counts: Stats,
    losses: Losses,
}

impl Model for Totals {
    ghost use Rattle.hc_history.specs.Told.{Summed, AddUp};

    ghost Value = { Summed };

    ghost view = { λ t. record { counts = t.counts; losses = t.losses } };

    ghost invariant = { λ t. AddUp (record { counts = t.counts; losses = t.losses }) };
}

/// The reason of a note that tells a loss.
fn reason_in<A: Allocator>(note: &Note<A>) -> Option<Reason>
    ensures { result ≡ reason_seen note.now }
{
    match &note.said {
        Said::Lose { cause, .. } => Some(Reason::of(cause)),
        _ => None,
    }
}

impl Totals {
    /// The counts of an empty log.
    #[must_use]
    pub fn new() -> Totals
        ensures { result ≡ record { counts = no_counts; losses = no_losses } }
    {
        Totals {
            counts: Stats::default(),
            losses: Losses::default(),
        }
    }

    /// The counts of the log.
    #[must_use]
    pub fn counts(&self) -> Stats
        ensures { result ≡ self.now.counts }
    {
        self.counts
    }

    /// The losses of the log, by what they came of. They add up to those of the counts.
    pub fn losses(&self) -> Losses
        ensures losses { result ≡ self.now.losses }
        ensures sum { total_lost result ≡ self.now.counts.losses }
    {
        self.losses
    }
}

impl Default for Totals {
    fn default() -> Totals {
        Totals::new()
    }
}

impl fmt::Debug for Totals {
    fn fmt<W: fmt::Write>(&self, f: &mut fmt::Formatter<W>) -> fmt::Result {
        write!(f, "Totals({}, {})", self.counts, self.losses)
    }
}

impl Listener for Totals {
    ghost told = { λ t. Sums t.counts t.losses };

    ghost room = { λ t. left_to_count t.counts };

    fn keeps(&self) -> bool {
        false
    }

    fn keeps_losses(&self) -> bool {
        false
    }

    fn reserve(&mut self, n: usize) -> Result<(), AllocError> {
        if self.counts.can_count(n as u64) {
            Ok(())
        } else {
            Err(AllocError)
        }
    }

    fn count(&mut self, kind: Kind) {
        self.counts.count(kind);
        if let Kind::Lost(reason) = kind {
            self.losses.count(reason);
        }
    }
}

impl<A: Allocator> Notes<Note<A>> for Totals {
    #[inline(always)]
    fn note(&mut self, note: Note<A>) {
        let lost = reason_in(&note);
        self.counts.heard(&note);
        drop(note);
        if let Some(reason) = lost {
            self.losses.count(reason);
        }
    }
}
