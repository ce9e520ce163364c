// The end of a log.
ghost use Rattle.std.specs.Prelude.{◌≡◌, List, [], ◌∷◌, MatchOption};
ghost use Rattle.hc_history.specs.Lawful.{past};
ghost use Rattle.hc_history.specs.Stats.{is_loss};
ghost use Rattle.hc_judge_device.specs.Reading as spec;

use hc_history::{Note, Said};
use std::alloc::Allocator;

/// The last note, and the notes before it.
#[must_use]
pub fn last<A: Allocator>(notes: &[Note<A>]) -> Option<(&Note<A>, &[Note<A>])>
    ensures { MatchOption result (notes.now ≡ []) (λ found. past [] notes.now ≡ found.0.now ∷ past [] found.1.now) }
{
    if notes.is_empty() {
        return None;
    }
    let place = notes.len() - 1;
    Some((&notes[place], &notes[..place]))
}

/// The notes before the losses at the end.
#[must_use]
pub fn before_losses<A: Allocator>(notes: &[Note<A>]) -> &[Note<A>]
    ensures { past [] result.now ≡ spec.before_losses (past [] notes.now) }
{
    let mut end = 0;
    for place in 0..notes.len() {
        if !is_loss(&notes[place]) {
            end = place + 1;
        }
    }
    &notes[..end]
}

fn is_loss<A: Allocator>(note: &Note<A>) -> bool
    ensures { result ≡ is_loss note.now }
{
    matches!(&note.said, Said::Lose { .. })
}
