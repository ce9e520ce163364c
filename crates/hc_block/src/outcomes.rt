// The outcomes of the large engine's operations.
ghost use Rattle.std.specs.Prelude.{◌≡◌, [], ◌∷◌, Some, IfOk};
ghost use Rattle.hc_types.specs.Loss.{Key as KeyScope, NoCleanRegion};
ghost use Rattle.hc_engines.specs.Engine.{Over, outcome_of, nothing as nothing_done};
ghost use Rattle.hc_engines.specs.large.Steps.{collided as collided_seen};
ghost use Rattle.hc_engines.specs.Seen.{answer_of};

use hc_engines::{Answer, Loss, Outcome};
use hc_region::Place;
use hc_types::{Cause, Key, Scope};
use std::alloc::{AllocError, Allocator};

/// Of an operation that had nothing to do, or isn't over yet.
pub(crate) fn nothing<A: Allocator>(alloc: A) -> Outcome<A>
    ensures { result ≡ nothing_done }
{
    Outcome::new(Answer::Nothing, Vec::new(alloc))
}

/// Of a put that is over, which opened this region or none.
pub(crate) fn stored<A: Allocator>(losses: Vec<Loss<A>, A>, opened: Option<u32>) -> Outcome<A>
    ensures { result ≡ record nothing_done { answer = Over; losses = losses.items; opened = opened } }
{
    Outcome {
        answer: Answer::Over,
        losses,
        opened,
        flushed: None,
        cleared: None,
        reclaimed: None,
    }
}

/// Of a region that ended, and is clean again or drains.
pub(crate) fn ended<A: Allocator>(losses: Vec<Loss<A>, A>, cleared: Option<u32>) -> Outcome<A>
    ensures { result ≡ record nothing_done { answer = Over; losses = losses.items; cleared = cleared } }
{
    Outcome {
        answer: Answer::Over,
        losses,
        opened: None,
        flushed: None,
        cleared,
        reclaimed: None,
    }
}

/// The same, of a region that was reclaimed.
pub(crate) fn reclaimed<A: Allocator>(mut outcome: Outcome<A>, r: u32) -> Outcome<A>
    ensures { result ≡ record outcome { reclaimed = Some r } }
{
    outcome.reclaimed = Some(r);
    outcome
}

/// Of a read that is over, whose region may be clean again.
pub(crate) fn read<A: Allocator>(
    answer: Answer<A>,
    losses: Vec<Loss<A>, A>,
    cleared: Option<u32>,
) -> Outcome<A>
    ensures { result ≡ record nothing_done { answer = answer_of answer; losses = losses.items; cleared = cleared } }
{
    Outcome {
        answer,
        losses,
        opened: None,
        flushed: None,
        cleared,
        reclaimed: None,
    }
}

/// Of a page that was written, the last of this region or of none.
pub(crate) fn settled<A: Allocator>(alloc: A, flushed: Option<u32>) -> Outcome<A>
    ensures { result ≡ record nothing_done { answer = Over; flushed = flushed } }
{
    Outcome {
        answer: Answer::Over,
        losses: Vec::new(alloc),
        opened: None,
        flushed,
        cleared: None,
        reclaimed: None,
    }
}

/// An index entry that is taken, of a hash that isn't known to be this key's.
pub(crate) fn collided<A: Allocator + Clone>(
    alloc: &A,
    hash: u64,
    key: &Key<A>,
    place: Option<Place>,
) -> Result<Vec<Loss<A>, A>, AllocError>
    ensures { IfOk result (λ losses. losses.items ≡ collided_seen hash key.now place) }
{
    let mut losses = Vec::new(alloc.clone()?);
    if place.is_some() {
        let scope = Scope::Hash {
            kept: hash,
            but: Some(key.clone()?),
        };
        losses.push(Loss::new(scope, Cause::Collision(key.clone()?)))?;
    }
    Ok(losses)
}

/// Of a put of this key that found no clean region.
pub(crate) fn no_clean_region<A: Allocator + Clone>(
    alloc: &A,
    key: &Key<A>,
) -> Result<Outcome<A>, AllocError>
    ensures { IfOk result (λ outcome. outcome ≡ record nothing_done { losses = record { scope = KeyScope key.now; cause = NoCleanRegion } ∷ [] }) }
{
    let mut losses = Vec::new(alloc.clone()?);
    losses.push(Loss::new(Scope::Key(key.clone()?), Cause::NoCleanRegion))?;
    Ok(Outcome::new(Answer::Nothing, losses))
}
