// What was lost before a get went on stands in front of what it loses then.
ghost use Rattle.std.specs.Prelude.{◌≡◌, ◌+◌, ◌≤◌, length, vec_len, vec_capacity};
ghost use Rattle.hc_engines.specs.pair.Pair.{after_losses};
ghost use Rattle.hc_engines.specs.Next.{next_seen};
ghost use Rattle.hc_pair.specs.Joined.{after, losses_of};

use hc_engines::{Loss, Next, Outcome};
use std::alloc::Allocator;

/// These losses, and then the outcome's. There is room for them.
pub(crate) fn in_front<A: Allocator>(before: Vec<Loss<A>, A>, outcome: Outcome<A>) -> Outcome<A>
    requires { vec_len before + length outcome.losses ≤ vec_capacity before }
    ensures { result ≡ after_losses before.items outcome }
{
    let mut losses = before;
    let mut outcome = outcome;
    let _ = losses.append(&mut outcome.losses);
    outcome.losses = losses;
    outcome
}

/// What comes next, with these losses in front. There is room for them.
pub(crate) fn behind<A: Allocator>(before: Vec<Loss<A>, A>, next: Next<A>) -> Next<A>
    requires { vec_len before + length (losses_of (next_seen next)) ≤ vec_capacity before }
    ensures { next_seen result ≡ after before.items (next_seen next) }
{
    match next {
        Next::Busy => Next::Busy,
        Next::Io(order, outcome) => Next::Io(order, in_front(before, outcome)),
        Next::Done(outcome) => Next::Done(in_front(before, outcome)),
    }
}
