// What comes next, where only some notes stand before it.
ghost use Rattle.std.specs.Prelude.{◌≡◌, option_map};
ghost use Rattle.hc_history.specs.Seen.{reply_of};
ghost use Rattle.hc_history.specs.Lawful as lawful;

use hc_history::{Note, Reply, Said};
use std::alloc::Allocator;

/// The pool and the bytes of the next charge, where only evictions stand before it.
#[must_use]
pub fn next_charged<A: Allocator>(rest: &[Note<A>]) -> Option<(u8, u64)>
    ensures { result ≡ lawful.next_charged rest.now }
{
    for note in rest {
        match &note.said {
            Said::Charged { pool, bytes, .. } => return Some((*pool, *bytes)),
            Said::Freed { .. } | Said::Queued { .. } | Said::Lose { .. } => {}
            _ => return None,
        }
    }
    None
}

/// The call that is answered next, and its reply, where nothing begins and nothing is read before.
#[must_use]
pub fn next_answer<A: Allocator>(rest: &[Note<A>]) -> Option<(u64, &Reply<A>)>
    ensures { option_map (λ next. (next.0, reply_of next.1.now)) result ≡ lawful.next_answer rest.now }
{
    for note in rest {
        match &note.said {
            Said::Did { call, reply } => return Some((*call, reply)),
            Said::Begin { .. } | Said::Read { .. } => return None,
            _ => {}
        }
    }
    None
}
