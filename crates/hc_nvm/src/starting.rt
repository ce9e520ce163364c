// An operation is started: the half of a worker's call that may be refused.
ghost use Rattle.std.specs.Prelude.{◌≡◌, ◌≤◌, ◌<◌, ◌+◌, ◌^◌, List, length, false, OnOk, OnErr, IfOk, vec_len, vec_capacity};
ghost use Rattle.hc_engines.specs.pair.Below.{IsBelow};
ghost use Rattle.hc_engines.specs.pair.Pair.{start as start_step};
ghost use Rattle.hc_bighash.specs.Found.{losses_of};
ghost use Rattle.hc_engines.specs.Next.{next_seen};
ghost use Rattle.hc_engines.specs.Seen.{op_of};
ghost use Rattle.hc_pair.specs.Found.{is_reclaim};
ghost use Rattle.hc_pair.specs.Joined.{CanStart};
ghost use Rattle.hc_types.specs.declared.config.FlashConfig.{FlashConfig};
ghost use Rattle.hc_machine.specs.Nvm.{Task, Tombstone};
ghost use Rattle.hc_nvm.specs.After.{after};
ghost use Rattle.hc_nvm.specs.Fetching.{AreServed, Brings};
ghost use Rattle.hc_nvm.specs.Starting.{made_after};
ghost use Rattle.hc_nvm.specs.Stock.{AreNumbered};

use crate::jobs::Job;
use hc_engines::{Next, Op};
use hc_history::{Note, Notes};
use hc_pair::Pair;
use std::alloc::{AllocError, Allocator};

/// The most notes of an operation beside its losses and the tombstones that end with these: of the region that is opened,
/// the one that is on flash and the one that is clean again, and of the put or the tombstone that is over.
pub(crate) const NOTES_OF_AN_OPERATION: usize = 4;

/// The same of a put that is taken: that it waits no longer, and, where it is small, that it is being written.
pub(crate) const NOTES_OF_A_PUT: usize = 6;

/// The same of a result that is handed in: that it came, and one for what the fill that may end with it brings.
pub(crate) const NOTES_OF_A_RESULT: usize = 6;

/// So many notes in all. Refused, as if out of memory, where 64 bits can't count them.
pub(crate) fn in_all(losses: usize, stones: usize, others: usize) -> Result<usize, AllocError>
    ensures { IfOk result (λ n. n ≡ losses + (stones + others)) }
{
    let Some(told) = stones.checked_add(others) else {
        return Err(AllocError);
    };
    match losses.checked_add(told) {
        Some(n) => Ok(n),
        None => Err(AllocError),
    }
}

/// Room is made for one more job and for so many notes beside those of losses, and then an operation is started under the
/// next number. Refused only when out of memory or the numbers have run out; nothing changed then.
pub(crate) fn start_in<A: Allocator + Clone + Copy, N: Notes<Note<A>>>(
    pair: &mut Pair<A>,
    jobs: &mut Vec<Job<A>, A>,
    made: u64,
    op: &Op<A>,
    notes: &mut N,
    others: usize,
) -> Result<Next<A>, AllocError>
    requires below { IsBelow (made + 1) pair.old }
    requires can { CanStart pair.old.small.flash (op_of op.now) }
    requires tells { is_reclaim (op_of op.now) ≡ false }
    ensures number { OnOk result (made + 1 < 2 ^ 64) }
    ensures ok { IfOk result (λ next. start_step (made + 1) (op_of op.now) pair.old ≡ record { pair = pair.new; next = next_seen next }) }
    ensures below { IfOk result (λ next. IsBelow (made_after made (next_seen next) + 1) pair.new) }
    ensures flash { OnOk result (pair.new.small.flash ≡ pair.old.small.flash) }
    ensures served { IfOk result (λ next. (task : Task) (flash : FlashConfig) (stones : List Tombstone) → Brings task (op_of op.now) → AreNumbered 1 made jobs.old.items → AreServed pair.old jobs.old.items → AreServed pair.new (after flash task (next_seen next) stones jobs.old.items made).jobs) }
    ensures err { OnErr result (pair.new ≡ pair.old) }
    ensures jobs { jobs.new.items ≡ jobs.old.items }
    ensures job { OnOk result (vec_len jobs.new < vec_capacity jobs.new) }
    ensures told { N.told notes.new ≡ N.told notes.old }
    ensures room { IfOk result (λ next. length (losses_of (next_seen next)) + others ≤ N.room notes.new) }
    ensures kept { N.room notes.old ≤ N.room notes.new }
{
    if made == u64::MAX {
        return Err(AllocError);
    }
    jobs.reserve(1)?;
    let all = in_all(pair.most_losses_at_start(), others, 0)?;
    notes.reserve(all)?;
    pair.is_sound();
    let next = pair.start(made + 1, op)?;
    Ok(next)
}
