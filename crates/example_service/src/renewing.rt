// What the service asks of the cache where a row was changed.
ghost use Rattle.std.specs.Prelude.{◌≡◌, ◌⊎◌, Some, IfOk, OnErr, IfErr};
ghost use Rattle.hc_types.specs.Limits.{key_refusal};
ghost use Rattle.hc_memory.specs.Memory.{linked_at};
ghost use Rattle.hc_machine.specs.Calls.{remove as remove_step, remove_reply};
ghost use Rattle.hc_state.specs.remove.Answer.{removed_reply};
ghost use Rattle.hc_core.specs.Answers.{removed_answer};
ghost use Rattle.hc_core.specs.Logged.{IsCall};

use hc_core::{Core, Counting, Refusal, Removed};

/// So often a delete is tried, at most.
const TRIES: u32 = 3;

/// Has the cache forget a key whose row was changed in the database. Until it has, the old row may still be served: so a
/// delete for which there is no memory is tried again.
pub fn forget(cache: &mut Core<Counting>, key: &[u8]) -> Result<Removed, Refusal>
    ensures ok { IfOk result (λ removed. IsCall (remove_step 0 key.now cache.old.cache) (removed_answer removed) cache.old cache.new) }
    ensures memory { IfOk result (λ removed. removed_reply removed ≡ remove_reply (linked_at key.now cache.old.cache.memory.pools)) }
    ensures err { OnErr result (cache.new ≡ cache.old) }
    ensures why { IfErr result (λ refusal. (key_refusal key.now ≡ Some refusal) ⊎ (refusal ≡ Refusal.NoMemory)) }
{
    for _ in 0..TRIES {
        match cache.delete(key) {
            Err(Refusal::NoMemory) => {}
            answer => return answer,
        }
    }
    Err(Refusal::NoMemory)
}
