// Another owner of what an engine was asked.
ghost use Rattle.std.specs.Prelude.{◌≡◌, IfOk};
ghost use Rattle.hc_types.specs.FlashEntry.{entry_of};
ghost use Rattle.hc_engines.specs.Seen.{op_of};

use hc_engines::Op;
use hc_types::Entry;
use std::alloc::{AllocError, Allocator};

/// Another owner of the same entry.
fn copy_of<A: Allocator>(entry: &Entry<A>) -> Result<Entry<A>, AllocError>
    ensures { IfOk result (λ copy. entry_of copy ≡ entry_of entry.now) }
{
    Ok(Entry {
        key: entry.key.clone()?,
        value: entry.value.clone()?,
        pool: entry.pool,
        expiry: entry.expiry,
    })
}

/// Another owner of the same operation.
pub(crate) fn copy_of_op<A: Allocator>(op: &Op<A>) -> Result<Op<A>, AllocError>
    ensures { IfOk result (λ copy. op_of copy ≡ op_of op.now) }
{
    match op {
        Op::Put(entry) => Ok(Op::Put(copy_of(entry)?)),
        Op::Get(key) => Ok(Op::Get(key.clone()?)),
        Op::Delete(key) => Ok(Op::Delete(key.clone()?)),
        Op::Flush => Ok(Op::Flush),
        Op::Reclaim => Ok(Op::Reclaim),
    }
}
