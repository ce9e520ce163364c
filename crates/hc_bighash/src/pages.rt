// What an operation makes of the entries of its bucket's page.
ghost use Rattle.std.specs.Prelude.{◌≡◌, ◌+◌, ◌<◌, ◌≤◌, ◌^◌, [], ◌∷◌, List, ℕ, length, is_some, IfOk, OnOk};
ghost use Rattle.hc_types.specs.FlashEntry.{FlashEntry, entry_of};
ghost use Rattle.hc_bucket.specs.Page.{IsPage, IsSmall, Fits, entries_bytes, used as used_by};
ghost use Rattle.hc_bucket.specs.Placed.{entry_placed};
ghost use Rattle.hc_bucket.specs.Reading.{page_at};
ghost use Rattle.hc_engines.specs.Engine.{Put, Delete, found as answer_found};
ghost use Rattle.hc_engines.specs.small.Sound.{HasRoom, CanPut};
ghost use Rattle.hc_engines.specs.small.Entries.{under, without as entries_without, staying, put_losses, full_losses as losses_of, size_of};
ghost use Rattle.hc_engines.specs.small.BigHash.{was_read, read_as};
ghost use Rattle.hc_bighash.specs.Paged.{IsValueAt};
ghost use Rattle.hc_engines.specs.Seen.{op_of, answer_of};
ghost use Rattle.hc_bighash.specs.Steps.{plan_of, PlanFits};

use crate::new_page::NewPage;
use crate::plans::Plan;
use bytes::Bytes;
use hc_bucket::{Entries, Placed, entry_len};
use hc_engines::{Answer, Loss, Op};
use hc_types::{Cause, Entry, Key, Scope};
use std::alloc::{AllocError, Allocator};

/// The entry that ends at this byte of its page, with which it shares its value.
fn shared<A: Allocator>(
    page: &Bytes<A>,
    placed: &Placed<'_>,
    end: usize,
    key: &Key<A>,
) -> Result<Entry<A>, AllocError>
    requires value { IsValueAt page.now end placed.now.value.now }
    requires key { placed.now.key.now ≡ key.now }
    ensures { IfOk result (λ entry. entry_of entry ≡ entry_placed placed.now) }
{
    let value = page.slice(end - placed.value.len()..end)?;
    Ok(Entry {
        key: key.clone()?,
        value,
        pool: placed.pool,
        expiry: placed.expiry,
    })
}

/// What a get of this key answers.
fn found<A: Allocator + Copy>(
    alloc: A,
    page: &Bytes<A>,
    entries: Entries<'_>,
    key: &Key<A>,
) -> Result<Answer<A>, AllocError>
    requires { (size : ℕ) × IsPage size entries page.now }
    ensures { IfOk result (λ answer. answer_of answer ≡ answer_found (under key.now entries.entry)) }
{
    let mut entries = entries;
    let mut end = 4;
    while let Some(placed) = entries.take_first() {
        end += placed.bytes.len();
        if placed.key == key.as_slice() {
            let entry = shared(page, &placed, end, key)?;
            return Ok(Answer::Found(Box::new(alloc, entry)?));
        }
    }
    Ok(Answer::Absent)
}

/// Whether one of these entries is under this key.
fn has<A: Allocator>(entries: &Entries<'_>, key: &Key<A>) -> bool
    ensures { result ≡ is_some (under key.now entries.now) }
{
    let mut rest = entries.again();
    while let Some(placed) = rest.take_first() {
        if placed.key == key.as_slice() {
            return true;
        }
    }
    false
}

/// How many bytes of a page the entries use but that of this key.
fn used_but(entries: &Entries<'_>, key: &[u8]) -> usize
    requires { used_by entries.now < 2 ^ 16 }
    ensures { result ≡ used_by (entries_without key.now entries.now) }
{
    let mut rest = entries.again();
    let mut used = 4;
    while let Some(placed) = rest.take_first() {
        if placed.key != key {
            used += placed.bytes.len();
        }
    }
    used
}

/// What is lost with the entry of this key.
fn full_loss<A: Allocator + Clone>(alloc: A, key: &[u8]) -> Result<Loss<A>, AllocError>
    ensures { (e : FlashEntry) → e.key ≡ key.now → IfOk result (λ loss. loss ∷ [] ≡ losses_of (e ∷ [])) }
{
    match Key::new(alloc, key) {
        Ok(key) => Ok(Loss::new(Scope::Key(key), Cause::BucketFull)),
        Err(_) => Err(AllocError),
    }
}

/// The oldest of these entries go, but that of its key, until the new one has room behind the others. Answers what is
/// lost with them.
fn push_out<A: Allocator + Copy>(
    alloc: A,
    page_size: usize,
    entry: &Entry<A>,
    entries: &mut Entries<'_>,
) -> Result<Vec<Loss<A>, A>, AllocError>
    requires small { page_size < 2 ^ 16 }
    requires fits { used_by entries.old ≤ page_size }
    requires len { 4 + size_of (entry_of entry.now) ≤ page_size }
    ensures losses { IfOk result (λ losses. losses.items ≡ put_losses page_size (entry_of entry.now) entries.old) }
    ensures stay { OnOk result (entries_without entry.now.key entries.new ≡ staying page_size (entry_of entry.now) (entries_without entry.now.key entries.old)) }
    ensures used { OnOk result (used_by entries.new ≤ used_by entries.old) }
{
    let key = entry.key.as_slice();
    let len = entry_len(entry);
    let mut losses = Vec::new(alloc);
    let mut used = used_but(entries, key);
    while used + len > page_size {
        let Some(placed) = entries.take_first() else {
            return Ok(losses);
        };
        if placed.key != key {
            used -= placed.bytes.len();
            losses.push(full_loss(alloc, placed.key)?)?;
        }
    }
    Ok(losses)
}

/// What a put makes of its page's entries: the older one of the key goes, then the oldest until the new one, put last, fits.
fn put_plan<A: Allocator + Copy>(
    alloc: A,
    page_size: usize,
    entry: &Entry<A>,
    entries: Entries<'_>,
) -> Result<Plan<A>, AllocError>
    requires small { page_size < 2 ^ 16 }
    requires fits { Fits page_size entries }
    requires len { 4 + size_of (entry_of entry.now) ≤ page_size }
    requires entry { IsSmall (entry_of entry.now) }
    ensures plan { IfOk result (λ plan. plan_of plan ≡ was_read page_size (Put (entry_of entry.now)) entries.entry) }
    ensures fits { IfOk result (λ plan. PlanFits page_size plan) }
{
    let mut entries = entries;
    let losses = push_out(alloc, page_size, entry, &mut entries)?;
    let page = NewPage::with(alloc, page_size, entries, entry)?;
    Ok(Plan::Write { page, losses })
}

/// What a delete makes of its page's entries.
fn delete_plan<A: Allocator + Copy>(
    alloc: A,
    page_size: usize,
    key: &Key<A>,
    entries: Entries<'_>,
) -> Result<Plan<A>, AllocError>
    requires { Fits page_size entries }
    ensures plan { IfOk result (λ plan. plan_of plan ≡ was_read page_size (Delete key.now) entries.entry) }
    ensures fits { IfOk result (λ plan. PlanFits page_size plan) }
{
    if !has(&entries, key) {
        return Ok(Plan::End(Answer::Over));
    }
    let page = NewPage::without(alloc, page_size, entries, key)?;
    let losses = Vec::new(alloc);
    Ok(Plan::Write { page, losses })
}

/// What an operation makes of the entries of its page.
fn entries_plan<A: Allocator + Copy>(
    alloc: A,
    page_size: usize,
    op: &Op<A>,
    page: &Bytes<A>,
    entries: Entries<'_>,
) -> Result<Plan<A>, AllocError>
    requires small { page_size < 2 ^ 16 }
    requires page { IsPage page_size entries page.now }
    requires len { HasRoom page_size (op_of op.now) }
    requires put { CanPut (op_of op.now) }
    ensures plan { IfOk result (λ plan. plan_of plan ≡ was_read page_size (op_of op.now) entries.entry) }
    ensures fits { IfOk result (λ plan. PlanFits page_size plan) }
{
    match op {
        Op::Put(entry) => put_plan(alloc, page_size, entry, entries),
        Op::Get(key) => Ok(Plan::End(found(alloc, page, entries, key)?)),
        Op::Delete(key) => delete_plan(alloc, page_size, key, entries),
        Op::Flush => Ok(Plan::End(Answer::Nothing)),
        Op::Reclaim => Ok(Plan::End(Answer::Nothing)),
    }
}

/// What an operation makes of its bucket's page.
pub(crate) fn page_plan<A: Allocator + Copy>(
    alloc: A,
    page_size: usize,
    op: &Op<A>,
    page: &Bytes<A>,
) -> Result<Plan<A>, AllocError>
    requires small { page_size < 2 ^ 16 }
    requires len { HasRoom page_size (op_of op.now) }
    requires put { CanPut (op_of op.now) }
    ensures plan { IfOk result (λ plan. plan_of plan ≡ read_as page_size (op_of op.now) (page_at page_size page.now)) }
    ensures fits { IfOk result (λ plan. PlanFits page_size plan) }
{
    match Entries::of_page(page.as_slice(), page_size) {
        Some(entries) => entries_plan(alloc, page_size, op, page, entries),
        None => Ok(Plan::GiveUp),
    }
}
