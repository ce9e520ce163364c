// What a read comes to: the entry at its place, where the place is still the key's, and is an entry.
ghost use Rattle.std.specs.Prelude.{◌≡◌, ◌≤◌, ◌++◌, ◌%◌, length, take, drop, min, option_map, OnOk, IfOk};
ghost use Rattle.std.specs.List.{concat};
ghost use Rattle.hc_types.specs.FlashEntry.{entry_of};
ghost use Rattle.hc_types.specs.Places.{kept_of};
ghost use Rattle.hc_engines.specs.large.Index.{place_at, is_place};
ghost use Rattle.hc_engines.specs.large.Entries.{entry_in as entry_in_seen};
ghost use Rattle.hc_engines.specs.large.Steps.{own_entry as own_entry_seen};
ghost use Rattle.hc_engines.specs.Seen.{answer_of};
ghost use Rattle.hc_block.specs.Reads.{came_in as came_in_seen, came_by, came_failed as came_failed_seen, answer_at, losses_at};

use crate::index::Index;
use crate::reading::Reading;
use bytes::Bytes;
use hc_engines::{Answer, Loss};
use hc_region::entry_in;
use hc_types::{Cause, Entry, FlashConfig, Key, Scope, kept};
use std::alloc::{AllocError, Allocator};

/// The smaller number.
fn at_most(most: usize, n: usize) -> usize
    ensures { result ≡ min most n }
{
    if most < n { most } else { n }
}

/// These pages come behind the bytes, one after the other.
fn push_pages<A: Allocator>(bytes: &mut Vec<u8, A>, pages: &[Bytes<A>]) -> Result<(), AllocError>
    ensures { OnOk result (bytes.new.items ≡ bytes.old.items ++ concat pages.now) }
{
    for page in pages {
        bytes.extend_from_slice(page.as_slice())?;
    }
    Ok(())
}

/// So many bytes from this one on.
fn cut<A: Allocator>(mut bytes: Bytes<A>, from: usize, len: usize) -> Bytes<A>
    requires { from ≤ length bytes }
    ensures { result ≡ take len (drop from bytes) }
{
    bytes.advance(from);
    bytes.truncate(len);
    bytes
}

/// So many bytes from this one on, of pages that were read, of the last page, and of the rest. Each is copied once.
fn put_together<A: Allocator + Clone + Copy>(
    alloc: A,
    got: &[Bytes<A>],
    page: &[u8],
    rest: &[u8],
    from: usize,
    len: usize,
) -> Result<Bytes<A>, AllocError>
    ensures { IfOk result (λ bytes. bytes ≡ take len (drop from (concat got.now ++ page.now) ++ rest.now)) }
{
    let room = from.saturating_add(len).saturating_add(page.len());
    let mut bytes = Vec::with_capacity(alloc, room)?;
    push_pages(&mut bytes, got)?;
    bytes.extend_from_slice(page)?;
    let from = at_most(from, bytes.len());
    bytes.extend_from_slice(rest)?;
    let bytes = Bytes::from_vec(bytes)?;
    Ok(cut(bytes, from, len))
}

/// The same bytes, which share the last page where they lie in it alone.
fn last_bytes<A: Allocator + Clone + Copy>(
    alloc: A,
    got: &[Bytes<A>],
    page: &Bytes<A>,
    rest: &[u8],
    from: usize,
    len: usize,
) -> Result<Bytes<A>, AllocError>
    ensures { IfOk result (λ bytes. bytes ≡ take len (drop from (concat got.now ++ page.now) ++ rest.now)) }
{
    if got.is_empty() && rest.is_empty() && from <= page.len() {
        let bytes = page.clone()?;
        Ok(cut(bytes, from, len))
    } else {
        put_together(alloc, got, page.as_slice(), rest, from, len)
    }
}

/// So many bytes of a read that needs no page, from its rest, which isn't copied.
fn own_bytes<A: Allocator + Clone + Copy>(
    alloc: A,
    got: &[Bytes<A>],
    rest: Vec<u8, A>,
    from: usize,
    len: usize,
) -> Result<Bytes<A>, AllocError>
    ensures { IfOk result (λ bytes. bytes ≡ take len (drop from (concat got.now) ++ rest.items)) }
{
    if !got.is_empty() {
        return put_together(alloc, got, &[], &rest, from, len);
    }
    let mut bytes = rest;
    bytes.truncate(len);
    let bytes = Bytes::from_vec(bytes)?;
    Ok(bytes)
}

/// The entry, where it is the key's.
fn own_entry<A: Allocator + Copy>(
    alloc: A,
    key: &Key<A>,
    entry: Entry<A>,
) -> Result<Answer<A>, AllocError>
    ensures { IfOk result (λ answer. answer_of answer ≡ own_entry_seen key.now (entry_of entry)) }
{
    if entry.key == *key {
        Ok(Answer::Found(Box::new(alloc, entry)?))
    } else {
        Ok(Answer::Absent)
    }
}

/// What these bytes answer a get of the key, where they are an entry.
fn came_in<A: Allocator + Copy>(
    alloc: A,
    key: &Key<A>,
    bytes: Bytes<A>,
) -> Result<Option<Answer<A>>, AllocError>
    ensures { IfOk result (λ came. option_map answer_of came ≡ came_in_seen key.now (entry_in_seen bytes)) }
{
    match entry_in(bytes) {
        Ok(Some(entry)) => {
            let answer = own_entry(alloc, key, entry)?;
            Ok(Some(answer))
        }
        Ok(None) => Ok(None),
        Err(error) => Err(error),
    }
}

impl<A: Allocator + Clone + Copy> Reading<A> {
    /// The entry's first byte in the first page that it touches.
    fn from(&self, flash: &FlashConfig) -> usize
        requires { 512 ≤ flash.now.page }
        ensures { result ≡ self.now.place.offset % flash.now.page }
    {
        (u64::from(self.place.offset()) % flash.page) as usize
    }

    /// Whether the key's hash still leads to the place that is read.
    fn is_current(&self, index: &Index<A>, flash: &FlashConfig) -> bool
        requires { flash.now.bits ≤ 64 }
        ensures { result ≡ is_place (place_at (kept_of flash.now.bits self.now.key) index.now) self.now.place }
    {
        index.leads_to(kept(&self.key, flash.bits), self.place)
    }

    /// What it came to at once, where no page is to be read.
    pub(crate) fn came(
        self,
        alloc: A,
        index: &Index<A>,
        flash: &FlashConfig,
    ) -> Result<Option<Answer<A>>, AllocError>
        requires page { 512 ≤ flash.now.page }
        requires bits { flash.now.bits ≤ 64 }
        ensures { IfOk result (λ came. option_map answer_of came ≡ came_by flash.now self.key self.place self.got self.rest index.now) }
    {
        if !self.is_current(index, flash) {
            return Ok(Some(Answer::Absent));
        }
        let from = self.from(flash);
        let len = self.place.len() as usize;
        let Reading { key, got, rest, .. } = self;
        let bytes = own_bytes(alloc, &got, rest, from, len)?;
        came_in(alloc, &key, bytes)
    }

    /// What it came to with its last page.
    pub(crate) fn came_with(
        &self,
        alloc: A,
        index: &Index<A>,
        flash: &FlashConfig,
        page: &Bytes<A>,
    ) -> Result<Option<Answer<A>>, AllocError>
        requires page { 512 ≤ flash.now.page }
        requires bits { flash.now.bits ≤ 64 }
        ensures { IfOk result (λ came. option_map answer_of came ≡ came_by flash.now self.now.key self.now.place (self.now.got ++ page.now) self.now.rest index.now) }
    {
        if !self.is_current(index, flash) {
            return Ok(Some(Answer::Absent));
        }
        let from = self.from(flash);
        let len = self.place.len() as usize;
        let bytes = last_bytes(alloc, &self.got, page, &self.rest, from, len)?;
        came_in(alloc, &self.key, bytes)
    }

    /// What it came to where a page wasn't read.
    pub(crate) fn came_failed(&self, index: &Index<A>, flash: &FlashConfig) -> Option<Answer<A>>
        requires bits { flash.now.bits ≤ 64 }
        ensures { option_map answer_of result ≡ came_failed_seen flash.now self.now.key self.now.place index.now }
    {
        if self.is_current(index, flash) {
            None
        } else {
            Some(Answer::Absent)
        }
    }
}

/// What is lost where a read came to no entry.
pub(crate) fn losses_of<A: Allocator + Clone + Copy>(
    alloc: A,
    hash: u64,
    came: &Option<Answer<A>>,
) -> Result<Vec<Loss<A>, A>, AllocError>
    ensures { IfOk result (λ losses. losses.items ≡ losses_at (option_map answer_of came.now) hash) }
{
    let mut losses = Vec::new(alloc);
    if came.is_none() {
        let scope = Scope::Hash {
            kept: hash,
            but: None,
        };
        losses.push(Loss::new(scope, Cause::Fault))?;
    }
    Ok(losses)
}

/// The answer of a read.
pub(crate) fn answer_of_read<A: Allocator>(came: Option<Answer<A>>) -> Answer<A>
    ensures { answer_of result ≡ answer_at (option_map answer_of came) }
{
    match came {
        Some(answer) => answer,
        None => Answer::Absent,
    }
}
