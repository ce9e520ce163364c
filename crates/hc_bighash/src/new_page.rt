// A page that is to be written, and the word of its keys.
ghost use Rattle.std.specs.Prelude.{◌≡◌, ◌<◌, ◌^◌, ◌++◌, ◌∷◌, [], ℕ, List, length, IfOk};
ghost use Rattle.hc_types.specs.FlashEntry.{FlashEntry, entry_of};
ghost use Rattle.hc_bucket.specs.Page.{entries_bytes, page_bytes, used as used_by, IsSmall, Fits};
ghost use Rattle.hc_engines.specs.small.Bloom.{word_of};
ghost use Rattle.hc_engines.specs.small.Entries.{without};
ghost use Rattle.hc_bighash.specs.Paged.{entries_on};

use bytes::Bytes;
use hc_bucket::{Entries, begin_page, end_page, put_entry};
use hc_engines::SharedPage;
use hc_engines::bloom::bits_of;
use hc_types::{Entry, Key};
use std::alloc::{AllocError, Allocator, Global};
use std::marker::Model;

/// A page that is to be written, and the word of its keys. Contracts see its bytes.
#[derive(Drop)]
pub(crate) struct NewPage<A: Allocator = Global> {
    bytes: Bytes<A>,
    word: u64,
}

impl<A: Allocator> Model for NewPage<A> {
    ghost use Rattle.std.specs.Prelude.{List, ℕ};
    ghost use Rattle.hc_bighash.specs.Paged.{IsNewPage};

    ghost Value = { List ℕ };

    ghost view = { λ p. p.bytes };

    ghost invariant = { λ p. IsNewPage p.bytes p.word };
}

/// How many entries were put on a page, and the word of their keys.
#[derive(Clone, Copy)]
struct Kept {
    count: usize,
    word: u64,
}

/// The entries but that of this key are put behind those of a page.
fn put_others<A: Allocator + Clone>(
    page: &mut Vec<u8, A>,
    entries: Entries<'_>,
    key: &[u8],
) -> Result<Kept, AllocError>
    requires { used_by entries < 2 ^ 16 }
    ensures page { IfOk result (λ kept. page.new.items ≡ page.old.items ++ entries_bytes (without key.now entries.entry)) }
    ensures count { IfOk result (λ kept. kept.count ≡ length (without key.now entries.entry)) }
    ensures word { IfOk result (λ kept. kept.word ≡ word_of (without key.now entries.entry)) }
{
    let mut entries = entries;
    let mut count = 0;
    let mut word = 0;
    while let Some(first) = entries.take_first() {
        if first.key != key {
            page.extend_from_slice(first.bytes)?;
            count += 1;
            word |= bits_of(first.key);
        }
    }
    Ok(Kept { count, word })
}

impl<A: Allocator + Clone> NewPage<A> {
    /// The page of these bytes, whose keys have this word.
    fn new(bytes: Vec<u8, A>, word: u64) -> Result<NewPage<A>, AllocError>
        requires { (size : ℕ) × (es : List FlashEntry) × Fits size es × (bytes.items ≡ page_bytes size es) × (word ≡ word_of es) }
        ensures { IfOk result (λ page. page ≡ bytes.items) }
    {
        let bytes = Bytes::from_vec(bytes)?;
        Ok(NewPage { bytes, word })
    }

    /// The page with these entries, but that of the new entry's key, and the new one behind them.
    pub(crate) fn with(
        alloc: A,
        page_size: usize,
        entries: Entries<'_>,
        entry: &Entry<A>,
    ) -> Result<NewPage<A>, AllocError>
        requires used { used_by entries < 2 ^ 16 }
        requires small { IsSmall (entry_of entry.now) }
        requires fits { Fits page_size (without entry.now.key entries ++ entry_of entry.now ∷ []) }
        ensures { IfOk result (λ page. page ≡ page_bytes page_size (without entry.now.key entries.entry ++ entry_of entry.now ∷ [])) }
    {
        let key = entry.key.as_slice();
        let mut page = begin_page(alloc, page_size)?;
        let kept = put_others(&mut page, entries, key)?;
        put_entry(&mut page, entry)?;
        let word = kept.word | bits_of(key);
        let page = end_page(page, kept.count + 1, page_size)?;
        NewPage::new(page, word)
    }

    /// The page with these entries, but that of this key.
    pub(crate) fn without(
        alloc: A,
        page_size: usize,
        entries: Entries<'_>,
        key: &Key<A>,
    ) -> Result<NewPage<A>, AllocError>
        requires used { used_by entries < 2 ^ 16 }
        requires fits { Fits page_size (without key.now entries) }
        ensures { IfOk result (λ page. page ≡ page_bytes page_size (without key.now entries.entry)) }
    {
        let mut page = begin_page(alloc, page_size)?;
        let kept = put_others(&mut page, entries, key.as_slice())?;
        let page = end_page(page, kept.count, page_size)?;
        NewPage::new(page, kept.word)
    }
}

impl<A: Allocator> NewPage<A> {
    /// The bytes, which share their memory with the page.
    pub(crate) fn share(&self) -> Result<SharedPage<A>, AllocError>
        ensures shared { IfOk result (λ shared. shared ≡ self.now) }
        ensures spelled { self.now ≡ page_bytes (length self.now) (entries_on self.now) }
    {
        let bytes = self.bytes.clone()?;
        SharedPage::new(bytes)
    }

    /// The word of its keys.
    pub(crate) fn word(&self) -> u64
        ensures { result ≡ word_of (entries_on self.now) }
    {
        self.word
    }
}
