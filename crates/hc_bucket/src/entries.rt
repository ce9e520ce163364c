// The entries of a page, read where they stand.
ghost use Rattle.std.specs.Prelude.{◌≡◌, ◌∷◌, [], length, IfSome, MatchOption};
ghost use Rattle.hc_bucket.specs.Page.{entry_bytes, entries_bytes, IsPage};
ghost use Rattle.hc_bucket.specs.Placed.{entry_placed};
ghost use Rattle.hc_bucket.specs.Reading.{whole_at, page_at};

use crate::checking::{is_whole, is_zero};
use crate::fields::{number_in, part_in};
use crate::placed::{Placed, placed_in};
use std::marker::Model;

/// The entries of a page that are still to be read, the oldest first. Nothing of them is copied: each is read where it
/// stands. Contracts see them as a list.
#[derive(Drop)]
pub struct Entries<'a> {
    count: u16,
    bytes: &'a [u8],
}

impl<'a> Model for Entries<'a> {
    ghost use Rattle.std.specs.Prelude.{List};
    ghost use Rattle.hc_types.specs.FlashEntry.{FlashEntry};
    ghost use Rattle.hc_bucket.specs.Whole.{all_at, IsWhole};

    ghost Value = { List FlashEntry };

    ghost view = { λ r. all_at r.count r.bytes.now };

    ghost invariant = { λ r. IsWhole r.count r.bytes.now };
}

impl<'a> Entries<'a> {
    /// The entries of this page, the oldest first, or none where these bytes are no page of this size: there are too few
    /// of them or too many, an entry is cut off or has no key, a key stands twice, or what isn't used isn't zero.
    #[must_use]
    pub fn of_page(page: &'a [u8], page_size: usize) -> Option<Entries<'a>>
        ensures read { result ≡ page_at page_size page.now }
        ensures page { IfSome result (λ entries. IsPage page_size entries page.now) }
    {
        Entries::read(page, page_size)
    }

    #[tactic(auto, unfolding(crate::specs::Reading::page_at, crate::specs::Reading::content_at, crate::specs::Reading::body_at))]
    fn read(page: &'a [u8], page_size: usize) -> Option<Entries<'a>>
        ensures { result ≡ page_at page_size page.now }
    {
        if page.len() != page_size {
            return None;
        }
        let Some((count, rest)) = number_in(page) else {
            return None;
        };
        let Some((used, rest)) = number_in(rest) else {
            return None;
        };
        if used < 4 {
            return None;
        }
        let Some((bytes, unused)) = part_in(rest, (used - 4) as usize) else {
            return None;
        };
        Entries::of_body(count, bytes, unused)
    }

    /// So many entries that are these bytes, in front of a rest that isn't used.
    fn of_body(count: u16, bytes: &'a [u8], unused: &[u8]) -> Option<Entries<'a>>
        ensures { result ≡ whole_at count bytes.now unused.now }
    {
        if is_zero(unused) && is_whole(count, bytes) {
            Some(Entries { count, bytes })
        } else {
            None
        }
    }

    /// The oldest entry is taken out; none where no entry is left.
    pub fn take_first(&mut self) -> Option<Placed<'a>>
        ensures first { MatchOption result ((self.old ≡ []) × (self.new ≡ [])) (λ placed. self.old ≡ entry_placed placed ∷ self.new) }
        ensures spelled { IfSome result (λ placed. placed.bytes.now ≡ entry_bytes (entry_placed placed)) }
    {
        if self.count == 0 {
            return None;
        }
        match placed_in(self.bytes) {
            Some((placed, behind)) => {
                self.count -= 1;
                self.bytes = behind;
                Some(placed)
            }
            None => unreachable!(),
        }
    }

    /// No entries.
    #[must_use]
    pub fn none() -> Entries<'a>
        ensures { result ≡ [] }
    {
        Entries {
            count: 0,
            bytes: &[],
        }
    }

    /// The same entries, read anew.
    #[must_use]
    pub fn again(&self) -> Entries<'a>
        ensures { result ≡ self.now }
    {
        Entries {
            count: self.count,
            bytes: self.bytes,
        }
    }

    /// How many bytes of the page they take.
    #[must_use]
    #[allow(clippy::len_without_is_empty)]
    pub fn len(&self) -> usize
        ensures { result ≡ length (entries_bytes self.now) }
    {
        self.bytes.len()
    }
}
