// How keys, entries, and what is forgotten, are shown.
ghost use Rattle.std.specs.Prelude.{◌≡◌};
ghost use Rattle.hc_types.specs.Losses.{why_text};

use crate::entry::Entry;
use crate::key::Key;
use crate::loss::{Cause, Scope, Why};
use std::alloc::Allocator;
use std::fmt;
use std::fmt::{Debug, Display};

/// Its bytes, where they are UTF-8. Else those that can't be seen in ASCII are escaped, as `\xff`.
impl<A: Allocator> Display for Key<A> {
    ghost use Rattle.hc_types.specs.Losses.{shown};

    ghost output = { λ key. shown key };

    fn fmt<W: fmt::Write>(&self, f: &mut fmt::Formatter<W>) -> fmt::Result {
        match str::from_utf8(self.as_slice()) {
            Ok(text) => f.write_str(text),
            Err(_) => Display::fmt(&self.as_slice().escape_ascii(), f),
        }
    }
}

/// As a literal of bytes, `b"user:7"`.
impl<A: Allocator> Debug for Key<A> {
    fn fmt<W: fmt::Write>(&self, f: &mut fmt::Formatter<W>) -> fmt::Result {
        write!(f, "b\"{}\"", self.as_slice().escape_ascii())
    }
}

/// Its value by its length.
impl<A: Allocator> Debug for Entry<A> {
    fn fmt<W: fmt::Write>(&self, f: &mut fmt::Formatter<W>) -> fmt::Result {
        write!(
            f,
            "Entry {{ key: {:?}, value: {} bytes, pool: {}, expiry: {} }}",
            self.key,
            self.value.len(),
            self.pool,
            self.expiry,
        )
    }
}

impl<A: Allocator> Display for Scope<A> {
    ghost use Rattle.hc_types.specs.Loss.{scope_of};
    ghost use Rattle.hc_types.specs.Losses.{scope_shown};

    ghost output = { λ scope. scope_shown (scope_of scope) };

    fn fmt<W: fmt::Write>(&self, f: &mut fmt::Formatter<W>) -> fmt::Result {
        match self {
            Scope::Key(key) => write!(f, "key {key}"),
            Scope::Bucket(bucket) => write!(f, "bucket {bucket}"),
            Scope::Hash { kept, but: None } => write!(f, "hash {kept}"),
            Scope::Hash {
                kept,
                but: Some(key),
            } => write!(f, "hash {kept} but {key}"),
        }
    }
}

impl Why {
    /// In the words of a trace's answers.
    #[must_use]
    pub fn text(self) -> &'static str
        ensures { result.now ≡ why_text self }
    {
        match self {
            Why::NoFlash => "evicted noflash",
            Why::Tombstone => "evicted tombstone",
            Why::NotAdmitted => "evicted notadmitted",
            Why::TooLarge => "evicted toolarge",
            Why::QueueFull => "evicted queuefull",
        }
    }
}

impl<A: Allocator> Display for Cause<A> {
    ghost use Rattle.std.specs.Prelude.{Some};
    ghost use Rattle.hc_types.specs.Loss.{cause_of};
    ghost use Rattle.hc_types.specs.Losses.{cause_text};

    ghost output = { λ cause. Some (cause_text (cause_of cause)) };

    fn fmt<W: fmt::Write>(&self, f: &mut fmt::Formatter<W>) -> fmt::Result {
        match self {
            Cause::Evicted { why, .. } => f.write_str(why.text()),
            Cause::BucketFull => f.write_str("bucketfull"),
            Cause::Reclaimed(region) => write!(f, "reclaimed {region}"),
            Cause::NoCleanRegion => f.write_str("nocleanregion"),
            Cause::Collision(_) => f.write_str("collision"),
            Cause::Expired => f.write_str("expired"),
            Cause::Fault => f.write_str("fault"),
        }
    }
}
