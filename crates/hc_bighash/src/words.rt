// The Bloom word of each bucket.
ghost use Rattle.std.specs.Prelude.{◌≡◌, ◌<◌, None, length, set, slice_index_or, if◌then◌else◌};

use std::alloc::Allocator;

/// The word of this bucket.
pub(crate) fn word_at(words: &[Option<u64>], bucket: u32) -> Option<u64>
    requires { bucket < length words.now }
    ensures { result ≡ slice_index_or words.now bucket None }
{
    words[bucket as usize]
}

/// The word of this bucket is this one from here on.
pub(crate) fn set_word<A: Allocator>(
    words: &mut Vec<Option<u64>, A>,
    bucket: u32,
    word: Option<u64>,
)
    requires { bucket < length words.old.items }
    ensures { words.new.items ≡ set words.old.items bucket word }
{
    words[bucket as usize] = word;
}

/// The bucket is fresh, where it was given up.
pub(crate) fn settle<A: Allocator>(words: &mut Vec<Option<u64>, A>, bucket: u32, gives_up: bool)
    requires { bucket < length words.old.items }
    ensures { words.new.items ≡ (if gives_up then set words.old.items bucket None else words.old.items) }
{
    if gives_up {
        set_word(words, bucket, None);
    }
}
