// How the engine is shown: its buckets by how many there are.
ghost use Rattle.std.specs.Prelude.{◌≡◌, length, filter, is_some};

use crate::big_hash::BigHash;
use std::alloc::Allocator;
use std::fmt;

/// How many buckets are written.
fn written(words: &[Option<u64>]) -> usize
    ensures { result ≡ length (filter is_some words.now) }
{
    words.iter().filter(|word| word.is_some()).count()
}

/// Its buckets, those of them that are written, and the operations that are under way, by how many there are.
impl<A: Allocator> fmt::Debug for BigHash<A> {
    fn fmt<W: fmt::Write>(&self, f: &mut fmt::Formatter<W>) -> fmt::Result {
        write!(
            f,
            "BigHash {{ buckets: {}, written: {}, jobs: {} }}",
            self.words.len(),
            written(&self.words),
            self.jobs.len(),
        )
    }
}
