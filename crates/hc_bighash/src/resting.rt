// The engine at rest: what of it is kept where the cache is closed, and an engine of that.
ghost use Rattle.std.specs.Prelude.{◌≡◌, ◌==◌, ◌↔◌, [], None, length, IsOk, IfOk, IfErr};
ghost use Rattle.hc_types.specs.Limits.{flash_wrong};

use crate::big_hash::BigHash;
use hc_types::FlashConfig;
use std::alloc::Allocator;

impl<A: Allocator> BigHash<A> {
    /// Whether no job is under way: then the engine is at rest.
    #[must_use]
    pub fn is_idle(&self) -> bool
        ensures { result ≡ (length self.now.jobs == 0) }
    {
        self.jobs.len() == 0
    }

    /// All that is kept of an engine at rest: the word of each bucket, in order of the buckets, and none for a fresh one.
    /// Nothing is copied. There are as many as buckets, so that `from_words` takes them by the same configuration.
    #[must_use]
    pub fn into_words(self) -> Vec<Option<u64>, A>
        requires { length self.jobs ≡ 0 }
        ensures words { result.items ≡ self.words }
        ensures count { length result.items ≡ self.flash.buckets }
    {
        let BigHash {
            alloc: _,
            flash: _,
            words,
            jobs: _,
        } = self;
        words
    }
}

impl<A: Allocator + Copy> BigHash<A> {
    /// The engine at rest whose buckets have these words, by a configuration whose numbers are within their limits. It takes
    /// no memory. Where there are more or fewer words than buckets, it is refused, and gives them back.
    #[tactic(auto, using(hc_engines::proofs::small::Limited::limits_from))]
    pub fn from_words(
        alloc: A,
        flash: FlashConfig,
        words: Vec<Option<u64>, A>,
    ) -> Result<BigHash<A>, Vec<Option<u64>, A>>
        requires { flash_wrong flash ≡ None }
        ensures ok { IfOk result (λ b. b ≡ record { flash = flash; words = words.items; jobs = [] }) }
        ensures fits { IsOk result ↔ (length words.items ≡ flash.buckets) }
        ensures given_back { IfErr result (λ back. back ≡ words) }
    {
        if words.len() as u64 != flash.buckets {
            return Err(words);
        }
        let jobs = Vec::new(alloc);
        Ok(BigHash {
            alloc,
            flash,
            words,
            jobs,
        })
    }
}
