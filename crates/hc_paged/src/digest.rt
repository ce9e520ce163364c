// Digests of pages.
ghost use Rattle.std.specs.Prelude.{◌≡◌, ◌<◌, ◌^◌, ℕ, List};
ghost use Rattle.std.specs.declared.hash.DefaultHasher.{DefaultHasher as State};
ghost use Rattle.std.specs.Hash.DefaultHasher.{write_word};
ghost use Rattle.hc_paged.specs.Digests.{IsState};

use std::hash::{DefaultHasher, Hasher};

/// A number by which one page is told from another. It is never 0, which stands for a page of which nothing is known.
pub trait Digest: Drop {
    /// The digest of these bytes.
    ghost of: { List ℕ → ℕ };

    /// The digest of these bytes.
    #[must_use]
    fn digest(&self, bytes: &[u8]) -> u64
        ensures of { result ≡ of bytes.now }
        ensures some { 0 < result };
}

/// No digest at all: each page has the number 1, so that nothing is told but whether it was written.
#[derive(Clone, Copy, Debug, Default)]
pub struct Undigested;

impl Digest for Undigested {
    ghost of = { λ bytes. 1 };

    fn digest(&self, _bytes: &[u8]) -> u64 {
        1
    }
}

/// SipHash-1-3 (Aumasson and Bernstein, 2012) with both keys 0, of all bytes, as Rust's `DefaultHasher` has it; where it is 0, the
/// digest is 1. It finds what a fault made. It has no secret, so that who chooses what is written, and when the device fails,
/// can look for two pages with one digest.
#[derive(Clone, Copy, Debug, Default)]
pub struct SipHash;

impl Digest for SipHash {
    ghost use Rattle.hc_paged.specs.Digests.{sip_hash};

    ghost of = { sip_hash };

    fn digest(&self, bytes: &[u8]) -> u64 {
        let mut hasher = DefaultHasher::new();
        hasher.write(bytes);
        hasher.finish().max(1)
    }
}

/// States of SipHash that differ before a word of eight bytes differ behind it, whatever the word is. So no word makes the
/// digest blind for what stands before it.
pub fn states_stay_apart()
    ensures { (s : State) (t : State) (word : ℕ) → IsState s → IsState t → word < 2 ^ 64 → write_word s word ≡ write_word t word → s ≡ t }
{}
