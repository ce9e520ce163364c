// The digests of a device's pages.
ghost use Rattle.std.specs.Prelude.{◌≡◌, ◌<◌, ℕ, Some, None};
ghost use Rattle.hc_paged.specs.Devices.{mark_at};

/// The digest of a page as it was last written, and 0 where nothing is known of it.
#[must_use]
pub fn known(digests: &[u64], page: u32) -> u64
    ensures none { result ≡ 0 → mark_at digests.now page ≡ None }
    ensures some { 0 < result → mark_at digests.now page ≡ Some result }
{
    match digests.get(page as usize) {
        Some(digest) => *digest,
        None => 0,
    }
}
