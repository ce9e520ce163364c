// Configurations that are the same.
ghost use Rattle.std.specs.Prelude.{◌≡◌};
ghost use Rattle.std.specs.Bool.{Decides};

use hc_types::Config;
use std::alloc::Allocator;

/// Whether two configurations are the same.
#[must_use]
pub fn is_same<A: Allocator>(a: &Config<A>, b: &Config<A>) -> bool
    ensures { Decides result (a.now ≡ b.now) }
{
    a.flash == b.flash && a.pools == b.pools
}
