// What is in the box that C holds.
ghost use Rattle.std.specs.Prelude.{◌≡◌};

use hc_core::{Core, Totals};
use hc_leased::Leased;

/// A cache with leases, whose log is counted, and its losses by their reasons.
pub struct Cache {
    pub leased: Leased<Core<Totals>>,
}

impl Cache {
    /// The cache with leases.
    pub fn into_leased(self) -> Leased<Core<Totals>>
        ensures { result ≡ self.leased }
    {
        let Cache { leased } = self;
        leased
    }
}

impl Drop for Cache {
    fn drop(self) {
        let Cache { leased: _ } = self;
    }
}
