// Which pages of a device are a cache's.
ghost use Rattle.std.specs.Prelude.{◌≡◌, ◌+◌, ◌<◌, ◌≤◌, IfSome, IfNone};
ghost use Rattle.hc_run.specs.Shows.{whole};

use std::marker::Model;

/// The pages of a device that are a cache's own, one behind the other. The cache numbers them from 0.
#[derive(Clone, Copy, Debug)]
pub struct Window {
    first: u32,
    pages: u64,
}

impl Model for Window {
    ghost use Rattle.std.specs.Prelude.{◌+◌, ◌≤◌};
    ghost use Rattle.hc_run.specs.Shows.{Window as Meaning};

    ghost Value = { Meaning };

    ghost view = { λ w. record { first = w.first; pages = w.pages } };

    ghost inverse = { λ w. record { first = w.first; pages = w.pages } };

    ghost invariant = { λ w. w.first + w.pages ≤ 4294967296 };
}

impl Window {
    /// So many pages, from this one of the device on.
    #[must_use]
    pub fn new(first: u32, pages: u32) -> Window
        requires { first + pages ≤ 4294967296 }
        ensures { result ≡ record { first = first; pages = pages } }
    {
        let pages = u64::from(pages);
        Window { first, pages }
    }

    /// All pages of the device, whichever of them it has.
    #[must_use]
    pub fn whole() -> Window
        ensures { result ≡ whole }
    {
        Window {
            first: 0,
            pages: 4_294_967_296,
        }
    }

    /// The device's page that is this page of the cache, if it has such a page.
    pub(crate) fn place(&self, page: u32) -> Option<u32>
        ensures some { IfSome result (λ place. (place ≡ self.now.first + page) × (page < self.now.pages)) }
        ensures none { IfNone result (self.now.pages ≤ page) }
    {
        if u64::from(page) < self.pages {
            Some(self.first + page)
        } else {
            None
        }
    }
}
