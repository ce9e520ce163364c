// Where an entry stands.
ghost use Rattle.std.specs.Prelude.{◌≡◌, ◌==◌, ◌&&◌};
ghost use Rattle.hc_engines.specs.large.Index.{same_place};

use std::marker::Model;

/// Where an entry stands: the number of its region, its first byte in that region, and how many bytes it has.
#[derive(Clone, Copy, Debug)]
pub struct Place {
    region: u32,
    offset: u32,
    len: u32,
}

impl Model for Place {
    ghost use Rattle.hc_engines.specs.large.Index.{Place as PlaceSeen};

    ghost Value = { PlaceSeen };

    ghost view = { λ p. record { region = p.region; offset = p.offset; length = p.len } };

    ghost inverse = { λ p. record { region = p.region; offset = p.offset; len = p.length } };
}

impl Place {
    #[must_use]
    pub fn new(region: u32, offset: u32, len: u32) -> Place
        ensures { result ≡ record { region = region; offset = offset; length = len } }
    {
        Place {
            region,
            offset,
            len,
        }
    }

    /// The number of its region.
    #[must_use]
    pub fn region(&self) -> u32
        ensures { result ≡ self.now.region }
    {
        self.region
    }

    /// Its first byte in the region.
    #[must_use]
    pub fn offset(&self) -> u32
        ensures { result ≡ self.now.offset }
    {
        self.offset
    }

    /// How many bytes the entry has.
    #[allow(clippy::len_without_is_empty)]
    #[must_use]
    pub fn len(&self) -> u32
        ensures { result ≡ self.now.length }
    {
        self.len
    }

    /// Whether it is this one.
    #[must_use]
    pub fn is_same(&self, place: Place) -> bool
        ensures { result ≡ same_place self.now place }
    {
        self.region == place.region && self.offset == place.offset && self.len == place.len
    }

    /// Whether it is that of the entry at this offset of the region.
    #[must_use]
    pub fn is_at(&self, region: u32, offset: u32) -> bool
        ensures { result ≡ ((self.now.region == region) && (self.now.offset == offset)) }
    {
        self.region == region && self.offset == offset
    }
}
