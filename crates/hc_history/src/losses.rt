// Losses by what they came of.
ghost use Rattle.std.specs.Prelude.{◌≡◌, ◌<◌, ◌-◌, ◌^◌};
ghost use Rattle.hc_types.specs.Loss.{cause_of};
ghost use Rattle.hc_history.specs.Losses.{reason_of, losses_one, total_lost};

use hc_types::{Cause, Why};
use std::alloc::Allocator;
use std::fmt;

/// Why something is forgotten: its cause, without the pool, the region or the key that the cause names.
#[derive(Clone, Copy, Debug, PartialEq, Eq)]
pub enum Reason {
    /// Its item was evicted, and this is why it isn't kept elsewhere.
    Evicted(Why),
    /// Its bucket's page was full.
    BucketFull,
    /// Its region was reclaimed.
    Reclaimed,
    /// No region was clean for it.
    NoCleanRegion,
    /// Another key of the same kept hash was written or removed.
    Collision,
    /// Its item was evicted when it was expired.
    Expired,
    /// The device failed.
    Fault,
}

impl Reason {
    /// What this cause comes to.
    #[must_use]
    pub fn of<A: Allocator>(cause: &Cause<A>) -> Reason
        ensures { result ≡ reason_of (cause_of cause.now) }
    {
        match cause {
            Cause::Evicted { why, .. } => Reason::Evicted(*why),
            Cause::BucketFull => Reason::BucketFull,
            Cause::Reclaimed(_) => Reason::Reclaimed,
            Cause::NoCleanRegion => Reason::NoCleanRegion,
            Cause::Collision(_) => Reason::Collision,
            Cause::Expired => Reason::Expired,
            Cause::Fault => Reason::Fault,
        }
    }
}

/// How many losses came of each reason: forgettings, and not the items that they cover. It shows each with the word by
/// which a cause shows.
#[must_use]
#[derive(Clone, Copy, Default, PartialEq, Eq)]
pub struct Losses {
    /// Evicted where there is no flash.
    pub no_flash: u64,
    /// Evicted while a tombstone of its key waits for its delete.
    pub tombstone: u64,
    /// Evicted, and shorter or longer than what is admitted.
    pub not_admitted: u64,
    /// Evicted, and longer than a region.
    pub too_large: u64,
    /// Evicted while as many items as may be wait for flash.
    pub queue_full: u64,
    /// Evicted when they were expired.
    pub expired: u64,
    /// Pushed out of a bucket's page that was full.
    pub bucket_full: u64,
    /// Lost with a region that was reclaimed.
    pub reclaimed: u64,
    /// Not written, since no region was clean.
    pub no_clean_region: u64,
    /// Lost to another key of the same kept hash.
    pub collision: u64,
    /// Lost by a device that failed.
    pub fault: u64,
}

impl Losses {
    /// One more of this reason.
    pub(crate) fn count(&mut self, reason: Reason)
        requires { total_lost self.old < 2 ^ 64 - 1 }
        ensures { self.new ≡ losses_one self.old reason }
    {
        match reason {
            Reason::Evicted(Why::NoFlash) => self.no_flash += 1,
            Reason::Evicted(Why::Tombstone) => self.tombstone += 1,
            Reason::Evicted(Why::NotAdmitted) => self.not_admitted += 1,
            Reason::Evicted(Why::TooLarge) => self.too_large += 1,
            Reason::Evicted(Why::QueueFull) => self.queue_full += 1,
            Reason::BucketFull => self.bucket_full += 1,
            Reason::Reclaimed => self.reclaimed += 1,
            Reason::NoCleanRegion => self.no_clean_region += 1,
            Reason::Collision => self.collision += 1,
            Reason::Expired => self.expired += 1,
            Reason::Fault => self.fault += 1,
        }
    }
}

/// The losses of items that were evicted.
#[derive(Clone, Copy)]
struct Evicted(Losses);

impl fmt::Display for Evicted {
    ghost use Rattle.std.specs.Prelude.{Some};
    ghost use Rattle.hc_history.specs.Counts.{evicted_text};

    ghost output = { λ evicted. Some (evicted_text evicted.0) };

    fn fmt<W: fmt::Write>(&self, f: &mut fmt::Formatter<W>) -> fmt::Result {
        let Losses {
            no_flash,
            tombstone,
            not_admitted,
            too_large,
            queue_full,
            expired,
            ..
        } = &self.0;
        write!(
            f,
            "noflash {no_flash} tombstone {tombstone} notadmitted {not_admitted}"
        )?;
        write!(
            f,
            " toolarge {too_large} queuefull {queue_full} expired {expired}"
        )
    }
}

/// The losses of what stood on flash, or was to.
#[derive(Clone, Copy)]
struct OfFlash(Losses);

impl fmt::Display for OfFlash {
    ghost use Rattle.std.specs.Prelude.{Some};
    ghost use Rattle.hc_history.specs.Counts.{flash_text};

    ghost output = { λ flash. Some (flash_text flash.0) };

    fn fmt<W: fmt::Write>(&self, f: &mut fmt::Formatter<W>) -> fmt::Result {
        let Losses {
            bucket_full,
            reclaimed,
            no_clean_region,
            collision,
            fault,
            ..
        } = &self.0;
        write!(
            f,
            "fault {fault} bucketfull {bucket_full} reclaimed {reclaimed} nocleanregion {no_clean_region} collision {collision}"
        )
    }
}

impl fmt::Display for Losses {
    ghost use Rattle.std.specs.Prelude.{Some};
    ghost use Rattle.hc_history.specs.Counts.{losses_text};

    ghost output = { λ losses. Some (losses_text losses) };

    fn fmt<W: fmt::Write>(&self, f: &mut fmt::Formatter<W>) -> fmt::Result {
        write!(f, "{} {}", Evicted(*self), OfFlash(*self))
    }
}

impl fmt::Debug for Losses {
    fn fmt<W: fmt::Write>(&self, f: &mut fmt::Formatter<W>) -> fmt::Result {
        write!(f, "Losses({self})")
    }
}
