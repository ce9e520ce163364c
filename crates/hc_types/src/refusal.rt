// What a call is refused with.
ghost use Rattle.std.specs.Prelude.{◌≡◌};
ghost use Rattle.hc_types.specs.Refusals.{number_of, name_of};

use std::alloc::AllocError;
use std::error::Error;
use std::fmt;

/// What a call is refused with. After a refusal everything is as it was. It shows as `refused`, its number and its name.
#[derive(Clone, Copy, Debug, PartialEq, Eq)]
pub enum Refusal {
    /// A key of no byte.
    KeyEmpty,
    /// A key of more than 255 bytes.
    KeyTooLong,
    /// No pool or more than 16 of them, or a pool outside its limits.
    BadPool,
    /// A page of other than 512, 1024, 2048 or 4096 bytes.
    BadPage,
    /// A number of buckets outside its limits.
    BadBuckets,
    /// A number of regions, of their pages or of those to be kept clean outside its limits.
    BadRegions,
    /// Small items could be longer than a page holds.
    BadSmallMax,
    /// A length of the queue, or sizes that are admitted, outside their limits.
    BadQueue,
    /// A number of bits of the kept hash outside its limits.
    BadBits,
    /// No region is clean: the cause of a loss, and its number is kept. No call is refused with it.
    NoCleanRegion,
    /// The entry is longer than a region: it isn't written to flash. No call of the cache is refused with it.
    TooLarge,
    /// The bytes to be written pass the end of the item.
    OutOfItem,
    /// No pool has this number.
    NoPool,
    /// A value of more than 1,048,576 bytes.
    ValueTooLong,
    /// The item would not fit into its pool, however much were evicted.
    NoRoom,
    /// The handle isn't one of this cache's.
    ForeignHandle,
    /// The key has an unexpired item.
    Exists,
    /// The call never waited, or its reply was taken.
    UnknownCall,
    /// The reply of the call is not there yet.
    NotReady,
    /// No such job, or none that awaits this.
    UnknownJob,
    /// Memory was refused, or a number ran out.
    NoMemory,
    /// There are 64 clients.
    TooManyClients,
    /// A number of shards outside its limits.
    BadShards,
    /// The key is another shard's.
    WrongShard,
}

impl Refusal {
    /// The number that it is known by. No refusal has 18, which an earlier version gave.
    #[must_use]
    pub fn number(self) -> u8
        ensures { result ≡ number_of self }
    {
        match self {
            Refusal::KeyEmpty => 1,
            Refusal::KeyTooLong => 2,
            Refusal::BadPool => 3,
            Refusal::BadPage => 4,
            Refusal::BadBuckets => 5,
            Refusal::BadRegions => 6,
            Refusal::BadSmallMax => 7,
            Refusal::BadQueue => 8,
            Refusal::BadBits => 9,
            Refusal::NoCleanRegion => 10,
            Refusal::TooLarge => 11,
            Refusal::OutOfItem => 12,
            Refusal::NoPool => 13,
            Refusal::ValueTooLong => 14,
            Refusal::NoRoom => 15,
            Refusal::ForeignHandle => 16,
            Refusal::Exists => 17,
            Refusal::UnknownCall => 19,
            Refusal::NotReady => 20,
            Refusal::UnknownJob => 21,
            Refusal::NoMemory => 22,
            Refusal::TooManyClients => 23,
            Refusal::BadShards => 24,
            Refusal::WrongShard => 25,
        }
    }

    /// Its name.
    #[must_use]
    pub fn name(self) -> &'static str
        ensures { result.now ≡ name_of self }
    {
        match self {
            Refusal::KeyEmpty => "KeyEmpty",
            Refusal::KeyTooLong => "KeyTooLong",
            Refusal::BadPool => "BadPool",
            Refusal::BadPage => "BadPage",
            Refusal::BadBuckets => "BadBuckets",
            Refusal::BadRegions => "BadRegions",
            Refusal::BadSmallMax => "BadSmallMax",
            Refusal::BadQueue => "BadQueue",
            Refusal::BadBits => "BadBits",
            Refusal::NoCleanRegion => "NoCleanRegion",
            Refusal::TooLarge => "TooLarge",
            Refusal::OutOfItem => "OutOfItem",
            Refusal::NoPool => "NoPool",
            Refusal::ValueTooLong => "ValueTooLong",
            Refusal::NoRoom => "NoRoom",
            Refusal::ForeignHandle => "ForeignHandle",
            Refusal::Exists => "Exists",
            Refusal::UnknownCall => "UnknownCall",
            Refusal::NotReady => "NotReady",
            Refusal::UnknownJob => "UnknownJob",
            Refusal::NoMemory => "NoMemory",
            Refusal::TooManyClients => "TooManyClients",
            Refusal::BadShards => "BadShards",
            Refusal::WrongShard => "WrongShard",
        }
    }
}

impl fmt::Display for Refusal {
    ghost use Rattle.std.specs.Prelude.{Some};
    ghost use Rattle.hc_types.specs.Refusals.{refusal_text};

    ghost output = { λ refusal. Some (refusal_text refusal) };

    fn fmt<W: fmt::Write>(&self, f: &mut fmt::Formatter<W>) -> fmt::Result {
        write!(f, "refused {} {}", self.number(), self.name())
    }
}

impl Error for Refusal {}

impl From<AllocError> for Refusal {
    ghost use Rattle.std.specs.Prelude.{◌≡◌};
    ghost use Rattle.hc_types.specs.declared.refusal.Refusal.TheVariants.{NoMemory};

    ghost from_gives = { λ _ refusal. refusal ≡ NoMemory };

    fn from(_error: AllocError) -> Refusal {
        Refusal::NoMemory
    }
}
