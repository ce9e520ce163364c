// What a call answers.
ghost use Rattle.std.specs.Prelude.{◌≡◌};
ghost use Rattle.hc_c.specs.Statuses.{status_number};

use hc_types::Refusal;

/// What a call answers. C is told its number.
#[derive(Clone, Copy)]
pub enum Status {
    /// What was asked for is done.
    Done,
    /// It was refused.
    Refused(Refusal),
    /// The key has no unexpired value; to a delete, no item.
    Miss,
    /// What C holds has no cache, or no value.
    Empty,
    /// The buffer is shorter than the value.
    Short,
    /// The call waits for flash; of a turn, another loads the key.
    Waits,
    /// There is nothing to do, or to tell.
    Idle,
    /// The job is over.
    Finished,
    /// What was loaded isn't stored: a key of its slot was changed since the ticket was handed out.
    Stale,
    /// The bytes are no image, or one that was cut or changed; or the image didn't end.
    NotWhole,
    /// The image is of another version.
    OtherVersion,
    /// The image is of a cache with another configuration, or of another shard.
    OtherConfig,
    /// The image has another seal: it isn't the last one of this flash.
    OtherSeal,
    /// The cache was closed longer ago than is allowed.
    TooOld,
    /// The cache was closed at a later second than it is.
    ClockWentBack,
    /// What the image has can't be a cache's.
    Unfit,
}

impl Status {
    /// The number that C is told: that of the refusal, which is 1 to 25, or one of no refusal.
    #[must_use]
    pub fn number(self) -> u8
        ensures { result ≡ status_number self }
    {
        match self {
            Status::Done => 0,
            Status::Refused(refusal) => refusal.number(),
            Status::Miss => 100,
            Status::Empty => 101,
            Status::Short => 102,
            Status::Waits => 103,
            Status::Idle => 104,
            Status::Finished => 105,
            Status::Stale => 106,
            Status::NotWhole => 107,
            Status::OtherVersion => 108,
            Status::OtherConfig => 109,
            Status::OtherSeal => 110,
            Status::TooOld => 111,
            Status::ClockWentBack => 112,
            Status::Unfit => 113,
        }
    }
}
