// Why an image isn't written, or isn't taken.
ghost use Rattle.std.specs.Prelude.{◌≡◌};
ghost use Rattle.hc_image.specs.Refusing.{refusal_by};

use hc_image_text::Refused;

/// Why an image can't be written.
#[derive(Clone, Copy, Debug, PartialEq, Eq)]
pub enum NotSaved {
    NoMemory,
    /// A record has more bytes than a frame can have, which no cache's has but for its owner's bytes.
    TooLong,
}

/// Why bytes aren't the image that was asked for.
#[derive(Clone, Copy, Debug, PartialEq, Eq)]
pub enum Refusal {
    NoMemory,
    /// They are no image, or one that was cut or changed.
    NotWhole,
    /// An image of another version.
    OtherVersion,
    /// The image of a cache with another configuration, or of another shard.
    OtherConfig,
    /// An image with another seal: it isn't the last one of this flash.
    OtherSeal,
    /// It was closed longer ago than is allowed.
    TooOld,
    /// It was closed at a later second than it is.
    ClockWentBack,
    /// What it has can't be a cache's.
    Unfit,
}

/// What the records' own refusals are here.
pub(crate) fn refusal_of(refused: Refused) -> Refusal
    ensures { result ≡ refusal_by refused }
{
    match refused {
        Refused::NoMemory => Refusal::NoMemory,
        Refused::NotWhole => Refusal::NotWhole,
        Refused::OtherVersion => Refusal::OtherVersion,
        Refused::OtherConfig => Refusal::OtherConfig,
        Refused::TooOld => Refusal::TooOld,
        Refused::ClockWentBack => Refusal::ClockWentBack,
    }
}
