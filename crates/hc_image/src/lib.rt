//! The image of a cache at rest, as it streams: a saver gives it frame after frame, of the parts of a cache that was closed, and a
//! loader takes it frame after frame, and makes parts of it again. Nothing stands in memory twice.
#![tactic(auto)]

ghost use Rattle.hc_image.specs.Again.{ComesAgain, GivesImage, TakesImage};

mod apart;
mod carried;
mod engines;
mod filling;
mod gathered;
mod items;
mod loader;
mod making;
mod refusal;
mod rest;
mod saver;

pub use carried::Carried;
pub use hc_image_text::{FRONT, Head, Shard, front_in};
pub use loader::{Asked, Loaded, Loader};
pub use refusal::{NotSaved, Refusal};
pub use saver::Saver;

/// What a saver gives of a cache at rest, a loader that is asked for that image makes the same cache of, with what it carries: the bytes
/// of the frames are their image, and each frame that was given is taken as that frame. The function does nothing: its contract is
/// the laws.
pub fn images_come_back()
    ensures cache { ComesAgain }
    ensures given { GivesImage }
    ensures taken { TakesImage }
{}
