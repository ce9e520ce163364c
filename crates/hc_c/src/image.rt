// What is in the box of an image that C writes or reads.
ghost use Rattle.std.specs.Prelude.{◌≡◌};

use hc_image::{Loader, Saver};
use std::alloc::Global;

/// An image that streams out of a cache that was closed, or into one that goes on.
#[derive(Drop)]
pub enum Stream {
    /// There is room for one.
    Nothing,
    /// It is written, frame after frame.
    Saves(Saver<Global>),
    /// It is read, frame after frame.
    Loads(Loader<Global>),
}

/// An image, and the frame that C copies.
pub struct Image {
    pub stream: Stream,
    pub frame: Vec<u8>,
}

impl Image {
    /// What streams.
    pub fn into_stream(self) -> Stream
        ensures { result ≡ self.stream }
    {
        let Image { stream, frame: _ } = self;
        stream
    }
}

impl Drop for Image {
    fn drop(self) {
        let Image {
            stream: _,
            frame: _,
        } = self;
    }
}
