// A whole image, as it streams: frames, and the digest of all their bytes at the end.
ghost use Rattle.std.specs.Prelude.{◌≡◌, ◌<◌, ◌≤◌, ◌+◌, ◌^◌, false, length, drop, is_some, option_map, Result, Ok, Err, if◌then◌else◌};
ghost use Rattle.std.specs.Hash.DefaultHasher.{initial, write, finish};
ghost use Rattle.hc_image_text.specs.declared.frame.Kind.TheVariants.{End};
ghost use Rattle.hc_image_text.specs.declared.head.Refused.TheVariants.{NotWhole};
ghost use Rattle.hc_image_text.specs.Frames.{framed, frame_bytes, cut_of};
ghost use Rattle.hc_image_text.specs.Images.{is_end as is_end_seen, end_frame, reading, next, behind, frames_from, image_in, ends as ends_seen, ReadsAs};

use crate::frame::{FRONT, Kind, cut, fill_front};
use crate::head::Refused;
use byteorder::{BigEndian, ByteOrder};
use std::hash::{DefaultHasher, Hasher};
use std::marker::Model;

/// How many bytes the last frame of an image has.
pub const END: usize = 13;

/// Makes an image, frame after frame. Contracts see it as the digest's state once all bytes were fed that it made so far.
#[derive(Drop)]
pub struct ImageWriter {
    digest: DefaultHasher,
}

impl Model for ImageWriter {
    ghost use Rattle.std.specs.declared.hash.DefaultHasher.{DefaultHasher as State};

    ghost Value = { State };

    ghost view = { λ w. w.digest };
}

impl ImageWriter {
    /// An image of which nothing is made yet.
    #[must_use]
    pub fn new() -> ImageWriter
        ensures { result ≡ initial }
    {
        ImageWriter {
            digest: DefaultHasher::new(),
        }
    }

    /// Makes the next frame, of a record that stands behind five bytes, whatever these are: they become its front. The record has
    /// fewer than 2^32 bytes, and isn't the end.
    pub fn frame(&mut self, kind: Kind, frame: &mut [u8])
        requires long { 5 ≤ length frame.old }
        requires fits { length frame.old < 2 ^ 32 + 5 }
        requires inner { is_end_seen kind ≡ false }
        ensures made { frame.new ≡ frame_bytes (framed kind (drop 5 frame.old)) }
        ensures fed { self.new ≡ write self.old frame.new }
    {
        fill_front(frame, kind);
        self.digest.write(frame);
    }

    /// The last frame, which has the digest of all bytes before it.
    #[must_use]
    pub fn end(self) -> [u8; END]
        ensures { result ≡ frame_bytes (end_frame (finish self)) }
    {
        let mut last = [0; END];
        BigEndian::write_u64(&mut last[FRONT..], self.digest.finish());
        fill_front(&mut last, Kind::End);
        last
    }
}

/// Reads an image, frame after frame. Contracts see it as the digest's state once the frames were fed that came, and whether the last
/// one came.
#[derive(Drop)]
pub struct ImageReader {
    digest: DefaultHasher,
    ended: bool,
}

impl Model for ImageReader {
    ghost use Rattle.hc_image_text.specs.Images.{Reading};

    ghost Value = { Reading };

    ghost view = { λ r. record { digest = r.digest; ended = r.ended } };
}

impl ImageReader {
    /// An image of which nothing is read yet.
    #[must_use]
    pub fn new() -> ImageReader
        ensures { result ≡ reading initial }
    {
        ImageReader {
            digest: DefaultHasher::new(),
            ended: false,
        }
    }

    /// The next record, which stands in a frame in front of these bytes: its kind, its bytes, and what stands behind the frame; and
    /// none where the frame ends the image. How many bytes a frame has is told by its first five (`front_in`). Refused (`NotWhole`)
    /// where no whole frame stands there, where the last one has another digest or has something behind it, and behind the last one;
    /// then nothing changed.
    pub fn read<'a>(
        &mut self,
        bytes: &'a [u8],
    ) -> Result<Option<(Kind, &'a [u8], &'a [u8])>, Refused>
        ensures answers { ReadsAs (λ c. cut_of c.0 c.1.now c.2.now) result (next self.old bytes.now) }
        ensures goes_on { self.new ≡ behind self.old (next self.old bytes.now) }
    {
        if self.ended {
            return Err(Refused::NotWhole);
        }
        let Some((kind, body, rest)) = cut(bytes) else {
            return Err(Refused::NotWhole);
        };
        if !is_end(kind) {
            self.digest.write(&bytes[..FRONT + body.len()]);
            return Ok(Some((kind, body, rest)));
        }
        if !ends(&self.digest, body, rest) {
            return Err(Refused::NotWhole);
        }
        self.ended = true;
        Ok(None)
    }

    /// Where nothing comes any more: whether the image is whole (`NotWhole`).
    pub fn end(&self) -> Result<(), Refused>
        ensures { result ≡ (if self.now.ended then Ok tt else Err NotWhole) }
    {
        if self.ended {
            Ok(())
        } else {
            Err(Refused::NotWhole)
        }
    }
}

fn is_end(kind: Kind) -> bool
    ensures { result ≡ is_end_seen kind }
{
    matches!(kind, Kind::End)
}

/// Whether a last frame with this record has the digest, and nothing stands behind it.
fn ends(digest: &DefaultHasher, body: &[u8], rest: &[u8]) -> bool
    ensures { result ≡ ends_seen digest.now (cut_of End body.now rest.now) }
{
    let mut bytes = [0; 8];
    BigEndian::write_u64(&mut bytes, digest.finish());
    body == bytes.as_slice() && rest.is_empty()
}

/// Whether these bytes are a whole image.
#[must_use]
pub fn is_whole(bytes: &[u8]) -> bool
    ensures { result ≡ is_some (image_in bytes.now) }
{
    let mut reader = ImageReader::new();
    let mut rest = bytes;
    for _ in 0..bytes.len() {
        match reader.read(rest) {
            Ok(Some((_, _, behind))) => rest = behind,
            Ok(None) => return true,
            Err(_) => return false,
        }
    }
    false
}
