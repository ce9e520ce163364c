// The image of a cache at rest is given, frame after frame.
ghost use Rattle.std.specs.Prelude.{◌≡◌, ℕ, List, [], ◌++◌, ◌≤◌, ◌^◌, not, true, false, length, drop, IfOk, IfErr, OnOk, OnErr, IsErr};
ghost use Rattle.std.specs.Hash.DefaultHasher.{initial, write, finish};
ghost use Rattle.hc_image_text.specs.Images.{is_end, end_frame};
ghost use Rattle.hc_image_text.specs.Frames.{framed, frame_bytes};
ghost use Rattle.hc_image.specs.Saved.{frames_of};
ghost use Rattle.hc_image.specs.Saving.{IsWhyNot, saving, given, after, given_of, after_of};
ghost use Rattle.hc_image.specs.declared.refusal.NotSaved.TheVariants.{NoMemory};

use crate::apart::rest_of;
use crate::carried::Carried;
use crate::refusal::NotSaved;
use crate::rest::Rest;
use hc_image_text::{FRONT, Head, ImageWriter, Kind, Shard};
use hc_state::Parts;
use std::alloc::{AllocError, Allocator};
use std::marker::Model;
use std::mem;

/// Gives the image of a cache at rest, frame after frame. What is given leaves it: each item, and with the last one of their kind all
/// puts, tombstones, words and regions. Contracts see the frames that are left, the digest of those that were given, and whether the
/// image ended.
pub struct Saver<A: Allocator> {
    alloc: A,
    writer: ImageWriter,
    rest: Rest<A>,
    ended: bool,
    // a record wasn't given
    broken: bool,
}

// (written out, so that who drops it calls this one function)
impl<A: Allocator> Drop for Saver<A> {
    fn drop(self) {
        let Saver {
            alloc: _,
            writer: _,
            rest: _,
            ended: _,
            broken: _,
        } = self;
    }
}

impl<A: Allocator> Model for Saver<A> {
    ghost use Rattle.hc_image.specs.Saving.{Saving};

    ghost Value = { Saving };

    ghost view = { λ s. record { left = s.rest; digest = s.writer; ended = s.ended; broken = s.broken } };
}

/// Five bytes, in whose place the front of a frame comes.
fn put_front<A: Allocator + Clone>(frame: &mut Vec<u8, A>) -> Result<(), NotSaved>
    ensures why { IfErr result (λ why. why ≡ NoMemory) }
    ensures front { OnOk result ((before : List ℕ) × (frame.new.items ≡ frame.old.items ++ before) × (length before ≡ 5)) }
{
    match frame.extend_from_slice(&[0; FRONT]) {
        Ok(()) => Ok(()),
        Err(_) => Err(NotSaved::NoMemory),
    }
}

impl<A: Allocator + Clone + Copy> Saver<A> {
    /// Begins the image of this shard, which is that of these parts, and of what it carries beside them. The head has a seal that is
    /// drawn for this close, and the second at which the cache was closed. Refused only when out of memory; then the parts are gone.
    pub fn new(
        alloc: A,
        shard: Shard,
        head: &Head,
        parts: Parts<A>,
        carried: Carried<A>,
    ) -> Result<Saver<A>, AllocError>
        ensures { IfOk result (λ saver. saver ≡ saving (frames_of shard head.now carried parts) initial) }
    {
        match rest_of(alloc, shard, head, parts, carried) {
            Ok(rest) => Ok(Saver {
                alloc,
                writer: ImageWriter::new(),
                rest,
                ended: false,
                broken: false,
            }),
            Err(why) => Err(why),
        }
    }

    /// The next frame of the image stands in `frame` alone. False, and no byte, where the image ended with the frame before. Refused
    /// only when out of memory, or where the next record, of the owner's bytes, has too many for a frame; then the image can't be given,
    /// and no more frame comes.
    pub fn next(&mut self, frame: &mut Vec<u8, A>) -> Result<bool, NotSaved>
        ensures more { IfOk result (λ more. more ≡ not self.old.ended) }
        ensures frame { OnOk result (frame.new.items ≡ given self.old) }
        ensures after { OnOk result (self.new ≡ after self.old) }
        ensures broken { OnErr result (self.new.broken ≡ true) }
        ensures stays { self.old.broken ≡ true → IsErr result }
        ensures why { IfErr result (λ why. IsWhyNot why self.old.left) }
    {
        frame.clear();
        if self.broken {
            return Err(NotSaved::NoMemory);
        }
        if self.ended {
            return Ok(false);
        }
        match self.give(frame) {
            Ok(()) => Ok(true),
            Err(why) => {
                self.broken = true;
                Err(why)
            }
        }
    }

    /// The next frame of an image that didn't end goes into `frame`, which is empty.
    fn give(&mut self, frame: &mut Vec<u8, A>) -> Result<(), NotSaved>
        requires empty { frame.old.items ≡ [] }
        requires whole { self.old.broken ≡ false }
        requires goes_on { self.old.ended ≡ false }
        ensures frame { OnOk result (frame.new.items ≡ given_of self.old.digest self.old.left) }
        ensures after { OnOk result (self.new ≡ after_of self.old.digest self.old.left) }
        ensures why { IfErr result (λ why. IsWhyNot why self.old.left) }
    {
        put_front(frame)?;
        match self.rest.next(self.alloc, frame) {
            Ok(Some(kind)) => make(&mut self.writer, kind, frame),
            Ok(None) => {
                self.ended = true;
                end(&mut self.writer, frame)
            }
            Err(_) => Err(NotSaved::NoMemory),
        }
    }
}

/// A frame of what stands behind five bytes.
fn make<A: Allocator>(
    writer: &mut ImageWriter,
    kind: Kind,
    frame: &mut Vec<u8, A>,
) -> Result<(), NotSaved>
    requires long { 5 ≤ length frame.old.items }
    requires inner { is_end kind ≡ false }
    ensures frame { OnOk result (frame.new.items ≡ frame_bytes (framed kind (drop 5 frame.old.items))) }
    ensures fed { OnOk result (writer.new ≡ write writer.old frame.new.items) }
    ensures why { IfErr result (λ why. 2 ^ 32 ≤ length frame.old.items) }
{
    if frame.len() > u32::MAX as usize {
        return Err(NotSaved::TooLong);
    }
    writer.frame(kind, frame.as_mut_slice());
    Ok(())
}

/// The frame that ends the image.
fn end<A: Allocator + Clone>(
    writer: &mut ImageWriter,
    frame: &mut Vec<u8, A>,
) -> Result<(), NotSaved>
    ensures frame { OnOk result (frame.new.items ≡ frame_bytes (end_frame (finish writer.old))) }
    ensures fed { writer.new ≡ initial }
    ensures why { IfErr result (λ why. why ≡ NoMemory) }
{
    let last = mem::replace(writer, ImageWriter::new()).end();
    frame.clear();
    match frame.extend_from_slice(&last) {
        Ok(()) => Ok(()),
        Err(_) => Err(NotSaved::NoMemory),
    }
}
