// A cache is closed, and its image is given frame after frame.
ghost use Rattle.std.specs.Prelude.{◌≡◌, [], true, None, Some, IfOk, IfErr};
ghost use Rattle.hc_types.specs.declared.refusal.Refusal.TheVariants.{NoMemory};
ghost use Rattle.hc_state.specs.Resting.{is_at_rest};
ghost use Rattle.hc_c.specs.Images.{Closes, CopiesFrame, GivesNext, head_of, image_frames, IsMarked, StreamsOut, shard_in};
ghost use Rattle.hc_c.specs.Statuses.{OnImage, Says};

use crate::cache::Cache;
use crate::cache_handle::CacheHandle;
use crate::image::{Image, Stream};
use crate::image_handle::ImageHandle;
use crate::status::Status;
use crate::values::piece;
use hc_core::Refusal;
use hc_image::{Carried, Head, NotSaved, Saver, Shard};
use std::alloc::Global;

/// Which image it is.
#[repr(C)]
#[derive(Clone, Copy)]
pub struct Mark {
    /// The first half of a number of 128 bits that is drawn for each close, and that the flash has too: so an image is known to be
    /// the flash's last.
    pub seal_first: u64,
    /// Its last half.
    pub seal_last: u64,
    /// The second that it is: at which the cache is closed, or the image is read.
    pub second: u64,
    /// Which shard, from 0 on.
    pub shard: u32,
    /// Of how many. A cache that isn't cut is shard 0 of 1.
    pub shards: u32,
}

impl Mark {
    /// The seal's bytes.
    pub(crate) fn seal(self) -> [u8; 16]
        ensures { result ≡ (head_of self).seal }
    {
        let first = self.seal_first.to_be_bytes();
        let last = self.seal_last.to_be_bytes();
        let mut seal = [0; 16];
        seal[..8].copy_from_slice(&first);
        seal[8..].copy_from_slice(&last);
        seal
    }

    /// The head of an image that is closed now.
    fn head(self) -> Head
        ensures { result ≡ head_of self }
    {
        Head {
            seal: self.seal(),
            closed: self.second,
        }
    }

    pub(crate) fn shard(self) -> Shard
        ensures { result ≡ shard_in self }
    {
        Shard {
            number: self.shard,
            of: self.shards,
        }
    }
}

// What C is told where an image can't be written.
fn refusal_of(why: NotSaved) -> Refusal
    ensures { IsMarked result }
{
    match why {
        NotSaved::NoMemory => Refusal::NoMemory,
        NotSaved::TooLong => Refusal::ValueTooLong,
    }
}

// Room for an image.
pub(crate) fn room(alloc: Global) -> Result<Box<Image>, Refusal>
    ensures { IfErr result (λ refusal. refusal ≡ NoMemory) }
{
    let image = Image {
        stream: Stream::Nothing,
        frame: Vec::new(alloc),
    };
    match Box::new(alloc, image) {
        Ok(room) => Ok(room),
        Err(_) => Err(Refusal::NoMemory),
    }
}

// What the image of a cache of so many changes has beside it.
fn beside(alloc: Global, stamps: u64) -> Carried<Global>
    ensures { result ≡ record { stamps = stamps; digests = []; owner = [] } }
{
    Carried {
        stamps,
        digests: Vec::new(alloc),
        owner: Vec::new(alloc),
    }
}

// The cache becomes a saver. Where that is refused, it is gone.
fn saver_of(alloc: Global, cache: Box<Cache>, mark: Mark) -> Result<Saver<Global>, Refusal>
    requires { is_at_rest cache.value.leased.logged.cache ≡ true }
    ensures ok { IfOk result (StreamsOut (image_frames mark cache.value.leased)) }
    ensures err { IfErr result (λ refusal. refusal ≡ NoMemory) }
{
    let leased = Box::into_inner(cache).into_leased();
    let (parts, _, stamps) = leased.close();
    let head = mark.head();
    match Saver::new(alloc, mark.shard(), &head, parts, beside(alloc, stamps)) {
        Ok(saver) => Ok(saver),
        Err(_) => Err(Refusal::NoMemory),
    }
}

// Closes the cache, which is at rest, into a handle.
fn close_into(
    alloc: Global,
    handle: &mut CacheHandle,
    cache: Box<Cache>,
    mark: Mark,
    image: &mut ImageHandle,
) -> Status
    requires empty { handle.old.seat.cache ≡ None }
    requires rests { is_at_rest cache.value.leased.logged.cache ≡ true }
    ensures { Closes mark result (Some cache.value) handle.new.seat.cache image.old.seat.image image.new.seat.image }
{
    let mut room = match room(alloc) {
        Ok(room) => room,
        Err(refusal) => {
            handle.put(cache);
            return Status::Refused(refusal);
        }
    };
    match saver_of(alloc, cache, mark) {
        Ok(saver) => {
            room.stream = Stream::Saves(saver);
            *image = ImageHandle::of(room);
            Status::Done
        }
        Err(refusal) => Status::Refused(refusal),
    }
}

fn close(alloc: Global, handle: &mut CacheHandle, mark: Mark, image: &mut ImageHandle) -> Status
    ensures { Closes mark result handle.old.seat.cache handle.new.seat.cache image.old.seat.image image.new.seat.image }
{
    let Some(cache) = handle.take(alloc) else {
        return Status::Empty;
    };
    if cache.leased.is_at_rest() {
        return close_into(alloc, handle, cache, mark, image);
    }
    handle.put(cache);
    Status::Waits
}

/// Closes the cache, so that another can go on where it stands, also in another process: the handle has none afterwards, and the
/// image's handle has what is kept of it, in place of what it had. `Waits` where the cache isn't at rest: a job is out, an item is being
/// written, a call waits, or its reply wasn't taken; then it stays. Refused with `NoMemory`; then the image's handle keeps what it
/// has, and the cache stays in its own, or is gone where memory lacked while it was taken apart.
#[unsafe(no_mangle)]
pub extern "C" fn kilambosetry_close(
    alloc: Global,
    handle: &mut CacheHandle,
    mark: &Mark,
    image: &mut ImageHandle,
) -> u8
    ensures { Says result (λ status. Closes mark.now status handle.old.seat.cache handle.new.seat.cache image.old.seat.image image.new.seat.image) }
{
    close(alloc, handle, *mark, image).number()
}

// The next frame of the image that is written.
fn next(image: &mut Image, len: &mut usize) -> Status
    ensures { GivesNext len.old len.new result image.old image.new }
{
    let Stream::Saves(saver) = &mut image.stream else {
        return Status::Empty;
    };
    match saver.next(&mut image.frame) {
        Ok(true) => {
            *len = image.frame.len();
            Status::Done
        }
        Ok(false) => Status::Idle,
        Err(why) => Status::Refused(refusal_of(why)),
    }
}

/// Makes the next frame of an image that is written, and tells how many bytes it has, which are copied by `kilambosetry_image_copy`.
/// What is written of the cache leaves memory. `Idle` where the image ended with the frame before. Refused with `NoMemory`, and then
/// each time. `Empty` where the handle has no image that is written.
#[unsafe(no_mangle)]
pub extern "C" fn kilambosetry_image_next(
    alloc: Global,
    image: &mut ImageHandle,
    len: &mut usize,
) -> u8
    ensures { OnImage image.old.seat.image image.new.seat.image result (GivesNext len.old len.new) }
{
    let Some(mut held) = image.take(alloc) else {
        return Status::Empty.number();
    };
    let status = next(&mut held, len);
    image.put(held);
    status.number()
}

// Copies a piece, and tells how long it is.
fn copy_frame(image: &Image, from: usize, out: &mut [u8], len: &mut usize) -> Status
    ensures { CopiesFrame from len.new out.old out.new result image.now image.now }
{
    *len = piece(image.frame.as_slice(), from, out);
    Status::Done
}

/// Copies the bytes of the frame that was made last from place `from` on to the head of `out`, as many as there are and fit, and
/// tells how many.
#[unsafe(no_mangle)]
pub extern "C" fn kilambosetry_image_copy(
    alloc: Global,
    image: &mut ImageHandle,
    from: usize,
    out: &mut [u8],
    len: &mut usize,
) -> u8
    ensures { OnImage image.old.seat.image image.new.seat.image result (CopiesFrame from len.new out.old out.new) }
{
    let Some(held) = image.take(alloc) else {
        return Status::Empty.number();
    };
    let status = copy_frame(&held, from, out, len);
    image.put(held);
    status.number()
}

/// Frees the image, if there is one, with what wasn't written of it.
#[unsafe(no_mangle)]
pub extern "C" fn kilambosetry_image_free(alloc: Global, image: &mut ImageHandle)
    ensures { image.new.seat.image ≡ None }
{
    drop(image.take(alloc));
}
