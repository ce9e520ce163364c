// An image is taken frame after frame, and its cache goes on.
ghost use Rattle.std.specs.Prelude.{◌≡◌, ◌≤◌, None, Some, IfOk, IfErr, OnOk};
ghost use Rattle.hc_types.specs.Limits.{first_wrong};
ghost use Rattle.hc_types.specs.declared.refusal.Refusal.TheVariants.{NoMemory};
ghost use Rattle.hc_c.specs.Images.{Begins, BeginsTo, IsAsked, Resumes, ResumesIn, TakesFrame, why_of};
ghost use Rattle.hc_c.specs.Making.{config_of, numbers_of, MayNotMake, slots_within};
ghost use Rattle.hc_c.specs.Statuses.{OnImage, Says};

use crate::cache::Cache;
use crate::cache_handle::CacheHandle;
use crate::closing::{Mark, room};
use crate::image::{Image, Stream};
use crate::image_handle::ImageHandle;
use crate::making::{Flash, Pool, sizes_of, slots_of};
use crate::status::Status;
use hc_core::{Config, Core, FlashConfig, Refusal, Totals};
use hc_image::{Asked, Loader};
use hc_leased::Leased;
use std::alloc::Global;

// What C is told of an image that isn't taken.
fn status_of(why: hc_image::Refusal) -> Status
    ensures { result ≡ why_of why }
{
    match why {
        hc_image::Refusal::NoMemory => Status::Refused(Refusal::NoMemory),
        hc_image::Refusal::NotWhole => Status::NotWhole,
        hc_image::Refusal::OtherVersion => Status::OtherVersion,
        hc_image::Refusal::OtherConfig => Status::OtherConfig,
        hc_image::Refusal::OtherSeal => Status::OtherSeal,
        hc_image::Refusal::TooOld => Status::TooOld,
        hc_image::Refusal::ClockWentBack => Status::ClockWentBack,
        hc_image::Refusal::Unfit => Status::Unfit,
    }
}

// A loader of this image, in its room. The configuration's numbers are within their limits.
fn loading(alloc: Global, config: Config, mark: Mark, at_most: u64) -> Result<Box<Image>, Refusal>
    requires { first_wrong config ≡ None }
    ensures ok { IfOk result (λ image. Begins mark at_most config image.value.stream) }
    ensures memory { IfErr result (λ refusal. refusal ≡ NoMemory) }
{
    let mut image = room(alloc)?;
    let asked = Asked {
        shard: mark.shard(),
        config,
        seal: mark.seal(),
        second: mark.second,
        at_most,
    };
    image.stream = Stream::Loads(Loader::new(alloc, asked));
    Ok(image)
}

// A loader of the image of a cache of these pools, with this flash behind them.
fn loader_of(
    alloc: Global,
    pools: &[Pool],
    flash: Option<FlashConfig>,
    mark: Mark,
    at_most: u64,
) -> Result<Box<Image>, Refusal>
    ensures ok { IfOk result (λ image. Begins mark at_most (config_of pools.now flash) image.value.stream) }
    ensures fits { OnOk result (first_wrong (config_of pools.now flash) ≡ None) }
    ensures err { IfErr result (MayNotMake (config_of pools.now flash)) }
{
    let config = Config::new(sizes_of(alloc, pools)?, flash);
    config.check()?;
    match loading(alloc, config, mark, at_most) {
        Ok(image) => Ok(image),
        Err(_) => Err(Refusal::NoMemory),
    }
}

fn load(
    alloc: Global,
    image: &mut ImageHandle,
    pools: &[Pool],
    flash: Option<FlashConfig>,
    mark: Mark,
    at_most: u64,
) -> Status
    ensures { BeginsTo mark at_most (config_of pools.now flash) result image.old.seat.image image.new.seat.image }
{
    match loader_of(alloc, pools, flash, mark, at_most) {
        Ok(loader) => {
            *image = ImageHandle::of(loader);
            Status::Done
        }
        Err(refusal) => Status::Refused(refusal),
    }
}

/// Makes a handle that takes the image of a cache of these pools, without flash, in place of what it has. The image is to have this
/// mark's seal and shard, and is of a cache that was closed at most so many seconds before the mark's second. Refused with `BadPool`
/// and `NoMemory`; then the handle keeps what it has.
#[unsafe(no_mangle)]
pub extern "C" fn kilambosetry_load(
    alloc: Global,
    image: &mut ImageHandle,
    pools: &[Pool],
    mark: &Mark,
    at_most: u64,
) -> u8
    ensures { Says result (λ status. BeginsTo mark.now at_most (config_of pools.now None) status image.old.seat.image image.new.seat.image) }
{
    load(alloc, image, pools, None, *mark, at_most).number()
}

/// The same of a cache with flash behind its pools. Refused also for the first number of the flash that is outside its limits.
#[unsafe(no_mangle)]
pub extern "C" fn kilambosetry_load_with_flash(
    alloc: Global,
    image: &mut ImageHandle,
    pools: &[Pool],
    flash: &Flash,
    mark: &Mark,
    at_most: u64,
) -> u8
    ensures { Says result (λ status. BeginsTo mark.now at_most (config_of pools.now (Some (numbers_of flash.now))) status image.old.seat.image image.new.seat.image) }
{
    load(alloc, image, pools, Some(flash.config()), *mark, at_most).number()
}

fn take(image: &mut Image, frame: &[u8]) -> Status
    ensures { TakesFrame frame.now result image.old image.new }
{
    let Stream::Loads(loader) = &mut image.stream else {
        return Status::Empty;
    };
    match loader.take(frame) {
        Ok(()) => Status::Done,
        Err(why) => status_of(why),
    }
}

/// Takes the next frame of the image, which is all of these bytes: a frame is one byte, the length of its record in four, the highest
/// first, and the record. `NotWhole`, `OtherVersion`, `OtherConfig`, `OtherSeal`, `TooOld`, `ClockWentBack` or `Unfit` where it can't
/// be the next frame of the image that is asked for, and refused with `NoMemory`; then so is each frame behind it. `Empty` where the
/// handle takes no image.
#[unsafe(no_mangle)]
pub extern "C" fn kilambosetry_image_take(
    alloc: Global,
    image: &mut ImageHandle,
    frame: &[u8],
) -> u8
    ensures { OnImage image.old.seat.image image.new.seat.image result (TakesFrame frame.now) }
{
    let Some(mut held) = image.take(alloc) else {
        return Status::Empty.number();
    };
    let status = take(&mut held, frame);
    image.put(held);
    status.number()
}

// The cache of the image, in a box.
#[tactic(auto, using(crate::proofs::Untaken::no_memory))]
fn resumed(alloc: Global, image: Box<Image>, slots: usize) -> Result<Box<Cache>, Status>
    requires { 16 ≤ slots }
    ensures ok { IfOk result (λ cache. Resumes slots image.value.stream cache.value) }
    ensures err { IfErr result (IsAsked image.value.stream) }
{
    let Stream::Loads(loader) = Box::into_inner(image).into_stream() else {
        return Err(Status::Empty);
    };
    let loaded = match loader.finish() {
        Ok(loaded) => loaded,
        Err(why) => return Err(status_of(why)),
    };
    let stamps = loaded.carried.stamps;
    let core = Core::from_parts(alloc, loaded.parts, Totals::new());
    let Ok(leased) = Leased::resume(alloc, core, stamps, slots, slots / 16) else {
        return Err(Status::Refused(Refusal::NoMemory));
    };
    match Box::new(alloc, Cache { leased }) {
        Ok(cache) => Ok(cache),
        Err(_) => Err(Status::Refused(Refusal::NoMemory)),
    }
}

fn load_end(
    alloc: Global,
    image: &mut ImageHandle,
    handle: &mut CacheHandle,
    slots: usize,
) -> Status
    requires { 16 ≤ slots }
    ensures empty { image.new.seat.image ≡ None }
    ensures resumes { ResumesIn slots image.old.seat.image result handle.old.seat.cache handle.new.seat.cache }
{
    let Some(held) = image.take(alloc) else {
        return Status::Empty;
    };
    match resumed(alloc, held, slots) {
        Ok(cache) => {
            *handle = CacheHandle::of(cache);
            Status::Done
        }
        Err(status) => status,
    }
}

/// Nothing comes of the image any more: the cache of which it is the image goes on, in place of the one that the handle has, which is
/// freed. It has so many slots for leases as `kilambosetry_new_with_slots` would make, and no ticket of before is good. `NotWhole`
/// where the image didn't end, or a frame of it wasn't taken, `Unfit` where what came can't be a cache's, `Empty` where the handle
/// takes no image, and refused with `NoMemory`; then the cache's handle keeps what it has. The image's handle has nothing afterwards.
#[unsafe(no_mangle)]
pub extern "C" fn kilambosetry_load_end(
    alloc: Global,
    image: &mut ImageHandle,
    handle: &mut CacheHandle,
    slots: u32,
) -> u8
    ensures empty { image.new.seat.image ≡ None }
    ensures resumes { Says result (λ status. ResumesIn (slots_within slots) image.old.seat.image status handle.old.seat.cache handle.new.seat.cache) }
{
    load_end(alloc, image, handle, slots_of(slots)).number()
}
