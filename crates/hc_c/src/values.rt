// Values that are read where they lie.
ghost use Rattle.std.specs.Prelude.{◌≡◌, None, Some, IfErr};
ghost use Rattle.hc_types.specs.declared.refusal.Refusal.TheVariants.{NoMemory};
ghost use Rattle.hc_c.specs.Values.{Reads, Replies, Pieces, Copied, Lengths};
ghost use Rattle.hc_c.specs.Statuses.{OnCache, OnValue};

use crate::cache_handle::CacheHandle;
use crate::reading::Reading;
use crate::status::Status;
use crate::value_handle::ValueHandle;
use bytes::Bytes;
use hc_core::{Core, Found, Refusal, Reply, Totals};
use hc_leased::Leased;
use std::alloc::Global;

// Empties the handle, and makes room for what it is handed: first, so that what a call brought isn't lost for lack of memory.
fn make_room(alloc: Global, value: &mut ValueHandle) -> Result<Box<Reading>, Refusal>
    ensures empty { value.new.seat.value ≡ None }
    ensures memory { IfErr result (λ refusal. refusal ≡ NoMemory) }
{
    let _freed = value.take(alloc);
    let bytes = Bytes::new();
    match Box::new(alloc, Reading { bytes }) {
        Ok(room) => Ok(room),
        Err(_) => Err(Refusal::NoMemory),
    }
}

// Hands out a value.
fn hand_out(value: &mut ValueHandle, mut room: Box<Reading>, bytes: Bytes)
    ensures { value.new.seat.value ≡ Some (record { bytes = bytes }) }
{
    room.bytes = bytes;
    *value = ValueHandle::of(room);
}

fn read(
    cache: &mut Leased<Core<Totals>>,
    alloc: Global,
    key: &[u8],
    value: &mut ValueHandle,
) -> Status
    ensures { Reads key.now value.new.seat.value result cache.old cache.new }
{
    let room = match make_room(alloc, value) {
        Ok(room) => room,
        Err(refusal) => return Status::Refused(refusal),
    };
    match cache.get(key) {
        Ok(Found::Hit(handle)) => {
            hand_out(value, room, handle.into_bytes());
            Status::Done
        }
        Ok(Found::Miss) => Status::Miss,
        Ok(Found::Waiting(_)) => Status::Waits,
        Err(refusal) => Status::Refused(refusal),
    }
}

fn reply(
    cache: &mut Leased<Core<Totals>>,
    alloc: Global,
    call: u64,
    value: &mut ValueHandle,
) -> Status
    ensures { Replies call value.new.seat.value result cache.old cache.new }
{
    let room = match make_room(alloc, value) {
        Ok(room) => room,
        Err(refusal) => return Status::Refused(refusal),
    };
    let (reply, _ticket) = match cache.take_reply(call) {
        Ok(taken) => taken,
        Err(refusal) => return Status::Refused(refusal),
    };
    match reply {
        Reply::Hit(bytes) => {
            hand_out(value, room, bytes);
            Status::Done
        }
        Reply::Stored | Reply::FoundInMemory => Status::Done,
        Reply::Miss | Reply::NotInMemory => Status::Miss,
        Reply::Exists => Status::Refused(Refusal::Exists),
    }
}

// Copies the value's bytes from place `from` on to the head of a buffer, as many as there are and fit, and answers how many.
pub(crate) fn piece(value: &[u8], from: usize, out: &mut [u8]) -> usize
    ensures { Pieces value.now from result out.old out.new }
{
    if from >= value.len() {
        return 0;
    }
    let rest = &value[from..];
    let count = if rest.len() < out.len() {
        rest.len()
    } else {
        out.len()
    };
    out[..count].copy_from_slice(&rest[..count]);
    count
}

fn tell_length(bytes: &Bytes, len: &mut usize) -> Status
    ensures { Lengths len.new result bytes.now }
{
    *len = bytes.len();
    Status::Done
}

// Copies a piece, and tells how long it is.
fn copy_piece(bytes: &Bytes, from: usize, out: &mut [u8], len: &mut usize) -> Status
    ensures { Copied from len.new out.old out.new result bytes.now }
{
    *len = piece(bytes.as_slice(), from, out);
    Status::Done
}

/// Finds the value under the key, and hands it out as it lies in the cache: it stays readable until it is freed, whatever
/// becomes of its item and of the cache. Where there is a cache, a value that the handle has is freed first, so that it has one
/// after `Done` alone.
#[unsafe(no_mangle)]
pub extern "C" fn kilambosetry_read(
    alloc: Global,
    handle: &mut CacheHandle,
    key: &[u8],
    value: &mut ValueHandle,
) -> u8
    ensures { OnCache handle.old.seat.cache handle.new.seat.cache result (Reads key.now value.new.seat.value) }
{
    let Some(mut cache) = handle.take(alloc) else {
        return Status::Empty.number();
    };
    let status = read(&mut cache.leased, alloc, key, value);
    handle.put(cache);
    status.number()
}

/// Takes the reply of the call with this number, which waited: of a get, the value that was found is handed out as by
/// `kilambosetry_read`, or it is a miss; an add is done, or refused with `Exists`. Refused with `UnknownCall` where no reply
/// is owed to the call, and with `NotReady` where it still waits. A value that the handle has is freed first.
#[unsafe(no_mangle)]
pub extern "C" fn kilambosetry_take_reply(
    alloc: Global,
    handle: &mut CacheHandle,
    call: u64,
    value: &mut ValueHandle,
) -> u8
    ensures { OnCache handle.old.seat.cache handle.new.seat.cache result (Replies call value.new.seat.value) }
{
    let Some(mut cache) = handle.take(alloc) else {
        return Status::Empty.number();
    };
    let status = reply(&mut cache.leased, alloc, call, value);
    handle.put(cache);
    status.number()
}

/// Tells the value's length.
#[unsafe(no_mangle)]
pub extern "C" fn kilambosetry_value_length(
    alloc: Global,
    value: &mut ValueHandle,
    len: &mut usize,
) -> u8
    ensures { OnValue value.old.seat.value value.new.seat.value result (Lengths len.new) }
{
    let Some(reading) = value.take(alloc) else {
        return Status::Empty.number();
    };
    let status = tell_length(&reading.bytes, len);
    value.put(reading);
    status.number()
}

/// Copies the value's bytes from place `from` on to the head of `out`, as many as there are and fit, and tells how many.
#[unsafe(no_mangle)]
pub extern "C" fn kilambosetry_value_copy(
    alloc: Global,
    value: &mut ValueHandle,
    from: usize,
    out: &mut [u8],
    len: &mut usize,
) -> u8
    ensures { OnValue value.old.seat.value value.new.seat.value result (Copied from len.new out.old out.new) }
{
    let Some(reading) = value.take(alloc) else {
        return Status::Empty.number();
    };
    let status = copy_piece(&reading.bytes, from, out, len);
    value.put(reading);
    status.number()
}

/// Frees the value, if there is one.
#[unsafe(no_mangle)]
pub extern "C" fn kilambosetry_value_free(alloc: Global, value: &mut ValueHandle)
    ensures { value.new.seat.value ≡ None }
{
    drop(value.take(alloc));
}
