// Each call on a cache, and the status that it answers.
ghost use Rattle.std.specs.Prelude.{◌≡◌, ◌<◌, ◌≤◌};
ghost use Rattle.hc_c.specs.Calls.{Sets, Adds, Gets, Copies, Deletes, MovesTo};

use crate::status::Status;
use hc_core::{Copied, Core, Inserted, Removed, Totals};
use hc_leased::Leased;

/// Stores a value in place of the key's.
pub fn set(cache: &mut Leased<Core<Totals>>, pool: u8, key: &[u8], value: &[u8], ttl: u32) -> Status
    ensures { Sets pool key.now value.now ttl result cache.old cache.new }
{
    let done = cache.set(pool, key, value, ttl);
    match done {
        Ok(()) => Status::Done,
        Err(refusal) => Status::Refused(refusal),
    }
}

/// Stores a value where the key has none.
pub fn add(cache: &mut Leased<Core<Totals>>, pool: u8, key: &[u8], value: &[u8], ttl: u32) -> Status
    ensures { Adds pool key.now value.now ttl result cache.old cache.new }
{
    let done = cache.add(pool, key, value, ttl);
    match done {
        Ok(Inserted::Stored) => Status::Done,
        Ok(Inserted::Waiting(_)) => Status::Waits,
        Err(refusal) => Status::Refused(refusal),
    }
}

/// Copies a value to the head of a buffer, and tells its length.
pub fn copy(value: &[u8], out: &mut [u8], len: &mut usize) -> Status
    ensures { Copies value.now result (record { bytes = out.old; len = len.old }) (record { bytes = out.new; len = len.new }) }
{
    *len = value.len();
    if value.len() > out.len() {
        return Status::Short;
    }
    out[..value.len()].copy_from_slice(value);
    Status::Done
}

/// Tells the length of a value that was copied to a buffer of `room` bytes, where it fits.
fn tell(value: usize, room: usize, len: &mut usize) -> Status
    ensures done { value ≤ room → result ≡ Status.Done }
    ensures short { room < value → result ≡ Status.Short }
    ensures len { len.new ≡ value }
{
    *len = value;
    if value <= room {
        Status::Done
    } else {
        Status::Short
    }
}

/// Copies the value under the key to the head of a buffer, and tells its length.
pub fn get(cache: &mut Leased<Core<Totals>>, key: &[u8], out: &mut [u8], len: &mut usize) -> Status
    ensures { Gets key.now (record { bytes = out.old; len = len.old }) (record { bytes = out.new; len = len.new }) result cache.old cache.new }
{
    match cache.get_into(key, out) {
        Ok(Copied::Hit(found)) => tell(found, out.len(), len),
        Ok(Copied::Miss) => Status::Miss,
        Ok(Copied::Waiting(_)) => Status::Waits,
        Err(refusal) => Status::Refused(refusal),
    }
}

/// Takes the key's item out of the cache, and says whether there was one.
pub fn delete(cache: &mut Leased<Core<Totals>>, key: &[u8]) -> Status
    ensures { Deletes key.now result cache.old cache.new }
{
    let done = cache.delete(key);
    match done {
        Ok(Removed::FoundInMemory) => Status::Done,
        Ok(Removed::NotInMemory) => Status::Miss,
        Err(refusal) => Status::Refused(refusal),
    }
}

/// Moves the clock on to the moment.
pub fn tick(cache: &mut Leased<Core<Totals>>, moment: u64) -> Status
    ensures { MovesTo moment result cache.old cache.new }
{
    match cache.tick(moment) {
        Ok(_) => Status::Done,
        Err(refusal) => Status::Refused(refusal),
    }
}
