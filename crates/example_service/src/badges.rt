// Badges of users, which are written into the cache piece by piece.
use crate::profiles::{HOUR, POOL};
use hc_core::{Blank, Core, Counting, Key, Refusal, Sealed, Unlinked};
use std::alloc::Global;

/// So many bytes a badge has, at most.
const BADGE: u64 = 16;

/// Inserts what was written. What can't be inserted is given up.
fn insert(cache: &mut Core<Counting>, sealed: Sealed) -> Result<(), Refusal> {
    match cache.insert_or_replace(0, sealed) {
        Ok(()) => Ok(()),
        Err(Unlinked { refusal, sealed }) => {
            if let Err(sealed) = cache.discard(sealed) {
                sealed.abandon();
            }
            Err(refusal)
        }
    }
}

/// Gives up what was begun.
fn give_up(cache: &mut Core<Counting>, blank: Blank) {
    match cache.discard_blank(blank) {
        Ok(()) => {}
        Err(blank) => blank.abandon(),
    }
}

/// Writes a user's name into a badge, and inserts it under this key. One that the name doesn't fit is given up: its room is
/// free again, and nothing is found under the key that wasn't before.
pub fn badge(
    alloc: Global,
    cache: &mut Core<Counting>,
    text: &str,
    name: &str,
) -> Result<(), Refusal> {
    let key = Key::new(alloc, text.as_bytes())?;
    let mut blank = match cache.allocate(POOL, key, BADGE, HOUR) {
        Ok(blank) => blank,
        Err(uncharged) => return Err(uncharged.refusal),
    };
    if let Err(refusal) = blank.write_at(0, name.as_bytes()) {
        give_up(cache, blank);
        return Err(refusal);
    }
    match blank.seal() {
        Ok(sealed) => insert(cache, sealed),
        Err(blank) => {
            give_up(cache, blank);
            Err(Refusal::NoMemory)
        }
    }
}
