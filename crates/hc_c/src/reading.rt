// What is in the box of a value that C reads.
use bytes::Bytes;

/// A value, which it shares with the cache.
pub struct Reading {
    pub bytes: Bytes,
}

impl Drop for Reading {
    fn drop(self) {
        let Reading { bytes: _ } = self;
    }
}
