// A trace is read whole.

use std::alloc::Global;
use std::io::{self, Read};

/// The most bytes of a trace.
const MOST: u64 = 4_294_967_296;

/// The most reads: one for each byte, and one that tells the end.
const READS: u64 = MOST + 1;

/// The most bytes of one read.
const CHUNK: usize = 65_536;

/// All that the reader has. More than 4,294,967,296 bytes can't be read.
pub(crate) fn read_all<R: Read>(alloc: Global, reader: &mut R) -> io::Result<Vec<u8>> {
    let mut chunk = Vec::new(alloc);
    chunk.resize(CHUNK, 0u8)?;
    let mut trace = Vec::new(alloc);
    for _ in 0..READS {
        let count = reader.read(chunk.as_mut_slice())?;
        if count == 0 {
            return Ok(trace);
        }
        trace.extend_from_slice(&chunk[..count])?;
        if trace.len() as u64 > MOST {
            break;
        }
    }
    Err(io::Error::from(io::ErrorKind::FileTooLarge))
}
