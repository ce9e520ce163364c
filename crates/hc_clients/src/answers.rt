// What requests are answered.

use crate::closing::write_text;
use crate::session::Session;
use hc_core::{ReadHandle, Refusal};
use hc_trace_text::{add_hit, add_refusal, add_word};
use std::alloc::{AllocError, Global};
use std::io::{self, Write};

/// Answers of more bytes than these are written.
const FULL: usize = 65_536;

/// What a request is answered.
#[derive(Drop)]
pub(crate) enum Answer {
    Stored,
    /// An unexpired value that an add waited for stays.
    Exists,
    Hit(ReadHandle),
    Miss,
    /// An item was in memory.
    Found,
    /// None was.
    Absent,
    Refused(Refusal),
}

/// Prints the line of the answer.
fn add_answer(out: &mut Vec<u8>, answer: &Answer) -> Result<(), AllocError> {
    match answer {
        Answer::Stored => add_word(out, b"stored"),
        Answer::Exists => add_word(out, b"exists"),
        Answer::Hit(value) => add_hit(out, value.bytes()),
        Answer::Miss => add_word(out, b"miss"),
        Answer::Found => add_word(out, b"found"),
        Answer::Absent => add_word(out, b"absent"),
        Answer::Refused(refusal) => add_refusal(out, *refusal),
    }
}

/// The answers by the places of their requests in the trace. Requests of a session that lacked memory may have none.
pub(crate) fn in_order<'b>(
    alloc: Global,
    sessions: &'b [Session<'_>],
    count: usize,
) -> Result<Vec<Option<&'b Answer>>, AllocError> {
    let mut answers = Vec::new(alloc);
    answers.resize(count, None)?;
    for session in sessions {
        for one in &session.answers {
            if let Some(slot) = answers.get_mut(one.place) {
                *slot = Some(&one.answer);
            }
        }
    }
    Ok(answers)
}

/// Writes the lines of the answers, in their order, up to the first request that has none: nobody could tell whose answers
/// those behind it are. Where there is no memory for a line, those before it are written.
pub(crate) fn write_answers<W: Write>(
    alloc: Global,
    writer: &mut W,
    answers: &[Option<&Answer>],
) -> io::Result<()> {
    let mut out = Vec::new(alloc);
    for answer in answers {
        let Some(answer) = answer else {
            break;
        };
        let added = add_whole(&mut out, answer);
        if added.is_err() || out.len() > FULL {
            write_text(writer, &out)?;
            out.clear();
        }
        added?;
    }
    write_text(writer, &out)
}

/// Adds the line of the answer, or nothing when out of memory.
fn add_whole(out: &mut Vec<u8>, answer: &Answer) -> Result<(), AllocError> {
    let before = out.len();
    let added = add_answer(out, answer);
    if added.is_err() {
        out.truncate(before);
    }
    added
}
