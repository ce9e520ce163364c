// Keys and values as a trace writes them.
ghost use Rattle.std.specs.Prelude.{◌≡◌, ◌<◌, ◌≤◌, true, false, length, take, slice_index, option_map};
ghost use Rattle.std.specs.List.{list_all};
ghost use Rattle.hc_trace_text.specs.Numbers as spec;
ghost use Rattle.hc_trace_text.specs.Numbers.{value_of, repeated_of, times};
ghost use Rattle.hc_trace_text.specs.Seen.{bytes_of};

use crate::numbers::number;

/// The most times that a value repeats a byte.
pub const TIMES_MAX: u64 = 2_097_152;

/// A value: its bytes, or one byte so many times.
#[derive(Clone, Copy)]
pub enum Value<'a> {
    Plain(&'a [u8]),
    Repeated(u64, u8),
}

fn is_visible(c: u8) -> bool
    ensures { result ≡ spec.is_visible c }
{
    (33..=126).contains(&c)
}

/// Whether all are visible. It looks at each, which is faster than to stop at the first that isn't.
pub fn all_visible(text: &[u8]) -> bool
    ensures { result ≡ list_all spec.is_visible text.now }
{
    // not `all`, which stops at the first other byte: this is done for many bytes at a time
    let mut seen = true;
    'text: for c in text {
        seen &= is_visible(*c);
    }
    seen
}

/// How many visible bytes stand in front.
pub fn visible_front(text: &[u8]) -> usize
    ensures within { result ≤ length text.now }
    ensures seen { list_all spec.is_visible (take result text.now) ≡ true }
    ensures next { result < length text.now → spec.is_visible (slice_index text.now result) ≡ false }
{
    'text: for at in 0..text.len() {
        if !is_visible(text[at]) {
            return at;
        }
    }
    text.len()
}

/// Whether it is a key: one visible byte or more.
pub fn is_key(text: &[u8]) -> bool
    ensures { result ≡ spec.is_key text.now }
{
    !text.is_empty() && all_visible(text)
}

// So many times the byte.
fn repeated(count: &[u8], c: u8) -> Option<Value<'_>>
    ensures { option_map bytes_of result ≡ times (spec.number_of count.now) c }
{
    let count = number(count)?;
    if count < 1 || count > TIMES_MAX {
        return None;
    }
    Some(Value::Repeated(count, c))
}

// A number, and the visible byte that is repeated, which is no digit.
fn repeated_in(text: &[u8]) -> Option<Value<'_>>
    ensures { option_map bytes_of result ≡ repeated_of text.now }
{
    let (c, count) = text.split_last()?;
    if !is_visible(*c) || c.is_ascii_digit() {
        return None;
    }
    repeated(count, *c)
}

/// A value: its visible bytes behind `=`, or one that is repeated behind `*`.
pub fn value_in(text: &[u8]) -> Option<Value<'_>>
    ensures { option_map bytes_of result ≡ value_of text.now }
{
    let (mark, text) = text.split_first()?;
    if *mark == b'=' {
        return if all_visible(text) {
            Some(Value::Plain(text))
        } else {
            None
        };
    }
    if *mark == b'*' {
        return repeated_in(text);
    }
    None
}
