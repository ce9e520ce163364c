// A field that is the last.
ghost use Rattle.std.specs.Prelude.{◌≡◌, ◌^◌, option_map};
ghost use Rattle.hc_trace_text.specs.Seen.{bytes_of};
ghost use Rattle.hc_log_text.specs.Left.{left};
ghost use Rattle.hc_log_text.specs.Reading as spec;
ghost use Rattle.hc_log_text.specs.Reading.{number_alone, page_bytes};

use crate::fields::{Rest, field_at, is_page, key_at, long_at, value_at, word_at};
use hc_trace_text::Value;

// Whether nothing is left.
pub fn is_empty(rest: Rest<'_>) -> bool
    ensures { result ≡ spec.is_end (left rest.entry) }
{
    match rest {
        Rest::Empty => true,
        Rest::Text(_) => false,
    }
}

// A number below 2 ^ 64, behind which nothing is left.
pub fn long_alone(rest: Rest<'_>) -> Option<u64>
    ensures { result ≡ number_alone (2 ^ 64) (left rest.entry) }
{
    let (number, rest) = long_at(rest)?;
    if is_empty(rest) { Some(number) } else { None }
}

// The same, below 2 ^ 32.
pub fn word_alone(rest: Rest<'_>) -> Option<u32>
    ensures { result ≡ number_alone (2 ^ 32) (left rest.entry) }
{
    let (number, rest) = word_at(rest)?;
    if is_empty(rest) { Some(number) } else { None }
}

// A key, behind which nothing is left.
pub fn key_alone(rest: Rest<'_>) -> Option<&[u8]>
    ensures { option_map (λ key. key.now) result ≡ spec.key_alone (left rest.entry) }
{
    let (key, rest) = key_at(rest)?;
    if is_empty(rest) { Some(key) } else { None }
}

// A value, behind which nothing is left.
pub fn value_alone(rest: Rest<'_>) -> Option<Value<'_>>
    ensures { option_map bytes_of result ≡ spec.value_alone (left rest.entry) }
{
    let (value, rest) = value_at(rest)?;
    if is_empty(rest) { Some(value) } else { None }
}

// A page in hexadecimal, behind which nothing is left.
pub fn page_alone(rest: Rest<'_>) -> Option<&[u8]>
    ensures { option_map (λ text. page_bytes text.now) result ≡ spec.page_alone (left rest.entry) }
{
    let (text, rest) = field_at(rest)?;
    if is_page(text) && is_empty(rest) {
        Some(text)
    } else {
        None
    }
}
