// The fields of a line, one after another.
ghost use Rattle.std.specs.Prelude.{◌≡◌, ◌^◌, ◌∷◌, [], length, nat_le, MatchOption, option_map};
ghost use Rattle.std.specs.List.{list_all};
ghost use Rattle.hc_trace_text.specs.Seen.{bytes_of};
ghost use Rattle.hc_trace_text.specs.Texts.{is_repeated};
ghost use Rattle.hc_log_text.specs.Left.{left};
ghost use Rattle.hc_log_text.specs.Reading as spec;
ghost use Rattle.hc_log_text.specs.Reading.{number_at, is_small_digit, why_of};

use hc_trace_text::{TIMES_MAX, Value, first_field, is_key, is_repeated, number, value_in};
use hc_types::{KEY_MAX, Why};

/// What is left of a line: no field, or those of this text.
#[derive(Clone, Copy)]
pub enum Rest<'a> {
    Empty,
    Text(&'a [u8]),
}

// The field in front, and those behind it.
pub fn field_at(rest: Rest<'_>) -> Option<(&[u8], Rest<'_>)>
    ensures { MatchOption result (left rest.entry ≡ []) (λ p. left rest.entry ≡ p.0.now ∷ left p.1) }
{
    let Rest::Text(text) = rest else {
        return None;
    };
    match first_field(text) {
        Some((field, behind)) => Some((field, Rest::Text(behind))),
        None => Some((text, Rest::Empty)),
    }
}

// A number below 2 ^ 64, and the fields behind it.
pub fn long_at(rest: Rest<'_>) -> Option<(u64, Rest<'_>)>
    ensures { option_map (λ p. (p.0, left p.1)) result ≡ number_at (2 ^ 64) (left rest.entry) }
{
    let (field, rest) = field_at(rest)?;
    let number = number(field)?;
    Some((number, rest))
}

// A number below 2 ^ 32, and the fields behind it.
pub fn word_at(rest: Rest<'_>) -> Option<(u32, Rest<'_>)>
    ensures { option_map (λ p. (p.0, left p.1)) result ≡ number_at (2 ^ 32) (left rest.entry) }
{
    let (field, rest) = field_at(rest)?;
    let number = number(field)?;
    if number < 4_294_967_296 {
        Some((number as u32, rest))
    } else {
        None
    }
}

// A number below 2 ^ 8, and the fields behind it.
pub fn byte_at(rest: Rest<'_>) -> Option<(u8, Rest<'_>)>
    ensures { option_map (λ p. (p.0, left p.1)) result ≡ number_at (2 ^ 8) (left rest.entry) }
{
    let (field, rest) = field_at(rest)?;
    let number = number(field)?;
    if number < 256 {
        Some((number as u8, rest))
    } else {
        None
    }
}

// Whether it is a key, and not too long for one.
fn is_short_key(text: &[u8]) -> bool
    ensures { result ≡ spec.is_short_key text.now }
{
    text.len() <= KEY_MAX && is_key(text)
}

// A key, and the fields behind it.
pub fn key_at(rest: Rest<'_>) -> Option<(&[u8], Rest<'_>)>
    ensures { option_map (λ p. (p.0.now, left p.1)) result ≡ spec.key_at (left rest.entry) }
{
    let (field, rest) = field_at(rest)?;
    if is_short_key(field) {
        Some((field, rest))
    } else {
        None
    }
}

// Whether it is four bytes or more, all equal, and no digits.
fn is_one_byte(value: Value<'_>) -> bool
    ensures { result ≡ is_repeated (bytes_of value.entry) }
{
    match value {
        Value::Plain(bytes) => is_repeated(bytes),
        Value::Repeated(count, c) => count >= 4 && !c.is_ascii_digit(),
    }
}

// Whether a line has room for so many bytes as they are.
fn is_within(value: Value<'_>) -> bool
    ensures { result ≡ nat_le (length (bytes_of value.entry)) 2097152 }
{
    match value {
        Value::Plain(bytes) => bytes.len() as u64 <= TIMES_MAX,
        Value::Repeated(count, _) => count <= TIMES_MAX,
    }
}

// Whether it has the mark of a value that is one byte so many times.
fn is_starred(text: &[u8]) -> bool
    ensures { result ≡ spec.is_starred text.now }
{
    match text.first() {
        Some(mark) => *mark == b'*',
        None => false,
    }
}

// Whether a value is written as it is printed.
fn is_proper(starred: bool, value: Value<'_>) -> bool
    ensures { result ≡ spec.is_proper starred (bytes_of value.entry) }
{
    if starred {
        is_one_byte(value)
    } else {
        !is_one_byte(value) && is_within(value)
    }
}

// A value that is written as it is printed.
fn proper_value(text: &[u8]) -> Option<Value<'_>>
    ensures { option_map bytes_of result ≡ spec.proper_value text.now }
{
    let value = value_in(text)?;
    if is_proper(is_starred(text), value) {
        Some(value)
    } else {
        None
    }
}

// A value, and the fields behind it.
pub fn value_at(rest: Rest<'_>) -> Option<(Value<'_>, Rest<'_>)>
    ensures { option_map (λ p. (bytes_of p.0, left p.1)) result ≡ spec.value_at (left rest.entry) }
{
    let (field, rest) = field_at(rest)?;
    let value = proper_value(field)?;
    Some((value, rest))
}

// Whether each is a digit of the sixteen, with small letters.
fn all_small_digits(text: &[u8]) -> bool
    ensures { result ≡ list_all is_small_digit text.now }
{
    let mut seen = true;
    'text: for c in text {
        seen &= c.is_ascii_digit() || (b'a'..=b'f').contains(c);
    }
    seen
}

// Whether it is a page in hexadecimal.
pub fn is_page(text: &[u8]) -> bool
    ensures { result ≡ spec.is_page text.now }
{
    text.len() % 2 == 0 && all_small_digits(text)
}

// Why an evicted item isn't kept elsewhere.
fn why(word: &[u8]) -> Option<Why>
    ensures { result ≡ why_of word.now }
{
    if word == b"noflash".as_slice() {
        return Some(Why::NoFlash);
    }
    if word == b"tombstone".as_slice() {
        return Some(Why::Tombstone);
    }
    if word == b"notadmitted".as_slice() {
        return Some(Why::NotAdmitted);
    }
    if word == b"toolarge".as_slice() {
        return Some(Why::TooLarge);
    }
    if word == b"queuefull".as_slice() {
        return Some(Why::QueueFull);
    }
    None
}

// The same, and the fields behind it.
pub fn why_at(rest: Rest<'_>) -> Option<(Why, Rest<'_>)>
    ensures { option_map (λ p. (p.0, left p.1)) result ≡ spec.why_at (left rest.entry) }
{
    let (field, rest) = field_at(rest)?;
    let why = why(field)?;
    Some((why, rest))
}
