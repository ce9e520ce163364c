// What a line of a trace says.
ghost use Rattle.std.specs.Prelude.{◌≡◌, ◌≢◌, ◌^◌, ◌∷◌, ◌++◌, [], true, List, ℕ, Some, None, MatchOption, option_map, if◌then◌else◌};
ghost use Rattle.std.specs.List.{list_all};
ghost use Rattle.hc_trace_text.specs.Lines.{fields_of};
ghost use Rattle.hc_trace_text.specs.Grammar as spec;
ghost use Rattle.hc_trace_text.specs.Grammar.{pool_order, item_of, set_order, add_order, get_order, del_order, now_order, order_of, line_of};
ghost use Rattle.hc_trace_text.specs.Numbers.{is_visible, number_of, number_below};
ghost use Rattle.hc_trace_text.specs.Steps.{Get, Del};
ghost use Rattle.hc_trace_text.specs.Seen.{item_seen, order_seen, line_seen};

use crate::numbers::number;
use crate::serving::serve_in;
use crate::value::{Value, is_key, value_in, visible_front};
use hc_types::FlashConfig;
use memchr::memchr;

/// The most bytes of a line.
pub const LONGEST: usize = 2_097_152;

/// What is to be stored: a value under a key, in a pool.
#[derive(Clone, Copy)]
pub struct NewItem<'a> {
    pub pool: u8,
    pub key: &'a [u8],
    pub value: Value<'a>,
    /// How many seconds it lives. 0: for good.
    pub ttl: u32,
}

/// What a client does with the cache, or the clock does.
#[derive(Clone, Copy)]
pub enum Step<'a> {
    /// The item is stored, in place of the key's item where there is one.
    Set(NewItem<'a>),
    /// The item is stored where the key has no unexpired one.
    Add(NewItem<'a>),
    Get(&'a [u8]),
    Del(&'a [u8]),
    /// The clock moves on to this second.
    Now(u64),
}

/// What a worker does with the cache, the device with a job, or a client that waited.
#[derive(Clone, Copy)]
pub enum Work {
    /// The writer takes what is to be written next.
    Writer,
    /// The filler takes what is to be read next.
    Filler,
    /// A region is given up.
    Reclaim,
    /// The operation of this job is made, or the device fails it.
    Io(u64, bool),
    /// The result of this job's operation is handed in.
    Finish(u64),
    /// The reply of this call, which waited, is taken.
    Reply(u64),
}

/// What a line asks for.
#[derive(Clone, Copy)]
pub enum Order<'a> {
    /// One more pool, of so many bytes and items.
    Pool(u64, u64),
    /// The end of the configuration, without flash.
    NoFlash,
    /// The end of the configuration, with flash. Whether the numbers are within their limits is for `Config::check`.
    Flash(FlashConfig),
    Do(Step<'a>),
    /// What only a cache with flash has to do.
    Serve(Work),
    /// The cache is closed, where it is at rest, and another goes on with what was kept of it.
    Restart,
}

/// What a line says.
#[derive(Clone, Copy)]
pub enum Line<'a> {
    Skipped,
    Says(Order<'a>),
    Fault,
}

/// The first field and the bytes behind its space. None where there is no space.
pub fn first_field(bytes: &[u8]) -> Option<(&[u8], &[u8])>
    ensures { MatchOption result (fields_of bytes.now ≡ bytes.now ∷ []) (λ p. fields_of bytes.now ≡ p.0.now ∷ fields_of p.1.now) }
{
    let at = memchr(b' ', bytes)?;
    Some((&bytes[..at], &bytes[at + 1..]))
}

// Whether it is one field, and that a key, which has no space.
fn is_one_key(bytes: &[u8]) -> bool
    ensures get { get_order (fields_of bytes.now) ≡ (if result then Some (spec.Do (Get bytes.now)) else None) }
    ensures del { del_order (fields_of bytes.now) ≡ (if result then Some (spec.Do (Del bytes.now)) else None) }
{
    is_key(bytes)
}

// The fields behind `get`.
fn get_in(fields: &[u8]) -> Option<Order<'_>>
    ensures { option_map order_seen result ≡ get_order (fields_of fields.now) }
{
    if is_one_key(fields) {
        Some(Order::Do(Step::Get(fields)))
    } else {
        None
    }
}

// The fields behind `del`.
fn del_in(fields: &[u8]) -> Option<Order<'_>>
    ensures { option_map order_seen result ≡ del_order (fields_of fields.now) }
{
    if is_one_key(fields) {
        Some(Order::Do(Step::Del(fields)))
    } else {
        None
    }
}

// A pool of these two fields. A number has no space.
fn pool_with<'a>(bytes: &[u8], items: &[u8]) -> Option<Order<'a>>
    ensures { option_map order_seen result ≡ spec.pool_with (number_of bytes.now) (number_of items.now) }
{
    Some(Order::Pool(number(bytes)?, number(items)?))
}

// The fields behind `pool`.
fn pool_in(fields: &[u8]) -> Option<Order<'_>>
    ensures { option_map order_seen result ≡ pool_order (fields_of fields.now) }
{
    let (bytes, items) = first_field(fields)?;
    pool_with(bytes, items)
}

// The number of a pool, which there may not be.
fn pool_number(text: &[u8]) -> Option<u8>
    ensures { result ≡ number_below (2 ^ 8) text.now }
{
    let n = number(text)?;
    if n < 256 { Some(n as u8) } else { None }
}

// A time to live.
fn seconds(text: &[u8]) -> Option<u32>
    ensures { result ≡ number_below (2 ^ 32) text.now }
{
    let n = number(text)?;
    if n < 4_294_967_296 {
        Some(n as u32)
    } else {
        None
    }
}

// The item of these four fields.
fn item_with<'a>(pool: &[u8], key: &'a [u8], value: &'a [u8], ttl: &[u8]) -> Option<NewItem<'a>>
    requires { list_all is_visible key.now ≡ true }
    ensures { option_map item_seen result ≡ item_of (pool.now ∷ key.now ∷ value.now ∷ ttl.now ∷ []) }
{
    if key.is_empty() {
        return None;
    }
    let pool = pool_number(pool)?;
    let value = value_in(value)?;
    let ttl = seconds(ttl)?;
    Some(NewItem {
        pool,
        key,
        value,
        ttl,
    })
}

// The key in front, and the bytes behind its space. None where no key is in front, or nothing is behind it.
fn first_key(fields: &[u8]) -> Option<(&[u8], &[u8])>
    ensures { MatchOption result ((pool : List ℕ) → item_of (pool ∷ fields_of fields.now) ≡ None) (λ p. (list_all is_visible p.0.now ≡ true) × (fields_of fields.now ≡ p.0.now ∷ fields_of p.1.now)) }
{
    let end = visible_front(fields);
    if end == fields.len() {
        return None;
    }
    if fields[end] != b' ' {
        return None;
    }
    Some((&fields[..end], &fields[end + 1..]))
}

// The fields behind `set` and `add`.
fn item_in(fields: &[u8]) -> Option<NewItem<'_>>
    ensures { option_map item_seen result ≡ item_of (fields_of fields.now) }
{
    let (pool, fields) = first_field(fields)?;
    let (key, fields) = first_key(fields)?;
    let (value, ttl) = first_field(fields)?;
    item_with(pool, key, value, ttl)
}

// The fields behind `set`.
fn set_in(fields: &[u8]) -> Option<Order<'_>>
    ensures { option_map order_seen result ≡ set_order (fields_of fields.now) }
{
    Some(Order::Do(Step::Set(item_in(fields)?)))
}

// The fields behind `add`.
fn add_in(fields: &[u8]) -> Option<Order<'_>>
    ensures { option_map order_seen result ≡ add_order (fields_of fields.now) }
{
    Some(Order::Do(Step::Add(item_in(fields)?)))
}

// The fields behind `now`.
fn now_in(fields: &[u8]) -> Option<Order<'_>>
    ensures { option_map order_seen result ≡ now_order (fields_of fields.now) }
{
    let moment = number(fields)?;
    Some(Order::Do(Step::Now(moment)))
}

// The bytes behind these, where the line begins with them. A byte after another, so that the first byte of a line tells its
// word at one jump.
pub(crate) fn behind<'a>(line: &'a [u8], word: &[u8]) -> Option<&'a [u8]>
    ensures { MatchOption result ((rest : List ℕ) → line.now ≢ word.now ++ rest) (λ rest. line.now ≡ word.now ++ rest.now) }
{
    if line.len() < word.len() {
        return None;
    }
    'word: for at in 0..word.len() {
        if line[at] != word[at] {
            return None;
        }
    }
    Some(&line[word.len()..])
}

// What the fields of a line ask for.
fn order_in(line: &[u8]) -> Option<Order<'_>>
    ensures { option_map order_seen result ≡ order_of (fields_of line.now) }
{
    if let Some(key) = behind(line, b"get ") {
        return get_in(key);
    }
    if let Some(item) = behind(line, b"set ") {
        return set_in(item);
    }
    if let Some(key) = behind(line, b"del ") {
        return del_in(key);
    }
    if let Some(item) = behind(line, b"add ") {
        return add_in(item);
    }
    if let Some(moment) = behind(line, b"now ") {
        return now_in(moment);
    }
    if let Some(sizes) = behind(line, b"pool ") {
        return pool_in(sizes);
    }
    if line == b"noflash".as_slice() {
        Some(Order::NoFlash)
    } else {
        serve_in(line)
    }
}

// Whether it is an empty line, or one that begins with `#`.
fn is_skipped(line: &[u8]) -> bool
    ensures { result ≡ spec.is_skipped line.now }
{
    match line.first() {
        Some(first) => *first == b'#',
        None => true,
    }
}

/// What a line says.
pub fn line_in(line: &[u8]) -> Line<'_>
    ensures { line_seen result ≡ line_of line.now }
{
    if line.len() > LONGEST {
        return Line::Fault;
    }
    if is_skipped(line) {
        return Line::Skipped;
    }
    match order_in(line) {
        Some(order) => Line::Says(order),
        None => Line::Fault,
    }
}
