// Keys by their places.
ghost use Rattle.std.specs.Prelude.{◌≡◌, ℕ, ◌==◌, ◌≤◌, ◌&&◌, true, false, ◌++◌, ◌∷◌, [], List, slice_get, option_map, Some, None, IfSome, OnOk, OnErr, if◌then◌else◌};
ghost use Rattle.std.specs.Str.{bytes_eq};
ghost use Rattle.hc_types.specs.Loss.{is_but};
ghost use Rattle.hc_memory.specs.Clean.{keys_at, has_key, with_key, is_under};

use hc_types::{Key, kept};
use std::alloc::{AllocError, Allocator, Global};
use std::collections::BTreeMap;
use std::marker::Model;

/// Keys by their places, which are numbers: each is a page's worth of flash. Contracts see the keys of each place.
///
/// Each call takes time in the logarithm of how many places have keys, and in how many keys the place has: about as many as
/// copies fit into a page. A place's list has room for just the most keys that it had.
#[derive(Drop)]
pub(crate) struct KeyGroups<A: Allocator = Global> {
    groups: BTreeMap<u64, Vec<Key<A>, A>, A>,
}

impl<A: Allocator> Model for KeyGroups<A> {
    ghost use Rattle.std.specs.Prelude.{List, ℕ};
    ghost use Rattle.hc_memory.specs.Clean.{groups_of};

    ghost Value = { List (ℕ × List (List ℕ)) };

    ghost view = { λ k. groups_of k.groups.entries };
}

impl<A: Allocator> KeyGroups<A> {
    /// No place has a key.
    pub(crate) fn new(alloc: A) -> KeyGroups<A>
        ensures { result ≡ [] }
    {
        KeyGroups {
            groups: BTreeMap::new(alloc),
        }
    }

    /// Whether no place has a key.
    pub(crate) fn is_empty(&self) -> bool
        ensures { result ≡ true → self.now ≡ [] }
    {
        self.groups.is_empty()
    }

    /// The keys of the place.
    pub(crate) fn keys(&self, place: u64) -> &[Key<A>]
        ensures { result.now ≡ keys_at place self.now }
    {
        match self.groups.get(&place) {
            Some(keys) => keys.as_slice(),
            None => &[],
        }
    }
}

impl<A: Allocator> KeyGroups<A> {
    /// The key isn't one of the place's any more.
    pub(crate) fn remove(&mut self, place: u64, key: &Key<A>)
        ensures { (p : ℕ) (k : List ℕ) → (p == place && bytes_eq key.now k) ≡ false → has_key k (keys_at p self.old) ≡ true → has_key k (keys_at p self.new) ≡ true }
    {
        let Some(keys) = self.groups.get_mut(&place) else {
            return;
        };
        take_out(keys, key);
        if keys.len() == 0 {
            self.remove_all(place);
        }
    }

    /// The place has no key any more.
    pub(crate) fn remove_all(&mut self, place: u64)
        ensures { (p : ℕ) → keys_at p self.new ≡ (if p == place then [] else keys_at p self.old) }
    {
        let _ = self.groups.remove(&place);
    }

    /// The place has none of the keys any more whose hash, kept by so many bits, is this one, but the one that is named.
    pub(crate) fn remove_under(&mut self, place: u64, bits: u64, hash: u64, but: &Option<Key<A>>)
        requires { bits ≤ 64 }
        ensures { (p : ℕ) (k : List ℕ) → (p == place && is_under bits hash but.now k) ≡ false → has_key k (keys_at p self.old) ≡ true → has_key k (keys_at p self.new) ≡ true }
    {
        let Some(keys) = self.groups.get_mut(&place) else {
            return;
        };
        take_out_under(keys, bits, hash, but);
        if keys.len() == 0 {
            self.remove_all(place);
        }
    }
}

impl<A: Allocator + Clone> KeyGroups<A> {
    /// The key is one of the place's from here on. Refused only when out of memory; then nothing changes.
    pub(crate) fn add(&mut self, alloc: &A, place: u64, key: &Key<A>) -> Result<(), AllocError>
        ensures ok { OnOk result ((p : ℕ) → keys_at p self.new ≡ (if p == place then with_key key.now (keys_at p self.old) else keys_at p self.old)) }
        ensures err { OnErr result ((p : ℕ) → keys_at p self.new ≡ keys_at p self.old) }
    {
        if has(self.keys(place), key) {
            return Ok(());
        }
        let copy = key.clone()?;
        match self.groups.get_mut(&place) {
            Some(keys) => push_key(keys, copy),
            None => self.add_first(alloc, place, copy),
        }
    }

    /// The key is the place's first. Refused only when out of memory; then nothing changes.
    fn add_first(&mut self, alloc: &A, place: u64, key: Key<A>) -> Result<(), AllocError>
        ensures ok { OnOk result ((p : ℕ) → keys_at p self.new ≡ (if p == place then key ∷ [] else keys_at p self.old)) }
        ensures err { OnErr result (self.new ≡ self.old) }
    {
        let mut keys = Vec::with_capacity(alloc.clone()?, 1)?;
        keys.push_reserved(key);
        match self.groups.insert(place, keys) {
            Ok(_) => Ok(()),
            Err(_) => Err(AllocError),
        }
    }
}

/// Whether the key is one of these.
fn has<A: Allocator>(keys: &[Key<A>], key: &Key<A>) -> bool
    ensures { result ≡ has_key key.now keys.now }
{
    for k in keys {
        if key == k {
            return true;
        }
    }
    false
}

/// Where the key stands among these.
fn place_in<A: Allocator>(keys: &[Key<A>], key: &Key<A>) -> Option<usize>
    ensures some { IfSome result (λ at. slice_get keys.now at ≡ Some key.now) }
    ensures none { result ≡ None → has_key key.now keys.now ≡ false }
{
    for (i, k) in keys.iter().enumerate() {
        if key == k {
            return Some(i);
        }
    }
    None
}

/// Takes the key out of the list, if it is there.
fn take_out<A: Allocator>(keys: &mut Vec<Key<A>, A>, key: &Key<A>)
    ensures { (k : List ℕ) → bytes_eq key.now k ≡ false → has_key k keys.old.items ≡ true → has_key k keys.new.items ≡ true }
{
    if let Some(at) = place_in(keys.as_slice(), key) {
        let _ = keys.swap_remove(at);
    }
}

/// Whether the key is the one that is named.
fn is_named<A: Allocator>(but: &Option<Key<A>>, key: &Key<A>) -> bool
    ensures { result ≡ is_but but.now key.now }
{
    match but {
        Some(named) => named == key,
        None => false,
    }
}

/// Whether the key's hash, kept by so many bits, is this one, and another key is named.
pub(crate) fn stands_under<A: Allocator>(
    key: &Key<A>,
    bits: u64,
    hash: u64,
    but: &Option<Key<A>>,
) -> bool
    requires { bits ≤ 64 }
    ensures { result ≡ is_under bits hash but.now key.now }
{
    kept(key, bits) == hash && !is_named(but, key)
}

/// Where the first of these keys stands that is under the hash and isn't named.
fn place_under<A: Allocator>(
    keys: &[Key<A>],
    bits: u64,
    hash: u64,
    but: &Option<Key<A>>,
) -> Option<usize>
    requires { bits ≤ 64 }
    ensures { IfSome result (λ at. option_map (is_under bits hash but.now) (slice_get keys.now at) ≡ Some true) }
{
    for (i, key) in keys.iter().enumerate() {
        if stands_under(key, bits, hash, but) {
            return Some(i);
        }
    }
    None
}

/// Takes each key out of the list that is under the hash and isn't named. Mostly it is one.
fn take_out_under<A: Allocator>(
    keys: &mut Vec<Key<A>, A>,
    bits: u64,
    hash: u64,
    but: &Option<Key<A>>,
)
    requires { bits ≤ 64 }
    ensures { (k : List ℕ) → is_under bits hash but.now k ≡ false → has_key k keys.old.items ≡ true → has_key k keys.new.items ≡ true }
{
    for _ in 0..keys.len() {
        match place_under(keys.as_slice(), bits, hash, but) {
            Some(at) => {
                let _ = keys.swap_remove(at);
            }
            None => return,
        }
    }
}

/// Puts the key behind those of the list, whose room grows by this one alone. Refused only when out of memory; then nothing
/// changes.
fn push_key<A: Allocator + Clone>(keys: &mut Vec<Key<A>, A>, key: Key<A>) -> Result<(), AllocError>
    ensures ok { OnOk result (keys.new.items ≡ keys.old.items ++ key ∷ []) }
    ensures err { OnErr result (keys.new.items ≡ keys.old.items) }
{
    match keys.reserve_exact(1) {
        Ok(()) => {
            keys.push_reserved(key);
            Ok(())
        }
        Err(no_memory) => Err(no_memory),
    }
}
