// A run of entries that lie in one piece of memory.
ghost use Rattle.std.specs.Prelude.{◌≡◌, ◌+◌, ◌<◌, ◌≤◌, ◌++◌, [], length, reverse, true, take, drop, slice_index_or, vec_len, vec_capacity, IfOk};
ghost use Rattle.std.specs.List.{insert, remove};
ghost use Rattle.std.specs.List.Sorted.{IsStrictlySortedBy};
ghost use Rattle.std.specs.Map.{keys_of};
ghost use Rattle.std.specs.Option.{option_copied};
ghost use Rattle.sorted_entries.specs.Places.{place_of};
ghost use Rattle.ordered_map.specs.Chunks.{overwritten, ends_below, last_key, at_of, IsKeyAt};
ghost use Rattle.ordered_map.specs.Entries.{first_from};

use std::alloc::{AllocError, Global};
use std::marker::Model;
use std::mem;

/// How many entries a chunk holds at most.
pub(crate) const CHUNK: usize = 256;

/// Half of that: how many stay in a full chunk when it is split, and up to how many in two neighbours make them one.
pub(crate) const HALF: usize = 128;

/// A quarter of it: so many entries for each chunk but one always have room, however they lie.
pub(crate) const QUARTER: usize = 64;

/// A run of entries that lie in one piece of memory, which has room for `CHUNK` of them. Contracts see the list of them.
#[derive(Drop)]
pub struct Chunk<K, V> {
    entries: Vec<(K, V)>,
    // The last key: a search for a chunk reads it, and none of the entries. It stays where a value alone changes.
    last: Option<K>,
}

impl<K, V> Model for Chunk<K, V> {
    ghost use Rattle.std.specs.Prelude.{List, vec_capacity};
    ghost use Rattle.std.specs.Coded.{coded_list, coded×};
    ghost use Rattle.ordered_map.specs.Chunks.{IsWhole};

    ghost Value = { List (K × V) };

    ghost coded = { coded_list (coded× K.code V.code) };

    ghost view = { λ chunk. chunk.entries.items };

    ghost invariant = { λ chunk. IsWhole (vec_capacity chunk.entries) chunk.entries.items chunk.last };
}

/// What becomes of a value that is changed where it lies.
pub trait Edit<V> {
    ghost edited: { Self → V → V };

    fn edit(&self, value: &mut V)
        ensures { value.new ≡ edited self.now value.old };
}

// Moves the last element of one vector to the end of another that has room.
fn move_last<T>(from: &mut Vec<T>, to: &mut Vec<T>)
    requires some { 0 < vec_len from.old }
    requires room { vec_len to.old < vec_capacity to.old }
    ensures moved { from.new.items ++ reverse to.new.items ≡ from.old.items ++ reverse to.old.items }
    ensures from_len { vec_len from.new + 1 ≡ vec_len from.old }
    ensures to_len { vec_len to.new ≡ vec_len to.old + 1 }
    ensures from_capacity { vec_capacity from.new ≡ vec_capacity from.old }
    ensures to_capacity { vec_capacity to.old ≤ vec_capacity to.new }
{
    match from.pop() {
        Some(last) => match to.push(last) {
            Ok(()) => {}
            Err(_) => unreachable!(),
        },
        None => unreachable!(),
    }
}

// Moves what lies from a place on to an empty vector that has room for it.
fn move_above<T>(from: &mut Vec<T>, to: &mut Vec<T>, n: usize)
    requires empty { to.old.items ≡ [] }
    requires inside { n ≤ vec_len from.old }
    requires room { vec_len from.old ≤ vec_capacity to.old }
    ensures lower { from.new.items ≡ take n from.old.items }
    ensures upper { to.new.items ≡ drop n from.old.items }
    ensures from_capacity { vec_capacity from.new ≡ vec_capacity from.old }
    ensures to_capacity { vec_capacity to.old ≤ vec_capacity to.new }
{
    for _ in n..from.len() {
        move_last(from, to);
    }
    to.reverse();
}

// Puts an element in at a place of a vector that has room.
fn put_in<T: Drop>(xs: &mut Vec<T>, at: usize, x: T)
    requires inside { at ≤ vec_len xs.old }
    requires room { vec_len xs.old < vec_capacity xs.old }
    ensures items { xs.new.items ≡ insert xs.old.items at x }
    ensures capacity { vec_capacity xs.old ≤ vec_capacity xs.new }
{
    match xs.insert(at, x) {
        Ok(()) => {}
        Err(_) => unreachable!(),
    }
}

// Moves all elements of one vector to the end of another that has room.
fn move_all<T: Drop>(from: &mut Vec<T>, to: &mut Vec<T>)
    requires room { vec_len to.old + vec_len from.old ≤ vec_capacity to.old }
    ensures from { from.new.items ≡ [] }
    ensures to { to.new.items ≡ to.old.items ++ from.old.items }
    ensures from_capacity { vec_capacity from.old ≤ vec_capacity from.new }
    ensures to_capacity { vec_capacity to.old ≤ vec_capacity to.new }
{
    match to.append(from) {
        Ok(()) => {}
        Err(_) => unreachable!(),
    }
}

// The last key.
fn last_key<K: Copy, V>(entries: &[(K, V)]) -> Option<K>
    ensures { result ≡ last_key entries.now }
{
    match entries.last() {
        Some(entry) => Some(entry.0),
        None => None,
    }
}

// Puts another value in the place of one, and answers that one.
fn swap_in<V>(kept: &mut V, value: V) -> V
    ensures before { result ≡ kept.old }
    ensures after { kept.new ≡ value }
{
    mem::replace(kept, value)
}

impl<K: Copy + Drop, V: Drop> Chunk<K, V> {
    /// A chunk without entries.
    pub(crate) fn new(alloc: Global) -> Result<Self, AllocError>
        ensures { IfOk result (λ chunk. chunk ≡ []) }
    {
        Ok(Chunk {
            entries: Vec::with_capacity(alloc, CHUNK)?,
            last: None,
        })
    }

    /// The entries, ascending by key.
    pub fn entries(&self) -> &[(K, V)]
        ensures { result.now ≡ self.now }
    {
        &self.entries
    }

    /// How many entries there are.
    pub(crate) fn len(&self) -> usize
        ensures { result ≡ length self.now }
    {
        self.entries.len()
    }

    /// The entry at a place.
    pub(crate) fn entry(&self, at: usize) -> &(K, V)
        requires { at < length self.now }
        ensures { result.now ≡ slice_index_or self.now at result.now }
    {
        &self.entries[at]
    }

    /// Puts an entry in at a place. There is room in the chunk.
    pub(crate) fn insert(&mut self, at: usize, key: K, value: V)
        requires inside { at ≤ length self.old }
        requires room { length self.old < CHUNK }
        ensures { self.new ≡ insert self.old at (key, value) }
    {
        put_in(&mut self.entries, at, (key, value));
        self.last = last_key(&self.entries);
    }

    /// Puts another value in the place of one, and answers that one.
    pub(crate) fn exchange(&mut self, at: usize, value: V) -> V
        requires { at < length self.old }
        ensures entries { self.new ≡ overwritten self.old at value }
        ensures before { (d : K × V) → result ≡ (slice_index_or self.old at d).1 }
    {
        swap_in(&mut self.entries[at].1, value)
    }

    /// Takes the entry at a place out, and answers its value.
    pub(crate) fn take(&mut self, at: usize) -> V
        requires { at < length self.old }
        ensures entries { self.new ≡ remove self.old at }
        ensures value { (d : K × V) → result ≡ (slice_index_or self.old at d).1 }
    {
        let entry = self.entries.remove(at);
        self.last = last_key(&self.entries);
        entry.1
    }

    /// Takes all entries out.
    pub(crate) fn clear(&mut self)
        ensures { self.new ≡ [] }
    {
        self.entries.clear();
        self.last = None;
    }

    /// Moves all entries of another chunk to the end. There is room for them.
    pub(crate) fn append(&mut self, upper: &mut Chunk<K, V>)
        requires { length self.old + length upper.old ≤ CHUNK }
        ensures all { self.new ≡ self.old ++ upper.old }
        ensures blank { upper.new ≡ [] }
    {
        move_all(&mut upper.entries, &mut self.entries);
        upper.last = None;
        self.last = last_key(&self.entries);
    }

    /// Moves what lies above the first half to a blank chunk.
    pub(crate) fn split(&mut self, upper: &mut Chunk<K, V>)
        requires blank { upper.old ≡ [] }
        requires half { HALF ≤ length self.old }
        requires most { length self.old ≤ CHUNK }
        ensures lower { self.new ≡ take HALF self.old }
        ensures upper { upper.new ≡ drop HALF self.old }
    {
        move_above(&mut self.entries, &mut upper.entries, HALF);
        self.last = last_key(&self.entries);
        upper.last = last_key(&upper.entries);
    }

    /// Changes the value at a place.
    pub(crate) fn change<E: Edit<V>>(&mut self, at: usize, edit: &E)
        requires { at < length self.old }
        ensures { (d : K × V) → self.new ≡ overwritten self.old at (E.edited edit.now (slice_index_or self.old at d).1) }
    {
        edit.edit(&mut self.entries[at].1);
    }
}

impl<K: Ord + Copy, V> Chunk<K, V> {
    /// Whether the last key is below this one.
    pub(crate) fn ends_below(&self, key: &K) -> bool
        ensures { result ≡ ends_below K.cmp key.now self.now }
    {
        match self.last {
            Some(last) => key.cmp(&last).is_gt(),
            None => false,
        }
    }

    /// The key's place, or the place where it would go.
    pub(crate) fn place(&self, key: &K) -> Result<usize, usize>
        requires { IsStrictlySortedBy K.cmp (keys_of self.now) }
        ensures place { result ≡ place_of K.cmp key.now self.now }
    {
        self.entries.binary_search_by(|entry| entry.0.cmp(key))
    }

    /// The place of the first entry whose key isn't below this one, or how many there are where all keys are.
    pub(crate) fn place_from(&self, key: &K) -> usize
        requires { IsStrictlySortedBy K.cmp (keys_of self.now) }
        ensures { result ≡ at_of (place_of K.cmp key.now self.now) }
    {
        match self.place(key) {
            Ok(at) => at,
            Err(at) => at,
        }
    }
}

impl<K: Ord + Copy + Drop, V: Drop> Chunk<K, V> {
    /// The key lies at this place.
    pub(crate) fn has_at(&self, at: usize, key: &K) -> bool
        ensures { result ≡ true → IsKeyAt K.cmp key.now self.now at }
    {
        let all = self.entries();
        if at < all.len() {
            key.cmp(&all[at].0).is_eq()
        } else {
            false
        }
    }

    /// The first entry whose key isn't below this one.
    pub(crate) fn first_from(&self, key: &K) -> Option<&(K, V)>
        requires { IsStrictlySortedBy K.cmp (keys_of self.now) }
        ensures { option_copied result ≡ first_from K.cmp self.now key.now }
    {
        let at = self.place_from(key);
        if at < self.len() {
            Some(self.entry(at))
        } else {
            None
        }
    }
}
