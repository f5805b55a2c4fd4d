// The map.
ghost use Rattle.std.specs.Prelude.{◌≡◌, ◌+◌, ◌-◌, ◌*◌, ◌<◌, ◌≤◌, ◌++◌, [], None, Ok, length, slice_index_or, slice_set, IfSome, IsOk, IsSome, OnOk, OnErr, true, false};
ghost use Rattle.std.specs.List.{insert, remove, slice_get};
ghost use Rattle.std.specs.List.Sorted.{IsStrictlySortedBy, IsPartitionPoint};
ghost use Rattle.std.specs.Map.{lookup, remove_entry, keys_of};
ghost use Rattle.std.specs.BTreeMap.{insert_entry, is_at};
ghost use Rattle.std.specs.Option.{option_copied, option_map};
ghost use Rattle.ordered_map.specs.Chunks.{AreFilled, joined, chunk_at, flat, ends_below, AreClose, IsCloseBut, capacity, EndBelow, Reach, IsChunkOf, IsLocated};
ghost use Rattle.ordered_map.specs.Entries.{room_for, first_from};

use crate::chunk::{CHUNK, Chunk, Edit, HALF, QUARTER};
use crate::chunks::Chunks;
use std::alloc::{AllocError, Global};
use std::marker::Model;

/// A map whose keys are kept in order. Contracts see the list of its entries, ascending by key, and how many more go in without memory.
#[derive(Drop)]
pub struct OrderedMap<K: Ord, V> {
    chunks: Chunks<K, V>,
    count: usize,
    // Where the key of the last edit was found.
    last: Option<Place>,
}

impl<K: Ord, V> Model for OrderedMap<K, V> {
    ghost use Rattle.ordered_map.specs.Entries.{Ordered, ordered_code};
    ghost use Rattle.ordered_map.specs.Chunks.{map_of, IsChunked};

    ghost Value = { Ordered K V };

    ghost coded = { ordered_code K.code V.code };

    ghost view = { λ m. map_of m.chunks };

    ghost invariant = { λ m. IsChunked K.cmp m.chunks.chunks m.chunks.blank m.count };
}

/// The place of an entry: its chunk, and where it is there or would go.
#[derive(Clone, Copy)]
struct Spot {
    chunk: usize,
    at: Result<usize, usize>,
}

/// A place in a map at which a key was found. Where a map of the same keys came about by the same edits, the key lies there too: a search
/// that is given a place looks there first, and then goes on from its chunk in steps that double; only a key that lies before that chunk is
/// searched for among all. So keys that ascend, each looked for from the place of the one before, are found in one pass over the chunks
/// that never turns back. What a search answers doesn't depend on the place.
#[derive(Clone, Copy)]
pub struct Place {
    chunk: usize,
    at: usize,
}

// The chunk at a place.
fn nth<K, V>(chunks: &[Chunk<K, V>], chunk: usize) -> &Chunk<K, V>
    requires { chunk < length chunks.now }
    ensures { result.now ≡ chunk_at chunks.now chunk }
{
    &chunks[chunk]
}

// The first chunk that doesn't end below the key, or as many as there are where all do.
fn first_reaching<K: Ord + Copy, V>(chunks: &[Chunk<K, V>], key: &K) -> usize
    requires filled { AreFilled chunks.now }
    requires ordered { IsStrictlySortedBy K.cmp (keys_of (joined chunks.now)) }
    ensures bound { result ≤ length chunks.now }
    ensures point { IsPartitionPoint (λ chunk. ends_below K.cmp key.now chunk ≡ true) (λ chunk. ends_below K.cmp key.now chunk ≡ false) chunks.now result }
{
    chunks.partition_point(|chunk| chunk.ends_below(key))
}

// The chunk ends below the key, and so do all before it; or none from it on does.
fn is_below<K: Ord + Copy, V>(chunks: &[Chunk<K, V>], key: &K, chunk: usize) -> bool
    requires inside { chunk < length chunks.now }
    requires filled { AreFilled chunks.now }
    requires ordered { IsStrictlySortedBy K.cmp (keys_of (joined chunks.now)) }
    ensures below { result ≡ true → EndBelow K.cmp key.now chunks.now (chunk + 1) }
    ensures reach { result ≡ false → Reach K.cmp key.now chunks.now chunk }
{
    nth(chunks, chunk).ends_below(key)
}

// Chunks among which the first is that doesn't end below a key, or which it follows: those before `low` end below, those from `high` on don't.
#[derive(Clone, Copy)]
struct Span {
    low: usize,
    high: usize,
}

// Such a span, where the chunks before `from` end below the key. It goes on from there in steps that double.
fn gallop<K: Ord + Copy, V>(chunks: &[Chunk<K, V>], key: &K, from: usize) -> Span
    requires inside { from ≤ length chunks.now }
    requires below { EndBelow K.cmp key.now chunks.now from }
    requires filled { AreFilled chunks.now }
    requires ordered { IsStrictlySortedBy K.cmp (keys_of (joined chunks.now)) }
    ensures order { result.low ≤ result.high }
    ensures bound { result.high ≤ length chunks.now }
    ensures low { EndBelow K.cmp key.now chunks.now result.low }
    ensures high { Reach K.cmp key.now chunks.now result.high }
{
    let mut low = from;
    let mut step = 1;
    while step <= chunks.len() - low {
        let next = low + step;
        if !is_below(chunks, key, next - 1) {
            return Span {
                low,
                high: next - 1,
            };
        }
        low = next;
        step = step.saturating_mul(2);
    }
    Span {
        low,
        high: chunks.len(),
    }
}

// The first chunk of a span that doesn't end below the key, or its end.
fn halve<K: Ord + Copy, V>(chunks: &[Chunk<K, V>], key: &K, span: Span) -> usize
    requires order { span.low ≤ span.high }
    requires bound { span.high ≤ length chunks.now }
    requires low { EndBelow K.cmp key.now chunks.now span.low }
    requires high { Reach K.cmp key.now chunks.now span.high }
    requires filled { AreFilled chunks.now }
    requires ordered { IsStrictlySortedBy K.cmp (keys_of (joined chunks.now)) }
    ensures bound { result ≤ length chunks.now }
    ensures point { IsPartitionPoint (λ chunk. ends_below K.cmp key.now chunk ≡ true) (λ chunk. ends_below K.cmp key.now chunk ≡ false) chunks.now result }
{
    let mut low = span.low;
    let mut high = span.high;
    while low < high {
        let middle = low + (high - low) / 2;
        if is_below(chunks, key, middle) {
            low = middle + 1;
        } else {
            high = middle;
        }
    }
    low
}

// The first chunk that doesn't end below the key, where those before `from` do: it goes on from there, and never looks at one before.
fn walk_on<K: Ord + Copy, V>(chunks: &[Chunk<K, V>], key: &K, from: usize) -> usize
    requires inside { from ≤ length chunks.now }
    requires below { EndBelow K.cmp key.now chunks.now from }
    requires filled { AreFilled chunks.now }
    requires ordered { IsStrictlySortedBy K.cmp (keys_of (joined chunks.now)) }
    ensures bound { result ≤ length chunks.now }
    ensures point { IsPartitionPoint (λ chunk. ends_below K.cmp key.now chunk ≡ true) (λ chunk. ends_below K.cmp key.now chunk ≡ false) chunks.now result }
{
    halve(chunks, key, gallop(chunks, key, from))
}

// There is such a chunk, and those before it end below the key.
fn is_behind<K: Ord + Copy, V>(chunks: &[Chunk<K, V>], key: &K, chunk: usize) -> bool
    requires filled { AreFilled chunks.now }
    requires ordered { IsStrictlySortedBy K.cmp (keys_of (joined chunks.now)) }
    ensures inside { result ≡ true → chunk < length chunks.now }
    ensures below { result ≡ true → EndBelow K.cmp key.now chunks.now chunk }
{
    if chunk < chunks.len() {
        chunk == 0 || is_below(chunks, key, chunk - 1)
    } else {
        false
    }
}

// The same, looked for from a chunk on where those before it end below the key.
fn first_reaching_from<K: Ord + Copy, V>(chunks: &[Chunk<K, V>], key: &K, from: usize) -> usize
    requires filled { AreFilled chunks.now }
    requires ordered { IsStrictlySortedBy K.cmp (keys_of (joined chunks.now)) }
    ensures bound { result ≤ length chunks.now }
    ensures point { IsPartitionPoint (λ chunk. ends_below K.cmp key.now chunk ≡ true) (λ chunk. ends_below K.cmp key.now chunk ≡ false) chunks.now result }
{
    if is_behind(chunks, key, from) {
        walk_on(chunks, key, from)
    } else {
        first_reaching(chunks, key)
    }
}

// The same, where a place may be given.
fn first_reaching_near<K: Ord + Copy, V>(
    chunks: &[Chunk<K, V>],
    key: &K,
    near: Option<Place>,
) -> usize
    requires filled { AreFilled chunks.now }
    requires ordered { IsStrictlySortedBy K.cmp (keys_of (joined chunks.now)) }
    ensures bound { result ≤ length chunks.now }
    ensures point { IsPartitionPoint (λ chunk. ends_below K.cmp key.now chunk ≡ true) (λ chunk. ends_below K.cmp key.now chunk ≡ false) chunks.now result }
{
    match near {
        Some(place) => first_reaching_from(chunks, key, place.chunk),
        None => first_reaching(chunks, key),
    }
}

// The chunk in which a key is or would go. There are chunks.
fn chunk_of<K: Ord + Copy, V>(chunks: &[Chunk<K, V>], key: &K, near: Option<Place>) -> usize
    requires filled { AreFilled chunks.now }
    requires ordered { IsStrictlySortedBy K.cmp (keys_of (joined chunks.now)) }
    requires some { 0 < length chunks.now }
    ensures { IsChunkOf K.cmp key.now chunks.now result }
{
    let first = first_reaching_near(chunks, key, near);
    if first < chunks.len() {
        first
    } else {
        chunks.len() - 1
    }
}

// Where a key is or would go. `None` exactly where there are no chunks.
fn locate<K: Ord + Copy, V>(chunks: &[Chunk<K, V>], key: &K, near: Option<Place>) -> Option<Spot>
    requires filled { AreFilled chunks.now }
    requires ordered { IsStrictlySortedBy K.cmp (keys_of (joined chunks.now)) }
    ensures none { result ≡ None → chunks.now ≡ [] }
    ensures some { IfSome result (λ spot. IsLocated K.cmp key.now chunks.now spot.chunk spot.at) }
{
    if chunks.is_empty() {
        return None;
    }
    let chunk = chunk_of(chunks, key, near);
    let at = nth(chunks, chunk).place(key);
    Some(Spot { chunk, at })
}

// The key lies at this place.
fn is_there<K: Ord + Copy + Drop, V: Drop>(chunks: &[Chunk<K, V>], key: &K, place: Place) -> bool
    requires ordered { IsStrictlySortedBy K.cmp (keys_of (joined chunks.now)) }
    ensures { result ≡ true → IsLocated K.cmp key.now chunks.now place.chunk (Ok place.at) }
{
    let chunk = place.chunk;
    if chunk < chunks.len() {
        nth(chunks, chunk).has_at(place.at, key)
    } else {
        false
    }
}

// Where a key is or would go, looked for at a place first. `None` exactly where there are no chunks.
fn locate_at<K: Ord + Copy + Drop, V: Drop>(
    chunks: &[Chunk<K, V>],
    key: &K,
    place: Place,
) -> Option<Spot>
    requires filled { AreFilled chunks.now }
    requires ordered { IsStrictlySortedBy K.cmp (keys_of (joined chunks.now)) }
    ensures none { result ≡ None → chunks.now ≡ [] }
    ensures some { IfSome result (λ spot. IsLocated K.cmp key.now chunks.now spot.chunk spot.at) }
{
    if is_there(chunks, key, place) {
        Some(Spot {
            chunk: place.chunk,
            at: Ok(place.at),
        })
    } else {
        locate(chunks, key, Some(place))
    }
}

// The same, where a place may be given.
fn locate_near<K: Ord + Copy + Drop, V: Drop>(
    chunks: &[Chunk<K, V>],
    key: &K,
    near: Option<Place>,
) -> Option<Spot>
    requires filled { AreFilled chunks.now }
    requires ordered { IsStrictlySortedBy K.cmp (keys_of (joined chunks.now)) }
    ensures none { result ≡ None → chunks.now ≡ [] }
    ensures some { IfSome result (λ spot. IsLocated K.cmp key.now chunks.now spot.chunk spot.at) }
{
    match near {
        Some(place) => locate_at(chunks, key, place),
        None => locate(chunks, key, None),
    }
}

// The entry at a place of a chunk.
fn entry_of<K: Copy + Drop, V: Drop>(chunks: &[Chunk<K, V>], chunk: usize, at: usize) -> &(K, V)
    requires inside { chunk < length chunks.now }
    requires place { at < length (chunk_at chunks.now chunk) }
    ensures { result.now ≡ slice_index_or (chunk_at chunks.now chunk) at result.now }
{
    nth(chunks, chunk).entry(at)
}

// How many entries a chunk has.
fn count_in<K: Copy + Drop, V: Drop>(chunks: &Chunks<K, V>, chunk: usize) -> usize
    requires { chunk < length chunks.now.chunks }
    ensures count { result ≡ length (chunk_at chunks.now.chunks chunk) }
    ensures fits { chunk < usize.MAX }
{
    nth(chunks.all(), chunk).len()
}

// The entry at a place among all.
fn entry_at<K: Copy + Drop, V: Drop>(chunks: &[Chunk<K, V>], i: usize) -> Option<&(K, V)>
    ensures { option_copied result ≡ slice_get (joined chunks.now) i }
{
    let mut rest = i;
    for chunk in chunks {
        if rest < chunk.len() {
            return Some(chunk.entry(rest));
        }
        rest -= chunk.len();
    }
    None
}

// Splits a chunk where it is full. Where the place then is.
fn make_way<K: Copy + Drop, V: Drop>(chunks: &mut Chunks<K, V>, chunk: usize, at: usize) -> Place
    requires inside { chunk < length chunks.old.chunks }
    requires place { at ≤ length (chunk_at chunks.old.chunks chunk) }
    requires filled { AreFilled chunks.old.chunks }
    requires close { AreClose chunks.old.chunks }
    requires blank { 0 < chunks.old.blank }
    ensures same { joined chunks.new.chunks ≡ joined chunks.old.chunks }
    ensures flat { flat chunks.new.chunks result.chunk result.at ≡ flat chunks.old.chunks chunk at }
    ensures inside { result.chunk < length chunks.new.chunks }
    ensures place { result.at ≤ length (chunk_at chunks.new.chunks result.chunk) }
    ensures room { length (chunk_at chunks.new.chunks result.chunk) < CHUNK }
    ensures filled { AreFilled chunks.new.chunks }
    ensures close { AreClose chunks.new.chunks }
    ensures all { length chunks.new.chunks + chunks.new.blank ≡ length chunks.old.chunks + chunks.old.blank }
{
    let count = count_in(chunks, chunk);
    if count < CHUNK {
        return Place { chunk, at };
    }
    chunks.split(chunk);
    if at <= HALF {
        Place { chunk, at }
    } else {
        Place {
            chunk: chunk + 1,
            at: at - HALF,
        }
    }
}

// Puts an entry in at a place.
fn put_in<K: Copy + Drop, V: Drop>(
    chunks: &mut Chunks<K, V>,
    chunk: usize,
    at: usize,
    key: K,
    value: V,
)
    requires inside { chunk < length chunks.old.chunks }
    requires place { at ≤ length (chunk_at chunks.old.chunks chunk) }
    requires filled { AreFilled chunks.old.chunks }
    requires close { AreClose chunks.old.chunks }
    requires blank { 0 < chunks.old.blank }
    ensures entries { joined chunks.new.chunks ≡ insert (joined chunks.old.chunks) (flat chunks.old.chunks chunk at) (key, value) }
    ensures filled { AreFilled chunks.new.chunks }
    ensures close { AreClose chunks.new.chunks }
    ensures all { length chunks.new.chunks + chunks.new.blank ≡ length chunks.old.chunks + chunks.old.blank }
{
    let place = make_way(chunks, chunk, at);
    chunks.insert(place.chunk, place.at, key, value);
}

// A chunk and the next one hold few entries.
fn are_few<K: Copy + Drop, V: Drop>(chunks: &[Chunk<K, V>], chunk: usize) -> bool
    requires { chunk + 1 < length chunks.now }
    ensures few { result ≡ true → length (chunk_at chunks.now chunk) + length (chunk_at chunks.now (chunk + 1)) ≤ HALF }
    ensures many { result ≡ false → HALF < length (chunk_at chunks.now chunk) + length (chunk_at chunks.now (chunk + 1)) }
{
    let first = nth(chunks, chunk).len();
    let second = nth(chunks, chunk + 1).len();
    first <= HALF && second <= HALF - first
}

// There is a next chunk, and the two hold few entries.
fn is_few_with_next<K: Copy + Drop, V: Drop>(chunks: &Chunks<K, V>, chunk: usize) -> bool
    requires { chunk < length chunks.now.chunks }
    ensures few { result ≡ true → (chunk + 1 < length chunks.now.chunks) × (length (chunk_at chunks.now.chunks chunk) + length (chunk_at chunks.now.chunks (chunk + 1)) ≤ HALF) }
    ensures many { result ≡ false → chunk + 1 < length chunks.now.chunks → HALF < length (chunk_at chunks.now.chunks chunk) + length (chunk_at chunks.now.chunks (chunk + 1)) }
{
    let count = chunks.all().len();
    chunk + 1 < count && are_few(chunks.all(), chunk)
}

// There is a chunk before, and the two hold few entries.
fn is_few_with_last<K: Copy + Drop, V: Drop>(chunks: &Chunks<K, V>, chunk: usize) -> bool
    requires { chunk < length chunks.now.chunks }
    ensures few { result ≡ true → (0 < chunk) × (length (chunk_at chunks.now.chunks (chunk - 1)) + length (chunk_at chunks.now.chunks (chunk - 1 + 1)) ≤ HALF) }
    ensures many { result ≡ false → 0 < chunk → HALF < length (chunk_at chunks.now.chunks (chunk - 1)) + length (chunk_at chunks.now.chunks (chunk - 1 + 1)) }
{
    chunk > 0 && are_few(chunks.all(), chunk - 1)
}

// Moves all entries of a chunk to the one before.
fn merge_with_last<K: Copy + Drop, V: Drop>(chunks: &mut Chunks<K, V>, chunk: usize)
    requires some { 0 < chunk }
    requires inside { chunk < length chunks.old.chunks }
    requires few { length (chunk_at chunks.old.chunks (chunk - 1)) + length (chunk_at chunks.old.chunks (chunk - 1 + 1)) ≤ CHUNK }
    ensures chunks { chunks.new.chunks ≡ slice_set (remove chunks.old.chunks (chunk - 1 + 1)) (chunk - 1) (chunk_at chunks.old.chunks (chunk - 1) ++ chunk_at chunks.old.chunks (chunk - 1 + 1)) }
    ensures blank { chunks.new.blank ≡ chunks.old.blank + 1 }
{
    chunks.merge(chunk - 1);
}

// Merges a chunk with a neighbour, where the two hold few entries.
fn settle<K: Copy + Drop, V: Drop>(chunks: &mut Chunks<K, V>, chunk: usize)
    requires inside { chunk < length chunks.old.chunks }
    requires filled { AreFilled chunks.old.chunks }
    requires close { IsCloseBut chunks.old.chunks chunk }
    ensures same { joined chunks.new.chunks ≡ joined chunks.old.chunks }
    ensures filled { AreFilled chunks.new.chunks }
    ensures close { AreClose chunks.new.chunks }
    ensures all { length chunks.new.chunks + chunks.new.blank ≡ length chunks.old.chunks + chunks.old.blank }
{
    if is_few_with_next(chunks, chunk) {
        chunks.merge(chunk);
    } else if is_few_with_last(chunks, chunk) {
        merge_with_last(chunks, chunk);
    }
}

// How many blank chunks there must be beside these chunks of so many entries for `n` more. `None` where that is too many.
fn blanks_for(count: usize, chunks: usize, n: usize) -> Option<usize>
    requires { QUARTER * chunks ≤ usize.MAX }
    ensures enough { IfSome result (λ blanks. count + n ≤ capacity (chunks + blanks)) }
    ensures small { IfSome result (λ blanks. QUARTER * (chunks + blanks) ≤ usize.MAX) }
{
    let most = count.checked_add(n)?;
    if most > usize::MAX - 2 * QUARTER {
        return None;
    }
    Some((most / QUARTER + 2).saturating_sub(chunks))
}

// Takes the entry at a place out, and answers its value.
fn take_out<K: Copy + Drop, V: Drop>(chunks: &mut Chunks<K, V>, chunk: usize, at: usize) -> V
    requires inside { chunk < length chunks.old.chunks }
    requires place { at < length (chunk_at chunks.old.chunks chunk) }
    requires filled { AreFilled chunks.old.chunks }
    requires close { AreClose chunks.old.chunks }
    ensures entries { joined chunks.new.chunks ≡ remove (joined chunks.old.chunks) (flat chunks.old.chunks chunk at) }
    ensures filled { AreFilled chunks.new.chunks }
    ensures close { AreClose chunks.new.chunks }
    ensures all { length chunks.new.chunks + chunks.new.blank ≡ length chunks.old.chunks + chunks.old.blank }
    ensures value { (d : K × V) → result ≡ (slice_index_or (chunk_at chunks.old.chunks chunk) at d).1 }
{
    let count = count_in(chunks, chunk);
    let value = chunks.take(chunk, at);
    if count == 1 {
        chunks.discard(chunk);
        value
    } else {
        settle(chunks, chunk);
        value
    }
}

impl<K: Ord + Copy + Drop, V: Drop> OrderedMap<K, V> {
    /// No entries. It takes no memory.
    pub fn new(alloc: Global) -> Self
        ensures entries { result.entries ≡ [] }
        ensures spare { result.spare ≡ 0 }
    {
        OrderedMap {
            chunks: Chunks::new(alloc),
            count: 0,
            last: None,
        }
    }

    /// How many entries there are.
    pub fn count(&self) -> usize
        ensures count { result ≡ length self.now.entries }
        ensures most { self.now.spare + length self.now.entries ≤ usize.MAX }
        ensures ordered { IsStrictlySortedBy K.cmp (keys_of self.now.entries) }
    {
        self.count
    }

    /// The entries, in pieces that follow one another.
    pub fn chunks(&self) -> &[Chunk<K, V>]
        ensures { joined result.now ≡ self.now.entries }
    {
        self.chunks.all()
    }

    /// The value at a key. `None` exactly where there is no entry with the key.
    pub fn get(&self, key: &K) -> Option<&V>
        ensures { option_copied result ≡ lookup (is_at (K.cmp key.now)) self.now.entries }
    {
        match self.find(key) {
            Some(found) => Some(found.1),
            None => None,
        }
    }

    /// The value at a key, and the place where it lies. `None` exactly where there is no entry with the key.
    pub fn find(&self, key: &K) -> Option<(Place, &V)>
        ensures { option_map (λ found. found.1.now) result ≡ lookup (is_at (K.cmp key.now)) self.now.entries }
    {
        let chunks = self.chunks.all();
        let spot = locate(chunks, key, None)?;
        let chunk = spot.chunk;
        match spot.at {
            Ok(at) => Some((Place { chunk, at }, &entry_of(chunks, chunk, at).1)),
            Err(_) => None,
        }
    }

    /// The place where the key of the last edit was found, but for `update`. `None` where it went in anew.
    pub fn last_place(&self) -> Option<Place> {
        self.last
    }

    /// The entry at a place, counted from 0 and ascending. `None` exactly where the place isn't below `count`. It takes time
    /// proportional to the number of chunks.
    pub fn at(&self, i: usize) -> Option<&(K, V)>
        ensures { option_copied result ≡ slice_get self.now.entries i }
    {
        entry_at(self.chunks.all(), i)
    }

    /// The first entry. `None` exactly where there are none.
    pub fn first(&self) -> Option<&(K, V)>
        ensures { option_copied result ≡ slice_get self.now.entries 0 }
    {
        self.chunks.all().first()?.entries().first()
    }

    /// The first entry whose key isn't below this one. `None` exactly where all keys are below.
    pub fn first_from(&self, key: &K) -> Option<&(K, V)>
        ensures { option_copied result ≡ first_from K.cmp self.now.entries key.now }
    {
        self.first_from_near(None, key)
    }

    /// The same, looking for the key from the chunk of a place on.
    pub fn first_from_near(&self, near: Option<Place>, key: &K) -> Option<&(K, V)>
        ensures { option_copied result ≡ first_from K.cmp self.now.entries key.now }
    {
        let chunks = self.chunks.all();
        let first = first_reaching_near(chunks, key, near);
        if first < chunks.len() {
            nth(chunks, first).first_from(key)
        } else {
            None
        }
    }

    /// Makes room for `n` more entries. Nothing else changes, whatever the answer. It takes no memory where there is that room.
    pub fn reserve(&mut self, n: usize) -> Result<(), AllocError>
        ensures entries { self.new.entries ≡ self.old.entries }
        ensures ok { OnOk result (n ≤ self.new.spare) }
        ensures sure { n ≤ self.old.spare → IsOk result }
        ensures spare { self.old.spare ≤ self.new.spare }
    {
        if n <= self.spare() {
            return Ok(());
        }
        match blanks_for(self.count, self.chunks.all().len(), n) {
            Some(blanks) => self.chunks.reserve(blanks),
            None => Err(AllocError),
        }
    }

    // How many more entries have room.
    fn spare(&self) -> usize
        ensures { result ≡ self.now.spare }
    {
        let all = self.chunks.all().len() + self.chunks.blank();
        QUARTER * all.saturating_sub(1) - self.count
    }

    /// Gives a key a value, and answers the one that it had. It has one already, or there is room. It takes no memory.
    pub fn replace(&mut self, key: K, value: V) -> Option<V>
        requires { room_for K.cmp self.old.entries key ≤ self.old.spare }
        ensures before { result ≡ lookup (is_at (K.cmp key)) self.old.entries }
        ensures entries { self.new.entries ≡ insert_entry K.cmp self.old.entries key value }
        ensures spare { self.new.spare + room_for K.cmp self.old.entries key ≡ self.old.spare }
        ensures all { self.new.spare + length self.new.entries ≡ self.old.spare + length self.old.entries }
    {
        self.replace_near(None, key, value)
    }

    /// The same, looking for the key at a place first.
    pub fn replace_near(&mut self, near: Option<Place>, key: K, value: V) -> Option<V>
        requires { room_for K.cmp self.old.entries key ≤ self.old.spare }
        ensures before { result ≡ lookup (is_at (K.cmp key)) self.old.entries }
        ensures entries { self.new.entries ≡ insert_entry K.cmp self.old.entries key value }
        ensures spare { self.new.spare + room_for K.cmp self.old.entries key ≡ self.old.spare }
        ensures all { self.new.spare + length self.new.entries ≡ self.old.spare + length self.old.entries }
    {
        match locate_near(self.chunks.all(), &key, near) {
            Some(spot) => match spot.at {
                Ok(at) => {
                    self.last = Some(Place {
                        chunk: spot.chunk,
                        at,
                    });
                    Some(self.chunks.exchange(spot.chunk, at, value))
                }
                Err(at) => {
                    put_in(&mut self.chunks, spot.chunk, at, key, value);
                    self.count += 1;
                    self.last = None;
                    None
                }
            },
            None => {
                self.chunks.begin(key, value);
                self.count += 1;
                self.last = None;
                None
            }
        }
    }

    /// Gives a key a value. It has one already, or there is room. It takes no memory.
    pub fn put(&mut self, key: K, value: V)
        requires { room_for K.cmp self.old.entries key ≤ self.old.spare }
        ensures entries { self.new.entries ≡ insert_entry K.cmp self.old.entries key value }
        ensures spare { self.new.spare + room_for K.cmp self.old.entries key ≡ self.old.spare }
        ensures all { self.new.spare + length self.new.entries ≡ self.old.spare + length self.old.entries }
    {
        let _ = self.replace(key, value);
    }

    /// Changes the value of a key that has one. It takes no memory.
    pub fn change<E: Edit<V>>(&mut self, key: &K, edit: &E)
        requires { IsSome (lookup (is_at (K.cmp key.now)) self.old.entries) }
        ensures entries { IfSome (lookup (is_at (K.cmp key.now)) self.old.entries) (λ value. self.new.entries ≡ insert_entry K.cmp self.old.entries key.now (E.edited edit.now value)) }
        ensures spare { self.new.spare ≡ self.old.spare }
        ensures count { length self.new.entries ≡ length self.old.entries }
    {
        match locate(self.chunks.all(), key, None) {
            Some(spot) => match spot.at {
                Ok(at) => {
                    self.last = Some(Place {
                        chunk: spot.chunk,
                        at,
                    });
                    self.chunks.change(spot.chunk, at, edit);
                }
                Err(_) => unreachable!(),
            },
            None => unreachable!(),
        }
    }

    /// The key has no value afterwards, and all others keep theirs. It answers the value that the key had, and takes no memory.
    pub fn take(&mut self, key: &K) -> Option<V>
        ensures before { result ≡ lookup (is_at (K.cmp key.now)) self.old.entries }
        ensures entries { self.new.entries ≡ remove_entry (is_at (K.cmp key.now)) self.old.entries }
        ensures spare { self.old.spare ≤ self.new.spare }
        ensures all { self.new.spare + length self.new.entries ≡ self.old.spare + length self.old.entries }
    {
        self.take_near(None, key)
    }

    /// The same, looking for the key at a place first.
    pub fn take_near(&mut self, near: Option<Place>, key: &K) -> Option<V>
        ensures before { result ≡ lookup (is_at (K.cmp key.now)) self.old.entries }
        ensures entries { self.new.entries ≡ remove_entry (is_at (K.cmp key.now)) self.old.entries }
        ensures spare { self.old.spare ≤ self.new.spare }
        ensures all { self.new.spare + length self.new.entries ≡ self.old.spare + length self.old.entries }
    {
        match locate_near(self.chunks.all(), key, near) {
            Some(spot) => match spot.at {
                Ok(at) => {
                    self.last = Some(Place {
                        chunk: spot.chunk,
                        at,
                    });
                    let value = take_out(&mut self.chunks, spot.chunk, at);
                    self.count -= 1;
                    Some(value)
                }
                Err(_) => None,
            },
            None => None,
        }
    }

    /// The key has no value afterwards, and all others keep theirs. It takes no memory.
    pub fn remove(&mut self, key: &K)
        ensures entries { self.new.entries ≡ remove_entry (is_at (K.cmp key.now)) self.old.entries }
        ensures spare { self.old.spare ≤ self.new.spare }
        ensures all { self.new.spare + length self.new.entries ≡ self.old.spare + length self.old.entries }
    {
        let _ = self.take(key);
    }
}

impl<K: Ord + Copy + Drop, V: Copy + Drop> OrderedMap<K, V> {
    /// Changes the value of a key, where it has one, and answers what that was. It looks for the key at a place first, and takes no memory.
    pub fn update<E: Edit<V>>(&mut self, near: Option<Place>, key: &K, edit: &E) -> Option<V>
        ensures before { result ≡ lookup (is_at (K.cmp key.now)) self.old.entries }
        ensures entries { IfSome result (λ value. self.new.entries ≡ insert_entry K.cmp self.old.entries key.now (E.edited edit.now value)) }
        ensures missing { result ≡ None → self.new.entries ≡ self.old.entries }
        ensures spare { self.new.spare ≡ self.old.spare }
        ensures count { length self.new.entries ≡ length self.old.entries }
    {
        match locate_near(self.chunks.all(), key, near) {
            Some(spot) => match spot.at {
                Ok(at) => {
                    let value = entry_of(self.chunks.all(), spot.chunk, at).1;
                    self.chunks.change(spot.chunk, at, edit);
                    Some(value)
                }
                Err(_) => None,
            },
            None => None,
        }
    }
}
