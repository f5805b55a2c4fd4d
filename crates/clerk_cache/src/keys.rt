// Keys in order, kept as the keys of a map to nothing.
ghost use Rattle.std.specs.Prelude.{◌≡◌, ◌+◌, ◌<◌, ◌≤◌, List, length, true, Some, IsOk, OnOk};
ghost use Rattle.sorted_entries.specs.Places.{IsKeyOrder};
ghost use Rattle.clerk_cache.specs.Keys.{with_key, without_key, IsApart};

use frang_base::NoMemory;
use ordered_map::{OrderedMap, Place};

/// Makes room for `held` and `n` more keys in all. Nothing else changes, whatever the answer. It takes no memory where there is that
/// room.
pub(crate) fn reserve<K: Ord + Copy + Drop>(
    keys: &mut OrderedMap<K, ()>,
    held: usize,
    n: usize,
) -> Result<(), NoMemory>
    ensures keys { keys.new.entries ≡ keys.old.entries }
    ensures ok { OnOk result (held + n ≤ keys.new.spare + length keys.new.entries) }
    ensures sure { held + n ≤ keys.old.spare + length keys.old.entries → IsOk result }
    ensures most { keys.old.spare + length keys.old.entries ≤ keys.new.spare + length keys.new.entries }
{
    let count = keys.count();
    match held.checked_add(n) {
        Some(most) => {
            keys.reserve(most.saturating_sub(count))?;
            Ok(())
        }
        None => Err(NoMemory),
    }
}

/// Takes a key out, where there is one. It looks for it at a place first, and takes no memory.
pub(crate) fn take_out<K: Ord + Copy + Drop>(
    keys: &mut OrderedMap<K, ()>,
    near: Option<Place>,
    key: Option<K>,
)
    ensures keys { keys.new.entries ≡ without_key K.cmp key keys.old.entries }
    ensures most { keys.new.spare + length keys.new.entries ≡ keys.old.spare + length keys.old.entries }
{
    if let Some(key) = key {
        let _ = keys.take_near(near, &key);
    }
}

// Puts a key in, where there is one. There is room for it.
fn put_in<K: Ord + Copy + Drop>(keys: &mut OrderedMap<K, ()>, key: Option<K>)
    requires { length keys.old.entries < keys.old.spare + length keys.old.entries }
    ensures keys { keys.new.entries ≡ with_key K.cmp key keys.old.entries }
    ensures most { keys.new.spare + length keys.new.entries ≡ keys.old.spare + length keys.old.entries }
{
    if let Some(key) = key {
        keys.put(key, ());
    }
}

// Both are the same key, or none.
fn are_same<K: Ord + Copy + Drop>(a: Option<K>, b: Option<K>) -> bool
    requires { IsKeyOrder K.cmp }
    ensures { result ≡ true → b ≡ a }
{
    match a {
        Some(a) => is_key(a, b),
        None => b.is_none(),
    }
}

// This is the key.
fn is_key<K: Ord + Copy + Drop>(a: K, b: Option<K>) -> bool
    requires { IsKeyOrder K.cmp }
    ensures { result ≡ true → b ≡ Some a }
{
    match b {
        Some(b) => a.cmp(&b).is_eq(),
        None => false,
    }
}

/// Puts a key in the place of another; each of the two may be missing. There is room for one more than all but the old key. It takes no
/// memory.
pub(crate) fn exchange<K: Ord + Copy + Drop>(
    keys: &mut OrderedMap<K, ()>,
    old: Option<K>,
    new: Option<K>,
)
    requires order { IsKeyOrder K.cmp }
    requires room { length (without_key K.cmp old keys.old.entries) < keys.old.spare + length keys.old.entries }
    ensures keys { (rest : List (K × Unit {0})) → keys.old.entries ≡ with_key K.cmp old rest → IsApart K.cmp old rest → keys.new.entries ≡ with_key K.cmp new rest }
    ensures most { keys.new.spare + length keys.new.entries ≡ keys.old.spare + length keys.old.entries }
{
    if are_same(old, new) {
        return;
    }
    take_out(keys, None, old);
    put_in(keys, new);
}
