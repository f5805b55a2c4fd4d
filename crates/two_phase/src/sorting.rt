// A set of locks made in place.
ghost use Rattle.std.specs.Prelude.{◌≡◌, ◌<◌, ◌≤◌, ◌++◌, [], length, take, drop, vec_capacity, vec_len};
ghost use Rattle.std.specs.List.Sorted.{IsStrictlySortedBy};
ghost use Rattle.std.specs.Map.{keys_of};
ghost use Rattle.lock_definitions.specs.Order.{lock_cmp};
ghost use Rattle.set_definitions.specs.Sets.{joined, joined_all};

use frang_base::{LockId, Mode};
use lock_sets::{place_of, with_mode};

/// Makes a set of locks as they are found: ascending, each once, sole where it was found sole. It takes no memory, and time quadratic in their number.
pub fn sort_set(set: &mut Vec<(LockId, Mode)>)
    ensures { set.new.items ≡ joined_all [] set.old.items }
{
    let mut count = 0;
    while count < set.len() {
        let need = set.remove(count);
        count = join_front(set, count, need);
    }
}

// A lock joins the set that the first ones are; there is room for it. How many the set has then.
fn join_front(set: &mut Vec<(LockId, Mode)>, count: usize, need: (LockId, Mode)) -> usize
    requires inside { count ≤ vec_len set.old }
    requires room { vec_len set.old < vec_capacity set.old }
    requires ordered { IsStrictlySortedBy lock_cmp (keys_of (take count set.old.items)) }
    ensures items { set.new.items ≡ joined (take count set.old.items) need ++ drop count set.old.items }
    ensures count { result ≡ length (joined (take count set.old.items) need) }
{
    match place_of(&set[..count], need.0) {
        Ok(at) => {
            set[at] = (need.0, with_mode(Some(set[at].1), need.1));
            count
        }
        Err(at) => match set.insert(at, need) {
            Ok(()) => count + 1,
            Err(_) => unreachable!(),
        },
    }
}
