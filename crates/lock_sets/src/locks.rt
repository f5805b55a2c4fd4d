// Locks with the modes in which they are needed, in order.
ghost use Rattle.std.specs.Prelude.{◌≡◌, IfOk, None, OnErr, OnOk};
ghost use Rattle.std.specs.BTreeMap.{insert_entry};
ghost use Rattle.std.specs.List.{prefix_len};
ghost use Rattle.std.specs.List.Sorted.{IsStrictlySortedBy};
ghost use Rattle.std.specs.Map.{keys_of};
ghost use Rattle.lock_definitions.specs.Order.{lock_cmp};
ghost use Rattle.sorted_entries.specs.Places.{place_of};
ghost use Rattle.set_definitions.specs.Sets.{is_served, mode_in, segments_in, to_ask};

use crate::modes::is_unserved;
use frang_base::{LockId, Mode, NoMemory, ServerId};
use lock_table::LockTable;
use std::alloc::Global;

/// The lock's place among these, which ascend, or the place where it would go. It takes time logarithmic in their number.
pub fn place_of(locks: &[(LockId, Mode)], lock: LockId) -> Result<usize, usize>
    requires { IsStrictlySortedBy lock_cmp (keys_of locks.now) }
    ensures place { result ≡ place_of lock_cmp lock locks.now }
    ensures missing { OnErr result (mode_in locks.now lock ≡ None) }
{
    locks.binary_search_by(|need| need.0.cmp(&lock))
}

/// The lock has this mode from now on, at its place or at the place where it would go. After `NoMemory` they are as before.
pub(crate) fn put(
    locks: &mut Vec<(LockId, Mode)>,
    place: Result<usize, usize>,
    lock: LockId,
    mode: Mode,
) -> Result<(), NoMemory>
    requires { place ≡ place_of lock_cmp lock locks.old.items }
    ensures ok { OnOk result (locks.new.items ≡ insert_entry lock_cmp locks.old.items lock mode) }
    ensures err { OnErr result (locks.new.items ≡ locks.old.items) }
{
    match place {
        Ok(at) => {
            locks[at] = (lock, mode);
            Ok(())
        }
        Err(at) => {
            locks.insert(at, (lock, mode))?;
            Ok(())
        }
    }
}

/// The segments whose locks are among these, in order.
pub(crate) fn segments_in(alloc: Global, locks: &[(LockId, Mode)]) -> Result<Vec<u32>, NoMemory>
    ensures { IfOk result (λ segments. segments.items ≡ segments_in locks.now) }
{
    let mut segments = Vec::new(alloc);
    for need in locks {
        if let LockId::Segment(segment) = need.0 {
            segments.push(segment)?;
        }
    }
    Ok(segments)
}

/// The first that a server holds in neither mode that serves it.
pub(crate) fn first_unserved(
    locks: &[(LockId, Mode)],
    table: &LockTable,
    server: ServerId,
) -> Option<(LockId, Mode)>
    ensures { result ≡ to_ask table.now.locks server.0 locks.now }
{
    for need in locks {
        let missing = is_unserved(table, server, need);
        if missing {
            return Some(*need);
        }
    }
    None
}

/// How many from the first on a server holds.
pub(crate) fn served(locks: &[(LockId, Mode)], table: &LockTable, server: ServerId) -> usize
    ensures { result ≡ prefix_len (is_served table.now.locks server.0) locks.now }
{
    let mut count = 0;
    for need in locks {
        let missing = is_unserved(table, server, need);
        if missing {
            return count;
        }
        count += 1;
    }
    count
}
