// The claims on all locks, in order of the locks.
ghost use Rattle.std.specs.Prelude.{◌≡◌, [], IsOk, IsSome, IfOk, OnOk, OnErr};
ghost use Rattle.std.specs.List.Sorted.{IsStrictlySortedBy};
ghost use Rattle.std.specs.Map.{lookup, remove_entry, keys_of};
ghost use Rattle.std.specs.BTreeMap.{insert_entry};
ghost use Rattle.std.specs.Option.{option_copied};
ghost use Rattle.lock_definitions.specs.Order.{lock_cmp, is_lock};
ghost use Rattle.lock_table.specs.Kept.{placed, replaced, is_reserved, unreserved, is_needed, ended, ended_all};

use crate::claimed::Claimed;
use frang_base::{LockId, NoMemory, ServerId};
use std::alloc::Global;
use std::collections::BTreeMap;
use std::marker::Model;

/// The claims on each lock, seen as the list of them, ascending by lock. A lock is found in time logarithmic in their number.
#[derive(Drop)]
pub(crate) struct LockMap {
    claims: BTreeMap<LockId, Claimed>,
}

impl Model for LockMap {
    ghost use Rattle.std.specs.Prelude.{List};
    ghost use Rattle.std.specs.List.Sorted.{IsStrictlySortedBy};
    ghost use Rattle.std.specs.Map.{keys_of};
    ghost use Rattle.frang_base.specs.declared.lock.LockId.{LockId};
    ghost use Rattle.lock_definitions.specs.declared.claim.Claim.{Claim};
    ghost use Rattle.lock_definitions.specs.Order.{lock_cmp};

    ghost Value = { List (LockId × List Claim) };

    ghost view = { λ map. map.claims.entries };

    ghost invariant = { λ map. IsStrictlySortedBy lock_cmp (keys_of map.claims.entries) };
}

/// Whether a lock is the one that is kept without claims.
pub(crate) fn is_reserved(reserved: Option<LockId>, lock: LockId) -> bool
    ensures { result ≡ is_reserved reserved lock }
{
    match reserved {
        Some(kept) => kept.cmp(&lock).is_eq(),
        None => false,
    }
}

/// The lock that is kept without claims, but for this one.
pub(crate) fn unreserved(reserved: Option<LockId>, lock: LockId) -> Option<LockId>
    ensures { result ≡ unreserved reserved lock }
{
    if is_reserved(reserved, lock) {
        None
    } else {
        reserved
    }
}

// Ends a server's claim. Whether the lock's entry is needed then.
fn end_claim(claimed: &mut Claimed, dead: ServerId, lock: LockId, reserved: Option<LockId>) -> bool
    ensures claims { claimed.new ≡ ended dead.0 claimed.old }
    ensures needed { result ≡ is_needed reserved (lock, ended dead.0 claimed.old) }
{
    claimed.end(dead);
    !claimed.is_unclaimed() || is_reserved(reserved, lock)
}

impl LockMap {
    /// No locks. It takes no memory.
    pub(crate) fn new(alloc: Global) -> LockMap
        ensures { result ≡ [] }
    {
        LockMap {
            claims: BTreeMap::new(alloc),
        }
    }

    /// The claims on a lock. `None` exactly where the lock has no entry.
    pub(crate) fn get(&self, lock: LockId) -> Option<&Claimed>
        ensures claims { option_copied result ≡ lookup (is_lock lock) self.now }
        ensures ordered { IsStrictlySortedBy lock_cmp (keys_of self.now) }
    {
        self.claims.get(&lock)
    }

    /// Gives a lock an entry without claims, where it has none, and answers the claims on it. After `NoMemory` the locks are as before;
    /// it doesn't come where the lock has an entry.
    pub(crate) fn place(&mut self, lock: LockId) -> Result<Claimed, NoMemory>
        ensures ok { OnOk result (self.new ≡ placed self.old lock) }
        ensures claimed { IfOk result (λ claimed. lookup (is_lock lock) self.new ≡ Some claimed) }
        ensures err { OnErr result (self.new ≡ self.old) }
        ensures sure { IsSome (lookup (is_lock lock) self.old) → IsOk result }
        ensures ordered { IsStrictlySortedBy lock_cmp (keys_of self.new) }
    {
        if let Some(claimed) = self.get(lock) {
            return Ok(claimed.copy());
        }
        let _ = self.claims.insert(lock, Claimed::new())?;
        Ok(Claimed::new())
    }

    /// Takes over the claims on a lock that has an entry. The entry goes where nobody claims the lock, unless it is the reserved one. It
    /// takes no memory.
    pub(crate) fn replace(&mut self, lock: LockId, claimed: Claimed, reserved: Option<LockId>)
        requires { IsSome (lookup (is_lock lock) self.old) }
        ensures locks { self.new ≡ replaced self.old lock claimed reserved }
        ensures ordered { IsStrictlySortedBy lock_cmp (keys_of self.new) }
    {
        if claimed.is_unclaimed() && !is_reserved(reserved, lock) {
            self.remove(lock);
        } else {
            self.put(lock, claimed);
        }
    }

    // Takes over the claims on a lock that has an entry.
    fn put(&mut self, lock: LockId, claimed: Claimed)
        requires { IsSome (lookup (is_lock lock) self.old) }
        ensures locks { self.new ≡ insert_entry lock_cmp self.old lock claimed }
        ensures ordered { IsStrictlySortedBy lock_cmp (keys_of self.new) }
    {
        match self.claims.insert(lock, claimed) {
            Ok(_) => {}
            Err(_) => unreachable!(),
        }
    }

    /// The lock has no entry afterwards, and all others stay. It takes no memory.
    pub(crate) fn remove(&mut self, lock: LockId)
        ensures locks { self.new ≡ remove_entry (is_lock lock) self.old }
        ensures ordered { IsStrictlySortedBy lock_cmp (keys_of self.new) }
    {
        let _ = self.claims.remove(&lock);
    }

    /// Ends all claims of a server. Entries without claims go, but for that of the reserved lock. It takes no memory.
    pub(crate) fn end_all(&mut self, dead: ServerId, reserved: Option<LockId>)
        ensures locks { self.new ≡ ended_all self.old dead.0 reserved }
        ensures ordered { IsStrictlySortedBy lock_cmp (keys_of self.new) }
    {
        self.claims
            .retain(|lock, claimed| end_claim(claimed, dead, *lock, reserved));
    }
}
