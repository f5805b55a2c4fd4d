// The claims on all locks, and what each server is asked for.
ghost use Rattle.std.specs.Prelude.{◌≡◌, ◌<◌, ◌≤◌, [], IsOk, IsSome, IfOk, OnOk, OnErr, length, slice_index_or, slice_set};
ghost use Rattle.std.specs.List.{slice_get};
ghost use Rattle.std.specs.List.Sorted.{IsStrictlySortedBy};
ghost use Rattle.ordered_map.specs.Chunks.{joined};
ghost use Rattle.std.specs.Map.{lookup, keys_of};
ghost use Rattle.lock_definitions.specs.Order.{lock_cmp, is_lock};
ghost use Rattle.lock_definitions.specs.Locks.{no_claim};
ghost use Rattle.lock_table.specs.Asked.{asked_by, claim_by, holders_beside, is_held_by_none};
ghost use Rattle.lock_table.specs.Kept.{asked_lists, claimed_at, HasSpace, KeepsSpace, KeepsSpaceBut, Fits, placed, replaced, is_needed, tidied, freed, ended_all};

use crate::asked::asked_in;
use crate::asked_lists::AskedLists;
use crate::claimed::{Claimed, no_claim};
use crate::lock_map::{LockMap, is_reserved};
use frang_base::limits::SERVERS;
use frang_base::{LockId, Mode, NoMemory, ServerId};
use lock_definitions::{AskedFor, Claim};
use ordered_map::Chunk;
use std::alloc::Global;
use std::marker::Model;

/// The claims on each lock, ascending by lock, and for how many more locks that it is asked for each server has room. What a
/// server is asked for is kept up to date beside them.
#[derive(Drop)]
pub(crate) struct Claims {
    map: LockMap,
    asked: AskedLists,
}

impl Model for Claims {
    ghost use Rattle.lock_table.specs.Kept.{Kept, AreKept};

    ghost Value = { Kept };

    ghost view = { λ claims. record { entries = claims.map; room = claims.asked.room } };

    ghost invariant = { λ claims. AreKept claims.map claims.asked.asked };
}

impl Claims {
    /// No claims. It takes no memory.
    pub(crate) fn new(alloc: Global) -> Claims
        ensures { result.entries ≡ [] }
    {
        Claims {
            map: LockMap::new(alloc),
            asked: AskedLists::new(alloc),
        }
    }

    /// A server's claim on a lock. There is none of a server that isn't one of the sixteen.
    pub(crate) fn claim(&self, server: ServerId, lock: LockId) -> Claim
        ensures claim { result ≡ claim_by server.0 (claimed_at self.now.entries lock) }
        ensures past { SERVERS ≤ server.0 → result ≡ no_claim }
    {
        match self.map.get(lock) {
            Some(claimed) => claimed.claim(server),
            None => no_claim(),
        }
    }

    /// What a server is asked for of a lock.
    pub(crate) fn asked_for(&self, server: ServerId, lock: LockId) -> Option<AskedFor>
        ensures { result ≡ asked_by server.0 (claimed_at self.now.entries lock) }
    {
        asked_in(&self.map, lock, server)
    }

    /// A bit for each other server that holds a lock in a mode that conflicts.
    pub(crate) fn holders(&self, server: ServerId, lock: LockId, mode: Mode) -> u32
        ensures { result ≡ holders_beside server.0 mode (claimed_at self.now.entries lock) }
    {
        match self.map.get(lock) {
            Some(claimed) => claimed.holders(server, mode),
            None => Claimed::new().holders(server, mode),
        }
    }

    /// Whether no server holds a lock.
    pub(crate) fn is_unheld(&self, lock: LockId) -> bool
        ensures { result ≡ is_held_by_none (claimed_at self.now.entries lock) }
    {
        match self.map.get(lock) {
            Some(claimed) => claimed.is_unheld(),
            None => Claimed::new().is_unheld(),
        }
    }

    /// The locks that a server is asked for, ascending, in pieces that follow one another.
    pub(crate) fn asked(&self, server: ServerId) -> &[Chunk<LockId, AskedFor>]
        ensures { joined result.now ≡ slice_index_or (asked_lists self.now.entries) server.0 [] }
    {
        self.asked.pieces(server)
    }

    /// The first lock that a server is asked for, with what is asked.
    pub(crate) fn first_asked(&self, server: ServerId) -> Option<(LockId, AskedFor)>
        ensures { result ≡ slice_get (slice_index_or (asked_lists self.now.entries) server.0 []) 0 }
    {
        self.asked.first(server)
    }

    /// The lock at a place among those that a server is asked for, with what is asked.
    pub(crate) fn asked_at(&self, server: ServerId, place: usize) -> Option<(LockId, AskedFor)>
        ensures { result ≡ slice_get (slice_index_or (asked_lists self.now.entries) server.0 []) place }
    {
        self.asked.at(server, place)
    }

    /// The claims on a lock that has an entry.
    pub(crate) fn claimed(&self, lock: LockId) -> Claimed
        requires { IsSome (lookup (is_lock lock) self.now.entries) }
        ensures claims { lookup (is_lock lock) self.now.entries ≡ Some result }
        ensures long { length result ≡ SERVERS }
    {
        match self.map.get(lock) {
            Some(claimed) => claimed.copy(),
            None => unreachable!(),
        }
    }

    /// Gives a lock an entry, where it has none, and each server room for one more lock that it is asked for; and answers the claims on
    /// the lock. Nothing else changes, whatever the answer. It takes no memory where the lock has an entry and each server has room.
    pub(crate) fn place(&mut self, lock: LockId) -> Result<Claimed, NoMemory>
        ensures entries { OnOk result (self.new.entries ≡ placed self.old.entries lock) }
        ensures claimed { IfOk result (λ claimed. lookup (is_lock lock) self.new.entries ≡ Some claimed) }
        ensures space { OnOk result (HasSpace self.new.room) }
        ensures err { OnErr result (self.new.entries ≡ self.old.entries) }
        ensures sure { IsSome (lookup (is_lock lock) self.old.entries) → HasSpace self.old.room → IsOk result }
        ensures room { KeepsSpace self.old.room self.new.room }
        ensures ordered { IsStrictlySortedBy lock_cmp (keys_of self.new.entries) }
    {
        self.asked.reserve()?;
        self.map.place(lock)
    }

    /// Takes over another claim of a server, 0 to 15, on a lock with these claims. The entry goes where nobody claims the lock then,
    /// unless it is the reserved one. There is room. It takes no memory.
    pub(crate) fn change(
        &mut self,
        server: ServerId,
        lock: LockId,
        before: Claimed,
        claim: Claim,
        reserved: Option<LockId>,
    )
        requires server { server.0 < SERVERS }
        requires place { lookup (is_lock lock) self.old.entries ≡ Some before }
        requires room { Fits self.old.room before (slice_set before server.0 claim) }
        ensures entries { self.new.entries ≡ replaced self.old.entries lock (slice_set before server.0 claim) reserved }
        ensures own { claim_by server.0 (slice_set before server.0 claim) ≡ claim }
        ensures room { KeepsSpaceBut self.old.room self.new.room before (slice_set before server.0 claim) }
        ensures ordered { IsStrictlySortedBy lock_cmp (keys_of self.new.entries) }
    {
        let mut now = before.copy();
        now.set(server, claim);
        self.asked.settle(server, lock, &before, &now);
        self.map.replace(lock, now, reserved);
    }

    /// A lock isn't reserved any more: where nobody claims it, it has no entry afterwards, unless it is the one that is reserved now. It
    /// takes no memory.
    pub(crate) fn free(&mut self, lock: Option<LockId>, reserved: Option<LockId>)
        ensures entries { self.new.entries ≡ freed self.old.entries lock reserved }
        ensures room { KeepsSpace self.old.room self.new.room }
        ensures ordered { IsStrictlySortedBy lock_cmp (keys_of self.new.entries) }
    {
        // Also where nothing is done the entries ascend, as the fields say.
        let _ = &self.map;
        if let Some(lock) = lock {
            self.tidy(lock, reserved);
        }
    }

    // A lock that nobody claims has no entry afterwards, unless it is the reserved one.
    fn tidy(&mut self, lock: LockId, reserved: Option<LockId>)
        ensures entries { self.new.entries ≡ tidied self.old.entries lock reserved }
        ensures room { KeepsSpace self.old.room self.new.room }
        ensures ordered { IsStrictlySortedBy lock_cmp (keys_of self.new.entries) }
    {
        if !self.is_needed(lock, reserved) {
            self.map.remove(lock);
        }
    }

    // Somebody claims the lock, or it is reserved.
    fn is_needed(&self, lock: LockId, reserved: Option<LockId>) -> bool
        ensures { result ≡ is_needed reserved (lock, claimed_at self.now.entries lock) }
    {
        match self.map.get(lock) {
            Some(claimed) => !claimed.is_unclaimed() || is_reserved(reserved, lock),
            None => is_reserved(reserved, lock),
        }
    }

    /// Ends all claims of a server. Entries without claims go, but for that of the reserved lock. It takes no memory.
    pub(crate) fn end_all(&mut self, dead: ServerId, reserved: Option<LockId>)
        ensures entries { self.new.entries ≡ ended_all self.old.entries dead.0 reserved }
        ensures room { KeepsSpace self.old.room self.new.room }
        ensures ordered { IsStrictlySortedBy lock_cmp (keys_of self.new.entries) }
    {
        self.map.end_all(dead, reserved);
        self.asked.renew_all(&self.map);
    }
}
