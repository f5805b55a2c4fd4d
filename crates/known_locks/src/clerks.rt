// What each server knows itself to have and wish.
ghost use Rattle.std.specs.Prelude.{◌≡◌, ◌+◌, ◌<◌, ◌≤◌, ℕ, [], length, map, IfOk, IsOk, OnOk, slice_index, slice_index_or, slice_set};
ghost use Rattle.ordered_map.specs.Entries.{room_for};
ghost use Rattle.lock_definitions.specs.Order.{lock_cmp};
ghost use Rattle.lock_definitions.specs.Locks.{no_claim, no_clerks, claim_in, with_claim};
ghost use Rattle.lock_table.specs.Kept.{HasSpace, KeepsSpace};
ghost use Rattle.known_locks.specs.Beside.{claims_kept, again, renewed, renewed_all};
ghost use Rattle.known_locks.specs.Listed.{held_in, wishes_in};

use crate::changes::no_claim;
use crate::clerk::Clerk;
use frang_base::limits::SERVERS;
use frang_base::{LockId, NoMemory, ServerId};
use lock_definitions::{Claim, LockList};
use lock_table::LockTable;
use std::alloc::Global;
use std::array;
use std::marker::Model;

/// What each server has and wishes, by its number, ascending by lock, and for how many more locks there is room.
#[derive(Drop)]
pub(crate) struct Clerks {
    clerks: [Clerk; SERVERS],
}

impl Model for Clerks {
    ghost use Rattle.std.specs.Prelude.{◌≡◌, length};
    ghost use Rattle.frang_base.specs.declared.limits.TheConstants.{SERVERS};
    ghost use Rattle.known_locks.specs.Beside.{AllClerks, all_clerks};

    ghost Value = { AllClerks };

    ghost view = { λ all. all_clerks all.clerks };

    ghost invariant = { λ all. length all.clerks ≡ SERVERS };
}

// Servers that have nothing.
fn no_clerks(alloc: Global) -> [Clerk; SERVERS]
    ensures { map claims_kept result ≡ no_clerks }
{
    array::from_fn(|_| Clerk::new(alloc))
}

impl Clerks {
    /// Nothing is held or wished. It takes no memory.
    pub(crate) fn new(alloc: Global) -> Clerks
        ensures { result.claims ≡ no_clerks }
    {
        Clerks {
            clerks: no_clerks(alloc),
        }
    }

    /// What a server has and wishes of a lock. A party that isn't one of the sixteen has nothing.
    pub(crate) fn claim(&self, server: ServerId, lock: LockId) -> Claim
        ensures claim { result ≡ claim_in (slice_index_or self.now.claims server.0 []) lock }
        ensures past { SERVERS ≤ server.0 → result ≡ no_claim }
    {
        match self.clerks.get(server.0 as usize) {
            Some(clerk) => clerk.claim(lock),
            None => no_claim(),
        }
    }

    /// Makes room for one more lock of a server. Nothing else changes, whatever the answer. It takes no memory where there is room.
    pub(crate) fn reserve_one(&mut self, server: ServerId) -> Result<(), NoMemory>
        requires { server.0 < SERVERS }
        ensures claims { self.new.claims ≡ self.old.claims }
        ensures ok { OnOk result (0 < slice_index self.new.room server.0) }
        ensures sure { 0 < slice_index self.old.room server.0 → IsOk result }
        ensures room { KeepsSpace self.old.room self.new.room }
    {
        self.clerks[server.0 as usize].reserve()
    }

    /// Makes room for one more lock of each server. Nothing else changes, whatever the answer. It takes no memory where there is room.
    pub(crate) fn reserve(&mut self) -> Result<(), NoMemory>
        ensures claims { self.new.claims ≡ self.old.claims }
        ensures ok { OnOk result (HasSpace self.new.room) }
        ensures sure { HasSpace self.old.room → IsOk result }
        ensures room { KeepsSpace self.old.room self.new.room }
    {
        for server in 0..SERVERS as u8 {
            self.reserve_one(ServerId(server))?;
        }
        Ok(())
    }

    /// A server's claim on a lock is this one. The lock is known, or there is room. It takes no memory.
    pub(crate) fn put(&mut self, server: ServerId, lock: LockId, claim: Claim)
        requires server { server.0 < SERVERS }
        requires room { room_for lock_cmp (slice_index_or self.old.claims server.0 []) lock ≤ slice_index self.old.room server.0 }
        ensures claims { self.new.claims ≡ slice_set self.old.claims server.0 (with_claim (slice_index_or self.old.claims server.0 []) lock claim) }
        ensures room { room_for lock_cmp (slice_index_or self.old.claims server.0 []) lock ≡ 0 → KeepsSpace self.old.room self.new.room }
    {
        self.clerks[server.0 as usize].put(lock, claim);
    }

    /// Nothing of a server's is held or wished any more. It takes no memory.
    pub(crate) fn end(&mut self, dead: ServerId)
        ensures claims { self.new.claims ≡ slice_set self.old.claims dead.0 [] }
        ensures room { KeepsSpace self.old.room self.new.room }
    {
        let at = dead.0 as usize;
        if at < SERVERS {
            self.clerks[at].end();
        }
    }

    // Each known lock of a server has the claim that a table says, or goes.
    fn renew(&mut self, server: ServerId, table: &LockTable)
        requires { server.0 < SERVERS }
        ensures { self.new.claims ≡ slice_set self.old.claims server.0 (renewed (again table.now.locks server.0) (slice_index_or self.old.claims server.0 [])) }
    {
        self.clerks[server.0 as usize].renew(server, table);
    }

    /// Each known lock of each server has the claim that a table says, or goes. It takes no memory.
    pub(crate) fn renew_all(&mut self, table: &LockTable)
        ensures { self.new.claims ≡ renewed_all table.now.locks self.old.claims }
    {
        // There are sixteen servers, as the fields say.
        let _ = &self.clerks;
        for server in 0..SERVERS as u8 {
            self.renew(ServerId(server), table);
        }
    }

    /// The locks that a party holds, each with its mode, ascending.
    pub(crate) fn held(&self, alloc: Global, party: ServerId) -> Result<LockList, NoMemory>
        ensures { IfOk result (λ list. list ≡ held_in (slice_index_or self.now.claims party.0 [])) }
    {
        match self.clerks.get(party.0 as usize) {
            Some(clerk) => clerk.held(alloc),
            None => Ok(LockList::new(alloc)),
        }
    }

    /// A party's noted wishes, ascending by lock.
    pub(crate) fn wishes(&self, alloc: Global, party: ServerId) -> Result<LockList, NoMemory>
        ensures { IfOk result (λ list. list ≡ wishes_in (slice_index_or self.now.claims party.0 [])) }
    {
        match self.clerks.get(party.0 as usize) {
            Some(clerk) => clerk.wishes(alloc),
            None => Ok(LockList::new(alloc)),
        }
    }
}
