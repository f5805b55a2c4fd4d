// The locks that each server is asked for.
ghost use Rattle.std.specs.Prelude.{◌≡◌, ◌+◌, ◌<◌, ◌≤◌, ℕ, [], length, map, IsOk, IsTrue, OnOk, slice_index, slice_index_or, slice_set};
ghost use Rattle.std.specs.List.{slice_get};
ghost use Rattle.ordered_map.specs.Chunks.{joined};
ghost use Rattle.lock_table.specs.Asked.{no_asked, asked_by, asked_kept, with_made, growth};
ghost use Rattle.lock_table.specs.Kept.{HasSpace, KeepsSpace, KeepsSpaceBut, Fits, IsListed, AreListed, IsSameBeside, settled, renewed, renewed_all};

use crate::asked::AskedList;
use crate::claimed::Claimed;
use crate::lock_map::LockMap;
use frang_base::limits::SERVERS;
use frang_base::{LockId, NoMemory, ServerId};
use lock_definitions::{AskedFor, Claim};
use ordered_map::Chunk;
use std::alloc::Global;
use std::array;
use std::marker::Model;

/// What each server is asked for by its number, ascending by lock, and how many more have room.
#[derive(Drop)]
pub(crate) struct AskedLists {
    lists: [AskedList; SERVERS],
}

impl Model for AskedLists {
    ghost use Rattle.std.specs.Prelude.{◌≡◌, length};
    ghost use Rattle.frang_base.specs.declared.limits.TheConstants.{SERVERS};
    ghost use Rattle.lock_table.specs.Asked.{AllAsked, all_asked};

    ghost Value = { AllAsked };

    ghost view = { λ lists. all_asked lists.lists };

    ghost invariant = { λ lists. length lists.lists ≡ SERVERS };
}

// A list for each server, of nothing.
fn no_lists(alloc: Global) -> [AskedList; SERVERS]
    ensures { map asked_kept result ≡ no_asked }
{
    array::from_fn(|_| AskedList::new(alloc))
}

impl AskedLists {
    /// Nobody is asked for anything. It takes no memory.
    pub(crate) fn new(alloc: Global) -> AskedLists
        ensures { result.asked ≡ no_asked }
    {
        AskedLists {
            lists: no_lists(alloc),
        }
    }

    /// What a server is asked for, ascending by lock, in pieces that follow one another: nothing, where it isn't one of the sixteen.
    pub(crate) fn pieces(&self, server: ServerId) -> &[Chunk<LockId, AskedFor>]
        ensures { joined result.now ≡ slice_index_or self.now.asked server.0 [] }
    {
        match self.lists.get(server.0 as usize) {
            Some(list) => list.pieces(),
            None => &[],
        }
    }

    /// The first lock that a server is asked for, with what is asked.
    pub(crate) fn first(&self, server: ServerId) -> Option<(LockId, AskedFor)>
        ensures { result ≡ slice_get (slice_index_or self.now.asked server.0 []) 0 }
    {
        match self.lists.get(server.0 as usize) {
            Some(list) => list.first(),
            None => None,
        }
    }

    /// The lock at a place among those that a server is asked for, with what is asked.
    pub(crate) fn at(&self, server: ServerId, place: usize) -> Option<(LockId, AskedFor)>
        ensures { result ≡ slice_get (slice_index_or self.now.asked server.0 []) place }
    {
        match self.lists.get(server.0 as usize) {
            Some(list) => list.at(place),
            None => None,
        }
    }

    // Makes room for one more of a server.
    fn reserve_one(&mut self, server: ServerId) -> Result<(), NoMemory>
        requires { server.0 < SERVERS }
        ensures asked { self.new.asked ≡ self.old.asked }
        ensures ok { OnOk result (0 < slice_index self.new.room server.0) }
        ensures sure { 0 < slice_index self.old.room server.0 → IsOk result }
        ensures room { KeepsSpace self.old.room self.new.room }
    {
        self.lists[server.0 as usize].reserve()
    }

    /// Makes room for one more of each server. Nothing else changes, whatever the answer. It takes no memory where there is room.
    pub(crate) fn reserve(&mut self) -> Result<(), NoMemory>
        ensures asked { self.new.asked ≡ self.old.asked }
        ensures ok { OnOk result (HasSpace self.new.room) }
        ensures sure { HasSpace self.old.room → IsOk result }
        ensures room { KeepsSpace self.old.room self.new.room }
    {
        for server in 0..SERVERS as u8 {
            self.reserve_one(ServerId(server))?;
        }
        Ok(())
    }

    // A server is asked for a lock as these claims say, where the others said otherwise.
    fn settle_one(&mut self, server: ServerId, lock: LockId, before: &Claimed, now: &Claimed)
        requires server { server.0 < SERVERS }
        requires listed { IsListed (slice_index_or self.old.asked server.0 []) lock (asked_by server.0 before.now) }
        requires room { growth (asked_by server.0 before.now) (asked_by server.0 now.now) ≤ slice_index self.old.room server.0 }
        ensures asked { self.new.asked ≡ slice_set self.old.asked server.0 (with_made (slice_index_or self.old.asked server.0 []) lock (asked_by server.0 now.now)) }
        ensures own { slice_index self.old.room server.0 ≤ slice_index self.new.room server.0 + growth (asked_by server.0 before.now) (asked_by server.0 now.now) }
        ensures others { (other : ℕ) → (other ≡ server.0 → ⊥) → slice_index self.new.room other ≡ slice_index self.old.room other }
    {
        let asked = now.asked_for(server);
        self.lists[server.0 as usize].settle(lock, before.asked_for(server), asked);
    }

    // Each server is asked for a lock as these claims say.
    fn settle_all(&mut self, lock: LockId, before: &Claimed, now: &Claimed)
        requires long { length self.old.asked ≡ SERVERS }
        requires listed { AreListed self.old.asked lock before.now }
        requires room { Fits self.old.room before.now now.now }
        ensures asked { self.new.asked ≡ settled self.old.asked lock now.now }
        ensures room { KeepsSpaceBut self.old.room self.new.room before.now now.now }
    {
        for server in 0..SERVERS as u8 {
            self.settle_one(ServerId(server), lock, before, now);
        }
    }

    /// Each server is asked for a lock as these claims say, which differ from those before in one server's alone. There is room. It
    /// takes no memory.
    pub(crate) fn settle(&mut self, server: ServerId, lock: LockId, before: &Claimed, now: &Claimed)
        requires server { server.0 < SERVERS }
        requires long { length self.old.asked ≡ SERVERS }
        requires others { IsSameBeside server.0 before.now now.now }
        requires listed { AreListed self.old.asked lock before.now }
        requires room { Fits self.old.room before.now now.now }
        ensures asked { self.new.asked ≡ settled self.old.asked lock now.now }
        ensures room { KeepsSpaceBut self.old.room self.new.room before.now now.now }
    {
        if wish_alike(before.claim(server), now.claim(server)) {
            self.settle_one(server, lock, before, now);
        } else {
            self.settle_all(lock, before, now);
        }
    }

    // A server is asked for what it was, as far as the claims still say so.
    fn renew(&mut self, server: ServerId, claims: &LockMap)
        requires { server.0 < SERVERS }
        ensures asked { self.new.asked ≡ slice_set self.old.asked server.0 (renewed server.0 claims.now (slice_index_or self.old.asked server.0 [])) }
        ensures room { KeepsSpace self.old.room self.new.room }
    {
        self.lists[server.0 as usize].renew(server, claims);
    }

    /// Each server is asked for what it was, as far as the claims still say so. It takes no memory.
    pub(crate) fn renew_all(&mut self, claims: &LockMap)
        requires { length self.old.asked ≡ SERVERS }
        ensures asked { self.new.asked ≡ renewed_all self.old.asked claims.now }
        ensures room { KeepsSpace self.old.room self.new.room }
    {
        for server in 0..SERVERS as u8 {
            self.renew(ServerId(server), claims);
        }
    }
}

// The two wish the same modes.
fn wish_alike(a: Claim, b: Claim) -> bool
    ensures shared { IsTrue result → a.wishes_shared ≡ b.wishes_shared }
    ensures sole { IsTrue result → a.wishes_sole ≡ b.wishes_sole }
{
    a.wishes_shared == b.wishes_shared && a.wishes_sole == b.wishes_sole
}
