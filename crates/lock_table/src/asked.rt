// The locks that one server is asked for, in order of the locks.
ghost use Rattle.std.specs.Prelude.{◌≡◌, ◌+◌, ◌<◌, ◌≤◌, ℕ, [], None, Some, if◌then◌else◌, is_some, length, IsOk, OnOk};
ghost use Rattle.std.specs.List.{slice_get};
ghost use Rattle.std.specs.List.Sorted.{IsStrictlySortedBy};
ghost use Rattle.std.specs.Map.{lookup, keys_of};
ghost use Rattle.ordered_map.specs.Chunks.{joined};
ghost use Rattle.ordered_map.specs.Entries.{room_for};
ghost use Rattle.lock_definitions.specs.Order.{lock_cmp, is_lock};
ghost use Rattle.lock_table.specs.Asked.{Asked, asked_by, with_made, growth};
ghost use Rattle.lock_table.specs.Kept.{claimed_at, renewed, IsWalked};

use crate::lock_map::LockMap;
use frang_base::{LockId, NoMemory, ServerId};
use lock_definitions::AskedFor;
use ordered_map::{Chunk, OrderedMap};
use std::alloc::Global;
use std::marker::Model;

/// The locks that a server is asked for, ascending, each with what is asked, and how many more have room. A lock is listed, and taken from
/// the list, in time logarithmic in their number.
#[derive(Drop)]
pub(crate) struct AskedList {
    asked: OrderedMap<LockId, AskedFor>,
}

impl Model for AskedList {
    ghost use Rattle.lock_table.specs.Asked.{AskedRoom};

    ghost Value = { AskedRoom };

    ghost view = { λ list. record { asked = list.asked.entries; room = list.asked.spare } };
}

// The place after one, where the lock there is still asked for, and else the same.
fn next_place(i: usize, asked: Option<AskedFor>) -> usize
    requires { i < usize.MAX }
    ensures { result ≡ (if is_some asked then i + 1 else i) }
{
    match asked {
        Some(_) => i + 1,
        None => i,
    }
}

impl AskedList {
    /// Nothing is asked for. It takes no memory.
    pub(crate) fn new(alloc: Global) -> AskedList
        ensures { result.asked ≡ [] }
    {
        AskedList {
            asked: OrderedMap::new(alloc),
        }
    }

    /// What is asked for, ascending by lock, in pieces that follow one another.
    pub(crate) fn pieces(&self) -> &[Chunk<LockId, AskedFor>]
        ensures { joined result.now ≡ self.now.asked }
    {
        self.asked.chunks()
    }

    /// The first lock that is asked for, with what is asked.
    pub(crate) fn first(&self) -> Option<(LockId, AskedFor)>
        ensures { result ≡ slice_get self.now.asked 0 }
    {
        self.asked.first().copied()
    }

    /// The lock at a place, counted from 0, with what is asked.
    pub(crate) fn at(&self, place: usize) -> Option<(LockId, AskedFor)>
        ensures { result ≡ slice_get self.now.asked place }
    {
        self.asked.at(place).copied()
    }

    /// Makes room for one more. Nothing else changes, whatever the answer. It takes no memory where there is room.
    pub(crate) fn reserve(&mut self) -> Result<(), NoMemory>
        ensures asked { self.new.asked ≡ self.old.asked }
        ensures ok { OnOk result (0 < self.new.room) }
        ensures sure { 0 < self.old.room → IsOk result }
        ensures room { self.old.room ≤ self.new.room }
    {
        self.asked.reserve(1)?;
        Ok(())
    }

    /// The lock is asked for so, or not at all. It is listed, or there is room. It takes no memory.
    pub(crate) fn put(&mut self, lock: LockId, asked: Option<AskedFor>)
        requires { growth (lookup (is_lock lock) self.old.asked) asked ≤ self.old.room }
        ensures asked { self.new.asked ≡ with_made self.old.asked lock asked }
        ensures room { self.old.room ≤ self.new.room + growth (lookup (is_lock lock) self.old.asked) asked }
    {
        match asked {
            Some(made) => self.insert(lock, made),
            None => self.remove(lock),
        }
    }

    /// The lock is asked for so, where it wasn't before. It is listed, or there is room. It takes no memory.
    pub(crate) fn settle(&mut self, lock: LockId, before: Option<AskedFor>, asked: Option<AskedFor>)
        requires listed { lookup (is_lock lock) self.old.asked ≡ before }
        requires same { with_made self.old.asked lock before ≡ self.old.asked }
        requires room { growth before asked ≤ self.old.room }
        ensures asked { self.new.asked ≡ with_made self.old.asked lock asked }
        ensures room { self.old.room ≤ self.new.room + growth before asked }
    {
        if asked != before {
            self.put(lock, asked);
        }
    }

    // How many locks are asked for.
    fn count(&self) -> usize
        ensures count { result ≡ length self.now.asked }
        ensures small { length self.now.asked ≤ usize.MAX }
        ensures ordered { IsStrictlySortedBy lock_cmp (keys_of self.now.asked) }
    {
        self.asked.count()
    }

    // The lock is asked for so.
    fn insert(&mut self, lock: LockId, asked: AskedFor)
        requires { room_for lock_cmp self.old.asked lock ≤ self.old.room }
        ensures asked { self.new.asked ≡ with_made self.old.asked lock (Some asked) }
        ensures room { self.new.room + room_for lock_cmp self.old.asked lock ≡ self.old.room }
    {
        self.asked.put(lock, asked);
    }

    // The lock isn't asked for.
    fn remove(&mut self, lock: LockId)
        ensures asked { self.new.asked ≡ with_made self.old.asked lock None }
        ensures room { self.old.room ≤ self.new.room }
    {
        self.asked.remove(&lock);
    }

    // The lock at a place is asked for as its claims say, or not at all. The place of the next one.
    fn renew_at(&mut self, i: usize, server: ServerId, claims: &LockMap) -> usize
        requires inside { i < length self.old.asked }
        requires small { i < usize.MAX }
        ensures walked { (all : Asked) (left : ℕ) → IsWalked server.0 claims.now all self.old.asked i (left + 1) → IsWalked server.0 claims.now all self.new.asked result left }
        ensures next { result ≤ i + 1 }
        ensures room { self.old.room ≤ self.new.room }
    {
        match self.asked.at(i) {
            Some(entry) => {
                let lock = entry.0;
                let asked = asked_in(claims, lock, server);
                self.put(lock, asked);
                next_place(i, asked)
            }
            None => unreachable!(),
        }
    }

    /// Each listed lock is asked for as its claims say, or not at all. It takes no memory.
    pub(crate) fn renew(&mut self, server: ServerId, claims: &LockMap)
        ensures asked { self.new.asked ≡ renewed server.0 claims.now self.old.asked }
        ensures room { self.old.room ≤ self.new.room }
    {
        let count = self.count();
        let mut i = 0;
        for _ in 0..count {
            i = self.renew_at(i, server, claims);
        }
    }
}

/// What a server is asked for of a lock.
pub(crate) fn asked_in(claims: &LockMap, lock: LockId, server: ServerId) -> Option<AskedFor>
    ensures { result ≡ asked_by server.0 (claimed_at claims.now lock) }
{
    match claims.get(lock) {
        Some(claimed) => claimed.asked_for(server),
        None => None,
    }
}
