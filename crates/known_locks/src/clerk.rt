// What one server knows itself to have and wish.
ghost use Rattle.std.specs.Prelude.{◌≡◌, ◌+◌, ◌<◌, ◌≤◌, ◌++◌, ◌∷◌, if◌then◌else◌, ℕ, [], IfOk, IsOk, OnOk, length};
ghost use Rattle.std.specs.List.Sorted.{IsStrictlySortedBy};
ghost use Rattle.std.specs.Map.{lookup, keys_of};
ghost use Rattle.ordered_map.specs.Entries.{room_for};
ghost use Rattle.lock_definitions.specs.Order.{lock_cmp, is_lock};
ghost use Rattle.lock_definitions.specs.Locks.{Claims, claim_in, claim_of, with_claim};
ghost use Rattle.known_locks.specs.Beside.{again, renewed, place_behind, IsWalked};
ghost use Rattle.known_locks.specs.Listed.{held_in, wishes_of, wishes_in};

use crate::changes::{is_no_claim, no_claim};
use frang_base::{LockId, Mode, NoMemory, ServerId};
use lock_definitions::{Claim, LockList};
use lock_table::LockTable;
use ordered_map::{Chunk, OrderedMap};
use std::alloc::Global;
use std::marker::Model;

/// The locks that a server holds or wishes, ascending, and for how many more there is room. A lock is found in time logarithmic in
/// their number.
#[derive(Drop)]
pub(crate) struct Clerk {
    claims: OrderedMap<LockId, Claim>,
}

impl Model for Clerk {
    ghost use Rattle.known_locks.specs.Beside.{ClerkRoom};

    ghost Value = { ClerkRoom };

    ghost view = { λ clerk. record { claims = clerk.claims.entries; room = clerk.claims.spare } };
}

// The place behind one, where the lock there is still claimed, and else the same.
fn place_behind(i: usize, claim: Claim) -> usize
    requires { i < usize.MAX }
    ensures { result ≡ place_behind i claim }
{
    if is_no_claim(claim) { i } else { i + 1 }
}

// What a table has of a server's lock.
fn claim_of(table: &LockTable, server: ServerId, lock: LockId) -> Claim
    ensures { result ≡ claim_of table.now.locks server.0 lock }
{
    Claim {
        held: table.held(server, lock),
        wishes_shared: table.is_wished(server, lock, Mode::Shared),
        wishes_sole: table.is_wished(server, lock, Mode::Sole),
    }
}

impl Clerk {
    /// Nothing is held or wished. It takes no memory.
    pub(crate) fn new(alloc: Global) -> Clerk
        ensures { result.claims ≡ [] }
    {
        Clerk {
            claims: OrderedMap::new(alloc),
        }
    }

    // The claim on a lock. `None` exactly where nothing is held or wished of it.
    fn find(&self, lock: LockId) -> Option<Claim>
        ensures { result ≡ lookup (is_lock lock) self.now.claims }
    {
        self.claims.get(&lock).copied()
    }

    /// What the server has and wishes of a lock.
    pub(crate) fn claim(&self, lock: LockId) -> Claim
        ensures { result ≡ claim_in self.now.claims lock }
    {
        match self.find(lock) {
            Some(claim) => claim,
            None => no_claim(),
        }
    }

    /// Makes room for one more lock. Nothing else changes, whatever the answer. It takes no memory where there is room.
    pub(crate) fn reserve(&mut self) -> Result<(), NoMemory>
        ensures claims { self.new.claims ≡ self.old.claims }
        ensures ok { OnOk result (0 < self.new.room) }
        ensures sure { 0 < self.old.room → IsOk result }
        ensures room { self.old.room ≤ self.new.room }
    {
        self.claims.reserve(1)?;
        Ok(())
    }

    /// The server's claim on a lock is this one. The lock is known, or there is room. It takes no memory.
    pub(crate) fn put(&mut self, lock: LockId, claim: Claim)
        requires { room_for lock_cmp self.old.claims lock ≤ self.old.room }
        ensures claims { self.new.claims ≡ with_claim self.old.claims lock claim }
        ensures room { self.old.room ≤ self.new.room + room_for lock_cmp self.old.claims lock }
    {
        if is_no_claim(claim) {
            self.claims.remove(&lock);
        } else {
            self.claims.put(lock, claim);
        }
    }

    // How many locks there are.
    fn count(&self) -> usize
        ensures count { result ≡ length self.now.claims }
        ensures small { length self.now.claims ≤ usize.MAX }
        ensures ordered { IsStrictlySortedBy lock_cmp (keys_of self.now.claims) }
    {
        self.claims.count()
    }

    // The first lock goes.
    fn drop_first(&mut self)
        ensures claims { (first : LockId × Claim) (rest : Claims) → self.old.claims ≡ first ∷ rest → self.new.claims ≡ rest }
        ensures room { self.old.room ≤ self.new.room }
    {
        match self.claims.first() {
            Some(entry) => {
                let lock = entry.0;
                self.claims.remove(&lock);
            }
            None => {}
        }
    }

    /// Nothing is held or wished any more. It takes no memory, and keeps the room.
    pub(crate) fn end(&mut self)
        ensures claims { self.new.claims ≡ [] }
        ensures room { self.old.room ≤ self.new.room }
    {
        let count = self.count();
        for _ in 0..count {
            self.drop_first();
        }
    }

    // The lock at a place has the claim that a table says, or goes. The place of the next one.
    fn renew_at(&mut self, i: usize, server: ServerId, table: &LockTable) -> usize
        requires inside { i < length self.old.claims }
        requires small { i < usize.MAX }
        ensures walked { (all : Claims) (left : ℕ) → IsWalked (again table.now.locks server.0) all self.old.claims i (left + 1) → IsWalked (again table.now.locks server.0) all self.new.claims result left }
        ensures next { result ≤ i + 1 }
        ensures room { self.old.room ≤ self.new.room }
    {
        match self.claims.at(i) {
            Some(entry) => {
                let lock = entry.0;
                let claim = claim_of(table, server, lock);
                self.put(lock, claim);
                place_behind(i, claim)
            }
            None => unreachable!(),
        }
    }

    /// Each known lock has the claim that a table says, or goes. It takes no memory, and keeps the room.
    pub(crate) fn renew(&mut self, server: ServerId, table: &LockTable)
        ensures claims { self.new.claims ≡ renewed (again table.now.locks server.0) self.old.claims }
        ensures room { self.old.room ≤ self.new.room }
        ensures ordered { IsStrictlySortedBy lock_cmp (keys_of self.old.claims) }
    {
        let count = self.count();
        let mut i = 0;
        for _ in 0..count {
            i = self.renew_at(i, server, table);
        }
    }
}

// Adds a lock that is held.
fn add_held(list: &mut LockList, entry: &(LockId, Claim)) -> Result<(), NoMemory>
    ensures { OnOk result (list.new ≡ list.old ++ held_in (entry.now ∷ [])) }
{
    match entry.1.held {
        Some(mode) => list.push((entry.0, mode)),
        None => Ok(()),
    }
}

// Adds the locks of a piece that are held.
fn add_held_piece(list: &mut LockList, piece: &[(LockId, Claim)]) -> Result<(), NoMemory>
    ensures { OnOk result (list.new ≡ list.old ++ held_in piece.now) }
{
    for entry in piece {
        add_held(list, entry)?;
    }
    Ok(())
}

// Adds a wish, if it is one.
fn add_wish(list: &mut LockList, lock: LockId, mode: Mode, is_wished: bool) -> Result<(), NoMemory>
    ensures { OnOk result (list.new ≡ list.old ++ (if is_wished then (lock, mode) ∷ [] else [])) }
{
    if is_wished {
        list.push((lock, mode))
    } else {
        Ok(())
    }
}

// Adds the wishes of a claim.
fn add_wishes(list: &mut LockList, entry: &(LockId, Claim)) -> Result<(), NoMemory>
    ensures { OnOk result (list.new ≡ list.old ++ wishes_of entry.now) }
{
    add_wish(list, entry.0, Mode::Shared, entry.1.wishes_shared)?;
    add_wish(list, entry.0, Mode::Sole, entry.1.wishes_sole)
}

// Adds the wishes of a piece.
fn add_wishes_piece(list: &mut LockList, piece: &[(LockId, Claim)]) -> Result<(), NoMemory>
    ensures { OnOk result (list.new ≡ list.old ++ wishes_in piece.now) }
{
    for entry in piece {
        add_wishes(list, entry)?;
    }
    Ok(())
}

impl Clerk {
    /// The locks that the server holds, each with its mode, ascending.
    pub(crate) fn held(&self, alloc: Global) -> Result<LockList, NoMemory>
        ensures { IfOk result (λ list. list ≡ held_in self.now.claims) }
    {
        let mut list = LockList::new(alloc);
        for piece in self.claims.chunks() {
            add_held_piece(&mut list, piece.entries())?;
        }
        Ok(list)
    }

    /// The server's noted wishes, ascending by lock.
    pub(crate) fn wishes(&self, alloc: Global) -> Result<LockList, NoMemory>
        ensures { IfOk result (λ list. list ≡ wishes_in self.now.claims) }
    {
        let mut list = LockList::new(alloc);
        for piece in self.claims.chunks() {
            add_wishes_piece(&mut list, piece.entries())?;
        }
        Ok(list)
    }
}
