// Sets of locks.
ghost use Rattle.std.specs.Prelude.{◌≡◌, [], IfOk, None, OnErr, OnOk};
ghost use Rattle.std.specs.BTreeMap.{insert_entry};
ghost use Rattle.std.specs.List.{list_any};
ghost use Rattle.std.specs.List.Sorted.{IsStrictlySortedBy};
ghost use Rattle.std.specs.Map.{keys_of};
ghost use Rattle.lock_definitions.specs.Order.{lock_cmp};
ghost use Rattle.sorted_entries.specs.Places.{place_of};
ghost use Rattle.set_definitions.specs.Sets.{first_set, has_lock, held_set, joined, joined_all, lacks, mode_in, segments_in, to_ask, with_mode};

use crate::locks::{first_unserved, place_of, put, segments_in, served};
use crate::modes::{serves, with_mode};
use frang_base::limits::ROOT_INODE;
use frang_base::{LockId, Mode, NoMemory, ServerId};
use lock_table::LockTable;
use std::alloc::{AllocError, Global};
use std::marker::Model;

/// Locks with the modes in which they are needed, each once, seen as the list of them, ascending. A lock is found in time logarithmic in their number, and one that
/// joins moves those behind it.
#[derive(Drop)]
pub struct LockSet {
    locks: Vec<(LockId, Mode)>,
}

impl Model for LockSet {
    ghost use Rattle.std.specs.Prelude.{List};
    ghost use Rattle.std.specs.List.Sorted.{IsStrictlySortedBy};
    ghost use Rattle.std.specs.Map.{keys_of};
    ghost use Rattle.frang_base.specs.declared.lock.LockId.{LockId};
    ghost use Rattle.frang_base.specs.declared.lock.Mode.{Mode};
    ghost use Rattle.lock_definitions.specs.Order.{lock_cmp};

    ghost Value = { List (LockId × Mode) };

    ghost view = { λ set. set.locks.items };

    ghost invariant = { λ set. IsStrictlySortedBy lock_cmp (keys_of set.locks.items) };
}

impl LockSet {
    /// No locks. It takes no memory.
    pub fn new(alloc: Global) -> Self
        ensures { result ≡ [] }
    {
        LockSet {
            locks: Vec::new(alloc),
        }
    }

    /// The root's lock, shared, as which the set of a line over paths begins.
    pub fn first(alloc: Global) -> Result<Self, NoMemory>
        ensures { IfOk result (λ set. set ≡ first_set) }
    {
        let mut set = LockSet::new(alloc);
        set.join(LockId::Node(ROOT_INODE), Mode::Shared)?;
        Ok(set)
    }

    /// The locks with their modes, ascending.
    pub fn as_slice(&self) -> &[(LockId, Mode)]
        ensures locks { result.now ≡ self.now }
        ensures ordered { IsStrictlySortedBy lock_cmp (keys_of self.now) }
    {
        &self.locks
    }

    // The lock's place, or the place where it would go.
    fn place(&self, lock: LockId) -> Result<usize, usize>
        ensures place { result ≡ place_of lock_cmp lock self.now }
        ensures missing { OnErr result (mode_in self.now lock ≡ None) }
    {
        place_of(&self.locks, lock)
    }

    /// The mode in which it has a lock. `None` exactly where it hasn't the lock.
    pub fn mode(&self, lock: LockId) -> Option<Mode>
        ensures { result ≡ mode_in self.now lock }
    {
        match self.place(lock) {
            Ok(at) => Some(self.locks[at].1),
            Err(_) => None,
        }
    }

    /// Whether it has a lock.
    pub fn has(&self, lock: LockId) -> bool
        ensures { result ≡ has_lock self.now lock }
    {
        self.mode(lock).is_some()
    }

    /// Whether it lacks a lock in this mode. A set that has it sole doesn't lack it shared.
    pub fn lacks(&self, lock: LockId, mode: Mode) -> bool
        ensures { result ≡ lacks self.now (lock, mode) }
    {
        !serves(self.mode(lock), mode)
    }

    /// Whether it lacks one of these locks.
    pub fn lacks_any(&self, needs: &[(LockId, Mode)]) -> bool
        ensures { result ≡ list_any (lacks self.now) needs.now }
    {
        for need in needs {
            let missing = self.lacks(need.0, need.1);
            if missing {
                return true;
            }
        }
        false
    }

    /// The segments whose locks it has, ascending.
    pub fn segments(&self, alloc: Global) -> Result<Vec<u32>, NoMemory>
        ensures { IfOk result (λ segments. segments.items ≡ segments_in self.now) }
    {
        segments_in(alloc, &self.locks)
    }

    /// The least of its locks that a server holds neither in the needed mode nor sole. `None` exactly where the server holds them all.
    pub fn to_ask(&self, table: &LockTable, server: ServerId) -> Option<(LockId, Mode)>
        ensures { result ≡ to_ask table.now.locks server.0 self.now }
    {
        first_unserved(&self.locks, table, server)
    }

    /// Its locks below the least that a server doesn't hold; all of them where there is none.
    pub fn held(&self, table: &LockTable, server: ServerId) -> &[(LockId, Mode)]
        ensures { result.now ≡ held_set table.now.locks server.0 self.now }
    {
        let count = served(&self.locks, table, server);
        &self.locks[..count]
    }
}

impl LockSet {
    /// A lock joins it, sole where both modes are needed. After `NoMemory` it is as before.
    pub fn join(&mut self, lock: LockId, mode: Mode) -> Result<(), NoMemory>
        ensures ok { OnOk result (self.new ≡ joined self.old (lock, mode)) }
        ensures err { OnErr result (self.new ≡ self.old) }
    {
        let needed = self.needed(lock, mode);
        self.put(lock, needed)
    }

    /// These locks join it. After `NoMemory` it is as before.
    pub fn join_all(&mut self, needs: &[(LockId, Mode)]) -> Result<(), NoMemory>
        ensures ok { OnOk result (self.new ≡ joined_all self.old needs.now) }
        ensures err { OnErr result (self.new ≡ self.old) }
    {
        *self = self.grown(needs)?;
        Ok(())
    }

    /// The set that it is once these locks have joined it, beside it.
    pub fn grown(&self, needs: &[(LockId, Mode)]) -> Result<Self, NoMemory>
        ensures { IfOk result (λ set. set ≡ joined_all self.now needs.now) }
    {
        let mut grown = self.try_copy()?;
        grown.join_each(needs)?;
        Ok(grown)
    }

    /// Another set of the same locks.
    pub fn try_copy(&self) -> Result<Self, NoMemory>
        ensures { IfOk result (λ set. set ≡ self.now) }
    {
        Ok(self.clone()?)
    }

    // These locks join it, as far as there is memory for them.
    fn join_each(&mut self, needs: &[(LockId, Mode)]) -> Result<(), NoMemory>
        ensures { OnOk result (self.new ≡ joined_all self.old needs.now) }
    {
        for need in needs {
            self.join(need.0, need.1)?;
        }
        Ok(())
    }

    // The mode in which a lock is needed that is needed so beside what is needed already.
    fn needed(&self, lock: LockId, mode: Mode) -> Mode
        ensures { result ≡ with_mode (mode_in self.now lock) mode }
    {
        with_mode(self.mode(lock), mode)
    }

    // It has the lock in this mode.
    fn put(&mut self, lock: LockId, mode: Mode) -> Result<(), NoMemory>
        ensures ok { OnOk result (self.new ≡ insert_entry lock_cmp self.old lock mode) }
        ensures err { OnErr result (self.new ≡ self.old) }
    {
        let place = self.place(lock);
        put(&mut self.locks, place, lock, mode)
    }
}

impl Clone for LockSet {
    ghost is_clone = { λ a b. a ≡ b };

    fn clone(&self) -> Result<LockSet, AllocError> {
        Ok(LockSet {
            locks: self.locks.clone()?,
        })
    }
}
