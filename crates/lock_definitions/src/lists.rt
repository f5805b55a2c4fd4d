// What one server knows itself to have of a lock table.
ghost use Rattle.std.specs.Prelude.{◌≡◌, ◌↔◌, [], ◌∷◌, ◌++◌, length, IfOk, IsTrue, OnOk, OnErr};
ghost use Rattle.std.specs.List.{slice_get};
ghost use Rattle.std.specs.Option.{option_copied};

use frang_base::{LockId, Mode, NoMemory, ServerId};
use std::alloc::{AllocError, Global};
use std::marker::Model;

/// Locks with a mode each, seen as the list of them.
#[derive(Drop)]
pub struct LockList {
    locks: Vec<(LockId, Mode)>,
}

impl Model for LockList {
    ghost use Rattle.std.specs.Prelude.{List};
    ghost use Rattle.frang_base.specs.declared.lock.LockId.{LockId};
    ghost use Rattle.frang_base.specs.declared.lock.Mode.{Mode};

    ghost Value = { List (LockId × Mode) };

    ghost view = { λ l. l.locks.items };
}

impl LockList {
    /// No locks. It takes no memory.
    pub fn new(alloc: Global) -> Self
        ensures { result ≡ [] }
    {
        LockList {
            locks: Vec::new(alloc),
        }
    }

    /// Adds a lock at the end. After `NoMemory` the list is as before.
    pub fn push(&mut self, lock: (LockId, Mode)) -> Result<(), NoMemory>
        ensures ok { OnOk result (self.new ≡ self.old ++ lock ∷ []) }
        ensures err { OnErr result (self.new ≡ self.old) }
    {
        self.locks.push(lock)?;
        Ok(())
    }

    /// The number of locks.
    pub fn len(&self) -> usize
        ensures { result ≡ length self.now }
    {
        self.locks.len()
    }

    pub fn is_empty(&self) -> bool
        ensures { IsTrue result ↔ (self.now ≡ []) }
    {
        self.locks.is_empty()
    }

    /// The lock at a place, counted from 0. `None` exactly where the place isn't below the length.
    pub fn get(&self, i: usize) -> Option<&(LockId, Mode)>
        ensures { option_copied result ≡ slice_get self.now i }
    {
        self.locks.get(i)
    }

    /// All locks, in order.
    pub fn as_slice(&self) -> &[(LockId, Mode)]
        ensures { result.now ≡ self.now }
    {
        &self.locks
    }

    /// Another list of the same locks.
    pub fn try_copy(&self) -> Result<Self, NoMemory>
        ensures { IfOk result (λ l. l ≡ self.now) }
    {
        Ok(self.clone()?)
    }
}

impl Clone for LockList {
    ghost is_clone = { λ a b. a ≡ b };

    fn clone(&self) -> Result<LockList, AllocError> {
        Ok(LockList {
            locks: self.locks.clone()?,
        })
    }
}

/// The dead servers whose logs a taker has, each with the tick at which the taker's lease ends; seen as the list of them.
#[derive(Drop)]
pub struct LogList {
    logs: Vec<(ServerId, u64)>,
}

impl Model for LogList {
    ghost use Rattle.std.specs.Prelude.{List, ℕ};
    ghost use Rattle.frang_base.specs.declared.sector.ServerId.{ServerId};

    ghost Value = { List (ServerId × ℕ) };

    ghost view = { λ l. l.logs.items };
}

impl LogList {
    /// No logs. It takes no memory.
    pub fn new(alloc: Global) -> Self
        ensures { result ≡ [] }
    {
        LogList {
            logs: Vec::new(alloc),
        }
    }

    /// Adds a log at the end. After `NoMemory` the list is as before.
    pub fn push(&mut self, log: (ServerId, u64)) -> Result<(), NoMemory>
        ensures ok { OnOk result (self.new ≡ self.old ++ log ∷ []) }
        ensures err { OnErr result (self.new ≡ self.old) }
    {
        self.logs.push(log)?;
        Ok(())
    }

    /// The number of logs.
    pub fn len(&self) -> usize
        ensures { result ≡ length self.now }
    {
        self.logs.len()
    }

    pub fn is_empty(&self) -> bool
        ensures { IsTrue result ↔ (self.now ≡ []) }
    {
        self.logs.is_empty()
    }

    /// The log at a place, counted from 0. `None` exactly where the place isn't below the length.
    pub fn get(&self, i: usize) -> Option<&(ServerId, u64)>
        ensures { option_copied result ≡ slice_get self.now i }
    {
        self.logs.get(i)
    }

    /// All logs, in order.
    pub fn as_slice(&self) -> &[(ServerId, u64)]
        ensures { result.now ≡ self.now }
    {
        &self.logs
    }

    /// Another list of the same logs.
    pub fn try_copy(&self) -> Result<Self, NoMemory>
        ensures { IfOk result (λ l. l ≡ self.now) }
    {
        Ok(self.clone()?)
    }
}

impl Clone for LogList {
    ghost is_clone = { λ a b. a ≡ b };

    fn clone(&self) -> Result<LogList, AllocError> {
        Ok(LogList {
            logs: self.logs.clone()?,
        })
    }
}

/// What one server knows itself to have: the locks that it holds, those that it asked for and wasn't granted, and the logs
/// that it has taken.
#[derive(Drop)]
pub struct ClerkLocks {
    pub server: ServerId,
    pub held: LockList,
    pub wants: LockList,
    pub logs: LogList,
}
