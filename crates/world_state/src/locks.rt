// What the events of lines and locks do that need no plan: Begin, Ask, Give.
ghost use Rattle.std.specs.Prelude.{◌≡◌, ◌<◌, IfOk, IsOk, IsSome, IsSomeAnd, IsTrue, OnErr, OnOk, Some};
ghost use Rattle.std.specs.Option.{option_copied};
ghost use Rattle.frang_base.specs.declared.limits.TheConstants.{SERVERS};
ghost use Rattle.core_definitions.specs.Cores.{next_of};
ghost use Rattle.core_definitions.specs.LineEffects.{asked, begun};
ghost use Rattle.core_definitions.specs.Lines.{operation_of};
ghost use Rattle.core_definitions.specs.WriteEffects.{given};
ghost use Rattle.core_definitions.specs.WriteGuards.{may_give};
ghost use Rattle.lock_definitions.specs.Calls.{asked_for};
ghost use Rattle.lock_table.specs.Table.{HasRoom};
ghost use Rattle.world_state.specs.Begins.{Begins};
ghost use Rattle.world_state.specs.States.{core_at};

use crate::world::World;
use frang_base::{Line, LockId, Mode, NoMemory, ServerId, What};
use lock_definitions::AskedFor;
use server_core::Under;

// ---- lines

impl World {
    // A line that begins next, as it will be under way.
    fn under_for(&self, a: ServerId, line: &Line) -> Result<Under, NoMemory>
        requires server { a.0 < SERVERS }
        requires line { next_of (core_at self.now) a.0 ≡ Some line.now }
        requires asks { IsSome (operation_of line.now.what) }
        ensures { IfOk result (λ under. Begins self.now a.0 under.under) }
    {
        match &line.what {
            What::Server(operation) => {
                let fixed = self.parties.get(a).server.answer_at_first(operation);
                Under::of(self.alloc, line.clone()?, operation, fixed)
            }
            What::Host(_) => unreachable!(),
        }
    }

    /// The line of a server that begins next, as it will be under way. Its one refusal is want of memory.
    pub fn ready_begin(&self, a: ServerId) -> Result<Under, NoMemory>
        requires server { a.0 < SERVERS }
        requires line { IsSomeAnd (next_of (core_at self.now) a.0) (λ line. IsSome (operation_of line.what)) }
        ensures { IfOk result (λ under. Begins self.now a.0 under.under) }
    {
        match self.next_line(a) {
            Some(line) => self.under_for(a, line),
            None => unreachable!(),
        }
    }

    /// Begin: the line, as it was made ready, is under way.
    pub fn begin(&mut self, a: ServerId, under: Under)
        requires server { a.0 < SERVERS }
        requires begins { Begins self.old a.0 under.under }
        ensures { core_at self.new ≡ begun (core_at self.old) a.0 }
    {
        self.parties.begin(a, under);
    }
}

// ---- locks

impl World {
    /// Makes room for a server's want of a lock. The core is the same, whatever the answer.
    pub fn ready_ask(&mut self, a: ServerId, lock: LockId) -> Result<(), NoMemory>
        requires { a.0 < SERVERS }
        ensures core { core_at self.new ≡ core_at self.old }
        ensures ok { OnOk result (HasRoom self.new.locks a.0 lock) }
    {
        self.locks.reserve(a, lock)
    }

    /// Ask: the lock is granted, or the wish is noted. After `NoMemory`, which doesn't come where there is room, nothing has changed.
    pub fn ask(&mut self, a: ServerId, lock: LockId, mode: Mode) -> Result<(), NoMemory>
        requires { a.0 < SERVERS }
        ensures ok { OnOk result (core_at self.new ≡ asked (core_at self.old) a.0 lock mode) }
        ensures err { OnErr result (core_at self.new ≡ core_at self.old) }
        ensures sure { HasRoom self.old.locks a.0 lock → IsOk result }
    {
        self.locks.want(a, lock, mode)?;
        Ok(())
    }

    // A lock is released, and what was cached under it is dropped.
    fn release(&mut self, a: ServerId, lock: LockId)
        requires given { IsTrue (may_give (core_at self.old) a.0 lock) }
        requires asked { asked_for self.old.locks.locks a.0 lock ≡ Some AskedFor.Release }
        ensures { core_at self.new ≡ given (core_at self.old) a.0 lock }
    {
        self.locks.release(a, lock);
        self.parties.drop_under(a, lock);
    }

    /// Give: the lock is released and what was cached under it is dropped, or it is downgraded.
    pub fn give(&mut self, a: ServerId, lock: LockId)
        requires { IsTrue (may_give (core_at self.old) a.0 lock) }
        ensures { core_at self.new ≡ given (core_at self.old) a.0 lock }
    {
        match self.locks.table().asked_for(a, lock) {
            Some(AskedFor::Downgrade) => self.locks.downgrade(a, lock),
            Some(AskedFor::Release) => self.release(a, lock),
            None => unreachable!(),
        }
    }
}
