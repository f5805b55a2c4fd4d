// The lock table, and what the parties know of it.
ghost use Rattle.std.specs.Prelude.{◌≡◌, ◌<◌, ◌++◌, ◌∷◌, [], map, IsOk, IsSome, IfOk, OnOk, OnErr};
ghost use Rattle.lock_definitions.specs.Locks.{no_locks, held, AreLocks};
ghost use Rattle.lock_definitions.specs.Calls.{want_answer, wanted, released, downgraded, log_taken_by, log_answer, taken, extended, cleared};
ghost use Rattle.lock_definitions.specs.Same.{SameLocks, AllWishesWait};
ghost use Rattle.lock_table.specs.Table.{HasRoom, KeepsRoom};
ghost use Rattle.known_locks.specs.Beside.{IsKnown};
ghost use Rattle.known_locks.specs.Listed.{clerk_of, clerks_of};

use crate::changes::{answered, given_up, shared};
use crate::clerks::Clerks;
use crate::takers::Takers;
use frang_base::limits::SERVERS;
use frang_base::{LockId, Mode, NoMemory, ServerId};
use lock_definitions::{ClerkLocks, LogHold, LogTaken, Wanted};
use lock_table::LockTable;
use std::alloc::Global;
use std::marker::Model;

/// A lock table, seen as its locks and the room for further claims, and beside it what each party knows itself to have: the type
/// keeps that the two say the same. A want has room where there is room both in the table and beside it.
#[derive(Drop)]
pub struct KnownLocks {
    alloc: Global,
    table: LockTable,
    clerks: Clerks,
    takers: Takers,
}

impl Model for KnownLocks {
    ghost use Rattle.lock_table.specs.Table.{Table};
    ghost use Rattle.known_locks.specs.Beside.{known_table, IsKnown};

    ghost Value = { Table };

    ghost view = { λ known. known_table known.table known.clerks.room };

    ghost invariant = { λ known. IsKnown known.table.locks known.clerks.claims known.takers };
}

// A table's locks are those of a lock table, as each call that reads them says.
fn reads(table: &LockTable)
    ensures { AreLocks table.now.locks }
{
    let _ = table.held(ServerId(0), LockId::Log(0));
}

impl KnownLocks {
    /// A table in which nothing is held, wished or taken. It takes no memory.
    pub fn new(alloc: Global) -> KnownLocks
        ensures { result.locks ≡ no_locks }
    {
        KnownLocks {
            alloc,
            table: LockTable::new(alloc),
            clerks: Clerks::new(alloc),
            takers: Takers::new(),
        }
    }

    /// The table, whose calls that only read answer for these locks.
    pub fn table(&self) -> &LockTable
        ensures { result.now.locks ≡ self.now.locks }
    {
        &self.table
    }

    /// A server, 0 to 15, wants a lock in a mode. It waits exactly where another server holds the lock and one of the two modes is
    /// sole; the wish is then noted, until it is granted or the server is cleared. Else the mode is granted; who holds the lock
    /// sole keeps it so. After `NoMemory` the locks are as before; it doesn't come where there is room for this want.
    pub fn want(&mut self, server: ServerId, lock: LockId, mode: Mode) -> Result<Wanted, NoMemory>
        requires { server.0 < SERVERS }
        ensures answer { IfOk result (λ answer. answer ≡ want_answer self.old.locks server.0 lock mode) }
        ensures ok { OnOk result (self.new.locks ≡ wanted self.old.locks server.0 lock mode) }
        ensures err { OnErr result (self.new.locks ≡ self.old.locks) }
        ensures sure { HasRoom self.old server.0 lock → IsOk result }
    {
        self.clerks.reserve_one(server)?;
        let answer = self.table.want(server, lock, mode)?;
        let claim = answered(answer, mode, self.clerks.claim(server, lock));
        self.clerks.put(server, lock, claim);
        Ok(answer)
    }

    /// Makes room for a want of this server, 0 to 15, for this lock, as the next call. Nothing else changes, whatever the answer. It
    /// takes no memory where there is that room.
    pub fn reserve(&mut self, server: ServerId, lock: LockId) -> Result<(), NoMemory>
        requires { server.0 < SERVERS }
        ensures locks { self.new.locks ≡ self.old.locks }
        ensures ok { OnOk result (HasRoom self.new server.0 lock) }
        ensures sure { HasRoom self.old server.0 lock → IsOk result }
    {
        self.clerks.reserve()?;
        self.table.reserve(server, lock)
    }

    /// A server gives up a lock that it holds. It takes no memory, and leaves the room that there was.
    pub fn release(&mut self, server: ServerId, lock: LockId)
        requires { IsSome (held self.old.locks server.0 lock) }
        ensures locks { self.new.locks ≡ released self.old.locks server.0 lock }
        ensures room { KeepsRoom self.old self.new }
    {
        self.table.release(server, lock);
        let claim = given_up(self.clerks.claim(server, lock));
        self.clerks.put(server, lock, claim);
    }

    /// A server that holds a lock sole holds it shared from now on. It takes no memory, and leaves the room that there was.
    pub fn downgrade(&mut self, server: ServerId, lock: LockId)
        requires { held self.old.locks server.0 lock ≡ Some Mode.Sole }
        ensures locks { self.new.locks ≡ downgraded self.old.locks server.0 lock }
        ensures room { KeepsRoom self.old self.new }
    {
        self.table.downgrade(server, lock);
        let claim = shared(self.clerks.claim(server, lock));
        self.clerks.put(server, lock, claim);
    }

    /// The log of a dead server is taken until the taker's lease ends at the tick `expiry`. `LogTaken` comes exactly where another
    /// taker has it, whose expiry isn't below `now`; it shows that taker and expiry, and the holds are as before. It takes no
    /// memory, and leaves the room that there was.
    pub fn take_log(
        &mut self,
        dead: ServerId,
        by: ServerId,
        now: u64,
        expiry: u64,
    ) -> Result<(), LogTaken>
        ensures answer { result ≡ log_answer (log_taken_by self.old.locks dead.0 by.0 now) }
        ensures after { self.new.locks ≡ taken self.old.locks dead.0 by.0 now expiry }
        ensures room { KeepsRoom self.old self.new }
    {
        match self.table.take_log(dead, by, now, expiry) {
            Ok(()) => {
                self.takers.take(dead, LogHold { by, expiry });
                Ok(())
            }
            Err(taken) => Err(taken),
        }
    }

    /// A taker's lease was renewed: each log that it has taken is its own until the tick `expiry`. It takes no memory, and
    /// leaves the room that there was.
    pub fn extend(&mut self, by: ServerId, expiry: u64)
        ensures locks { self.new.locks ≡ extended self.old.locks by.0 expiry }
        ensures room { KeepsRoom self.old self.new }
    {
        self.table.extend(by, expiry);
        self.takers.extend(by, expiry);
    }

    /// Every lock, wish and log hold of a dead server is gone, and the hold on its log. It takes no memory, and leaves
    /// the room that there was.
    pub fn clear(&mut self, dead: ServerId)
        ensures locks { self.new.locks ≡ cleared self.old.locks dead.0 }
        ensures room { KeepsRoom self.old self.new }
    {
        self.table.clear(dead);
        self.clerks.end(dead);
        self.takers.clear(dead);
    }
}

impl KnownLocks {
    // What a party holds, wishes and has taken.
    fn clerk(&self, party: ServerId) -> Result<ClerkLocks, NoMemory>
        ensures { IfOk result (λ clerk. clerk ≡ clerk_of self.now.locks party.0) }
    {
        let held = self.clerks.held(self.alloc, party)?;
        let wants = self.clerks.wishes(self.alloc, party)?;
        let logs = self.takers.logs(self.alloc, party)?;
        Ok(ClerkLocks {
            server: party,
            held,
            wants,
            logs,
        })
    }

    // Adds what a party holds, wishes and has taken.
    fn add_clerk(&self, clerks: &mut Vec<ClerkLocks>, party: ServerId) -> Result<(), NoMemory>
        ensures { OnOk result (clerks.new.items ≡ clerks.old.items ++ clerk_of self.now.locks party.0 ∷ []) }
    {
        let clerk = self.clerk(party)?;
        clerks.push(clerk)?;
        Ok(())
    }

    /// For each server, 0 to 15, and then for the host, the locks that it knows itself to hold, its noted wishes and the logs that it
    /// has taken: those of the table, though the table isn't read. Its one refusal is want of memory.
    pub fn clerks(&self) -> Result<Vec<ClerkLocks>, NoMemory>
        ensures { IfOk result (λ clerks. clerks.items ≡ clerks_of self.now.locks) }
    {
        let mut clerks = Vec::new(self.alloc);
        for server in 0..SERVERS as u8 {
            self.add_clerk(&mut clerks, ServerId(server))?;
        }
        self.add_clerk(&mut clerks, ServerId::HOST)?;
        Ok(clerks)
    }

    /// Puts a table in the place of this one. It has the same locks, and notes no wish that conflicts with no holder: such a wish
    /// isn't known any more either, and may be asked again. It takes no memory.
    pub fn set_locks(&mut self, table: LockTable)
        requires same { SameLocks table.locks self.old.locks }
        requires wait { AllWishesWait table.locks }
        ensures { self.new.locks ≡ table.locks }
    {
        reads(&self.table);
        reads(&table);
        self.clerks.renew_all(&table);
        self.table = table;
    }
}
