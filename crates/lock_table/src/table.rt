// The lock table.
ghost use Rattle.std.specs.Prelude.{◌≡◌, ◌↔◌, ◌≢◌, ◌<◌, ◌++◌, [], IsOk, IsSome, IsTrue, IfOk, OnOk, OnErr};
ghost use Rattle.std.specs.List.{slice_get};
ghost use Rattle.std.specs.Option.{option_copied};
ghost use Rattle.ordered_map.specs.Chunks.{joined};
ghost use Rattle.lock_definitions.specs.Locks.{no_locks, claim_of, held, is_wished, log_hold, AreLocks};
ghost use Rattle.lock_definitions.specs.Calls.{want_answer, answered, asked_for, is_free, wanted, released, downgraded, revokes, log_taken_by, log_answer, taken, extended, cleared};
ghost use Rattle.lock_definitions.specs.Holders.{is_unheld};
ghost use Rattle.lock_table.specs.Table.{HasRoom, KeepsRoom};

use crate::claims::Claims;
use crate::lock_map::unreserved;
use crate::logs::Logs;
use crate::modes::{answered, given_up, is_wished_in, shared};
use frang_base::limits::SERVERS;
use frang_base::{LockId, Mode, NoMemory, ServerId};
use lock_definitions::{AskedFor, Claim, LogHold, LogTaken, Wanted};
use ordered_map::Chunk;
use std::alloc::Global;
use std::marker::Model;

/// A lock table, seen as its locks, by the definitions of locks, and the room for further claims. Servers are 0 to 15; a taker of
/// logs may also be the host. A lock is found in time logarithmic in their number, and what a server is asked for lies ready.
pub struct LockTable {
    alloc: Global,
    claims: Claims,
    // The lock for whose next want there is a place, also where nobody claims it.
    reserved: Option<LockId>,
    logs: Logs,
}

// By one call, wherever it is dropped.
impl Drop for LockTable {
    fn drop(self) {
        let LockTable {
            alloc: _,
            claims: _claims,
            reserved: _,
            logs: _,
        } = self;
    }
}

impl Model for LockTable {
    ghost use Rattle.lock_table.specs.Table.{Table, table_of, IsTable};

    ghost Value = { Table };

    ghost view = { λ table. table_of table.claims table.reserved table.logs };

    ghost invariant = { λ table. IsTable table.claims.entries table.reserved table.logs };
}

// The answer to a want that these holders stand against.
fn answer_to(holders: u32) -> Wanted
    ensures granted { holders ≡ 0 → result ≡ Wanted.Granted }
    ensures waits { (holders ≡ 0 → ⊥) → result ≡ Wanted.Wait holders }
{
    if holders == 0 {
        Wanted::Granted
    } else {
        Wanted::Wait { holders }
    }
}

// Adds what a piece lists.
fn add_piece(
    asked: &mut Vec<(LockId, AskedFor)>,
    piece: &[(LockId, AskedFor)],
) -> Result<(), NoMemory>
    ensures { OnOk result (asked.new.items ≡ asked.old.items ++ piece.now) }
{
    asked.extend_from_slice(piece)?;
    Ok(())
}

// What pieces that follow one another list.
fn listed(
    alloc: Global,
    pieces: &[Chunk<LockId, AskedFor>],
) -> Result<Vec<(LockId, AskedFor)>, NoMemory>
    ensures { IfOk result (λ asked. asked.items ≡ joined pieces.now) }
{
    let mut asked = Vec::new(alloc);
    for piece in pieces {
        add_piece(&mut asked, piece.entries())?;
    }
    Ok(asked)
}

impl LockTable {
    /// A table in which nothing is held, wished or taken. It takes no memory.
    pub fn new(alloc: Global) -> LockTable
        ensures { result.locks ≡ no_locks }
    {
        LockTable {
            alloc,
            claims: Claims::new(alloc),
            reserved: None,
            logs: Logs::new(),
        }
    }

    // A server's claim on a lock.
    fn claim(&self, server: ServerId, lock: LockId) -> Claim
        ensures claim { result ≡ claim_of self.now.locks server.0 lock }
        ensures state { AreLocks self.now.locks }
    {
        self.claims.claim(server, lock)
    }

    /// The mode in which a server holds a lock. `None` exactly where it doesn't hold it.
    pub fn held(&self, server: ServerId, lock: LockId) -> Option<Mode>
        ensures mode { result ≡ held self.now.locks server.0 lock }
        ensures state { AreLocks self.now.locks }
    {
        self.claim(server, lock).held
    }

    /// Whether a server's wish for a lock in this mode is noted. It takes time logarithmic in the number of locks, and no memory.
    pub fn is_wished(&self, server: ServerId, lock: LockId, mode: Mode) -> bool
        ensures { result ≡ is_wished self.now.locks server.0 lock mode }
    {
        is_wished_in(self.claim(server, lock), mode)
    }

    /// Whether no other server holds a lock in a mode that conflicts with this one: exactly where a want would be granted. It takes time
    /// logarithmic in the number of locks, and no memory.
    pub fn is_free(&self, server: ServerId, lock: LockId, mode: Mode) -> bool
        ensures { result ≡ is_free self.now.locks server.0 lock mode }
    {
        self.claims.holders(server, lock, mode) == 0
    }

    /// Whether no server holds a lock. It takes time logarithmic in the number of locks, and no memory.
    pub fn is_unheld(&self, lock: LockId) -> bool
        ensures { result ≡ is_unheld self.now.locks lock }
    {
        self.claims.is_unheld(lock)
    }

    /// What a server, 0 to 15, is asked for of a lock, where a noted wish of another server conflicts with its hold: `Downgrade` exactly
    /// where it holds the lock sole and a shared one is wished. It takes time logarithmic in the number of locks, and no memory.
    pub fn asked_for(&self, server: ServerId, lock: LockId) -> Option<AskedFor>
        requires { server.0 < SERVERS }
        ensures { result ≡ asked_for self.now.locks server.0 lock }
    {
        self.claims.asked_for(server, lock)
    }

    /// A server, 0 to 15, wants a lock in a mode. It waits exactly where another server holds the lock and one of the two modes is
    /// sole; the wish is then noted, until it is granted or the server is cleared. Else the mode is granted; who holds the lock
    /// sole keeps it so. After `NoMemory` the locks are as before; it doesn't come where there is room for this want.
    pub fn want(&mut self, server: ServerId, lock: LockId, mode: Mode) -> Result<Wanted, NoMemory>
        requires { server.0 < SERVERS }
        ensures answer { IfOk result (λ answer. answer ≡ want_answer self.old.locks server.0 lock mode) }
        ensures ok { OnOk result (self.new.locks ≡ wanted self.old.locks server.0 lock mode) }
        ensures err { OnErr result (self.new.locks ≡ self.old.locks) }
        ensures sure { HasRoom self.old server.0 lock → IsOk result }
    {
        let claimed = self.claims.place(lock)?;
        let answer = answer_to(claimed.holders(server, mode));
        let claim = answered(answer, mode, claimed.claim(server));
        self.claims.change(server, lock, claimed, claim, Some(lock));
        self.reserved = unreserved(self.reserved, lock);
        Ok(answer)
    }

    /// Makes room for a want of this server, 0 to 15, for this lock, as the next call. Nothing else changes, whatever the answer. It
    /// takes no memory where there is that room.
    pub fn reserve(&mut self, server: ServerId, lock: LockId) -> Result<(), NoMemory>
        requires { server.0 < SERVERS }
        ensures locks { self.new.locks ≡ self.old.locks }
        ensures ok { OnOk result (HasRoom self.new server.0 lock) }
        ensures sure { HasRoom self.old server.0 lock → IsOk result }
    {
        let _ = self.claims.place(lock)?;
        self.claims.free(self.reserved, Some(lock));
        self.reserved = Some(lock);
        Ok(())
    }
}

impl LockTable {
    /// The locks of a server that a noted wish of another server conflicts with, ascending, each with what is asked for:
    /// `Downgrade` exactly where the server holds the lock sole and a shared one is wished.
    pub fn revokes(&self, server: ServerId) -> Result<Vec<(LockId, AskedFor)>, NoMemory>
        ensures { IfOk result (λ asked. asked.items ≡ revokes self.now.locks server.0) }
    {
        listed(self.alloc, self.asked(server))
    }

    // The same, as it lies.
    pub(crate) fn asked(&self, server: ServerId) -> &[Chunk<LockId, AskedFor>]
        ensures { joined result.now ≡ revokes self.now.locks server.0 }
    {
        self.claims.asked(server)
    }

    /// Whether some lock of a server is asked for: exactly where `revokes` lists one. It takes no memory.
    pub fn is_asked(&self, server: ServerId) -> bool
        ensures { IsTrue result ↔ (revokes self.now.locks server.0 ≢ []) }
    {
        self.first_asked(server).is_some()
    }

    /// The first that `revokes` lists for a server. `None` exactly where it lists nothing. It takes no memory.
    pub fn first_asked(&self, server: ServerId) -> Option<(LockId, AskedFor)>
        ensures { result ≡ slice_get (revokes self.now.locks server.0) 0 }
    {
        self.claims.first_asked(server)
    }

    /// What `revokes` lists for a server at a place, counted from 0. `None` exactly where it lists no more than so many. It takes no memory,
    /// and time in the number of the pieces, of some hundred locks each, in which what the server is asked for lies.
    pub fn asked_at(&self, server: ServerId, place: usize) -> Option<(LockId, AskedFor)>
        ensures { result ≡ slice_get (revokes self.now.locks server.0) place }
    {
        self.claims.asked_at(server, place)
    }

    /// Who has taken the log of a dead server, and until when. `None` exactly where nobody has. It takes no memory, and the same time
    /// however many locks there are.
    pub fn log_hold(&self, dead: ServerId) -> Option<LogHold>
        ensures { result ≡ log_hold self.now.locks dead.0 }
    {
        self.logs.hold(dead)
    }

    /// A server gives up a lock that it holds. It takes no memory, and leaves the room that there was.
    pub fn release(&mut self, server: ServerId, lock: LockId)
        requires { IsSome (held self.old.locks server.0 lock) }
        ensures locks { self.new.locks ≡ released self.old.locks server.0 lock }
        ensures room { KeepsRoom self.old self.new }
    {
        let claimed = self.claims.claimed(lock);
        let claim = given_up(claimed.claim(server));
        self.claims
            .change(server, lock, claimed, claim, self.reserved);
    }

    /// A server that holds a lock sole holds it shared from now on. It takes no memory, and leaves the room that there was.
    pub fn downgrade(&mut self, server: ServerId, lock: LockId)
        requires { held self.old.locks server.0 lock ≡ Some Mode.Sole }
        ensures locks { self.new.locks ≡ downgraded self.old.locks server.0 lock }
        ensures room { KeepsRoom self.old self.new }
    {
        let claimed = self.claims.claimed(lock);
        let claim = shared(claimed.claim(server));
        self.claims
            .change(server, lock, claimed, claim, self.reserved);
    }

    /// The log of a dead server is taken until the taker's lease ends at the tick `expiry`. `LogTaken` comes exactly where another
    /// taker has it, whose expiry isn't below `now`; it shows that taker and expiry, and the holds are as before. It takes no
    /// memory, and leaves the room that there was.
    pub fn take_log(
        &mut self,
        dead: ServerId,
        by: ServerId,
        now: u64,
        expiry: u64,
    ) -> Result<(), LogTaken>
        ensures answer { result ≡ log_answer (log_taken_by self.old.locks dead.0 by.0 now) }
        ensures after { self.new.locks ≡ taken self.old.locks dead.0 by.0 now expiry }
        ensures room { KeepsRoom self.old self.new }
    {
        match self.logs.hold_against(dead, by, now) {
            Some(hold) => Err(LogTaken {
                by: hold.by,
                expiry: hold.expiry,
            }),
            None => {
                self.logs.take(dead, LogHold { by, expiry });
                Ok(())
            }
        }
    }

    /// A taker's lease was renewed: each log that it has taken is its own until the tick `expiry`. It takes no memory, and
    /// leaves the room that there was.
    pub fn extend(&mut self, by: ServerId, expiry: u64)
        ensures locks { self.new.locks ≡ extended self.old.locks by.0 expiry }
        ensures room { KeepsRoom self.old self.new }
    {
        self.logs.extend(by, expiry);
    }

    /// Every lock, wish and log hold of a dead server is gone, and the hold on its log. It takes no memory, and leaves
    /// the room that there was.
    pub fn clear(&mut self, dead: ServerId)
        ensures locks { self.new.locks ≡ cleared self.old.locks dead.0 }
        ensures room { KeepsRoom self.old self.new }
    {
        self.claims.end_all(dead, self.reserved);
        self.logs.clear(dead);
    }
}
