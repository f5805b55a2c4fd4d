// A table into which lists are put.
ghost use Rattle.std.specs.Prelude.{◌≡◌, ◌<◌, length, OnOk, None};
ghost use Rattle.frang_base.specs.declared.lock.LockId.TheVariants.{Log};
ghost use Rattle.lock_definitions.specs.Locks.{no_locks, AreLocks};
ghost use Rattle.lock_rebuild.specs.Rebuilt.{AreServers};
ghost use Rattle.lock_rebuild.specs.Steps.{is_before, with_hold, with_holds, with_all_holds, with_log, with_logs, with_all_logs, with_wish, with_wishes, with_all_wishes, AreNumbered};

use frang_base::limits::SERVERS;
use frang_base::{LockId, Mode, NoMemory, ServerId};
use lock_definitions::{ClerkLocks, Wanted};
use lock_table::LockTable;
use std::alloc::Global;
use std::marker::Model;

/// A table into which lists are put, and the least lock at which they were seen to clash.
#[derive(Drop)]
pub(crate) struct Rebuilding {
    pub(crate) table: LockTable,
    pub(crate) clash: Option<LockId>,
}

impl Model for Rebuilding {
    ghost use Rattle.lock_rebuild.specs.Steps.{Rebuilding};

    ghost Value = { Rebuilding };

    ghost view = { λ at. record { locks = at.table.locks; clash = at.clash } };
}

// Whether a lock lies before the least clash.
fn is_before(lock: LockId, clash: Option<LockId>) -> bool
    ensures { result ≡ is_before lock clash }
{
    match clash {
        Some(clash) => lock.cmp(&clash).is_lt(),
        None => true,
    }
}

impl Rebuilding {
    /// Nothing is held, wished or taken yet.
    pub(crate) fn new(alloc: Global) -> Rebuilding
        ensures { result ≡ record { locks = no_locks; clash = None } }
    {
        Rebuilding {
            table: LockTable::new(alloc),
            clash: None,
        }
    }

    /// The table and the least clash.
    pub(crate) fn finish(self) -> (LockTable, Option<LockId>)
        ensures table { result.0.locks ≡ self.locks }
        ensures clash { result.1 ≡ self.clash }
    {
        let Rebuilding { table, clash } = self;
        (table, clash)
    }

    // A server holds a lock.
    fn put_hold(&mut self, server: ServerId, entry: &(LockId, Mode)) -> Result<(), NoMemory>
        requires { server.0 < SERVERS }
        ensures { OnOk result (self.new ≡ with_hold server.0 self.old entry.now) }
    {
        if !is_before(entry.0, self.clash) {
            return Ok(());
        }
        match self.table.want(server, entry.0, entry.1)? {
            Wanted::Granted => {}
            Wanted::Wait { .. } => self.clash = Some(entry.0),
        }
        Ok(())
    }

    // A server holds the locks of a list.
    fn put_holds(&mut self, server: ServerId, held: &[(LockId, Mode)]) -> Result<(), NoMemory>
        requires { 0 < length held.now → server.0 < SERVERS }
        ensures holds { OnOk result (self.new ≡ with_holds server.0 self.old held.now) }
        ensures number { server.0 < 256 }
    {
        for entry in held {
            self.put_hold(server, entry)?;
        }
        Ok(())
    }

    /// The servers hold the locks of their lists.
    pub(crate) fn put_all_holds(&mut self, clerks: &[ClerkLocks]) -> Result<(), NoMemory>
        requires { AreServers clerks.now }
        ensures holds { OnOk result (self.new ≡ with_all_holds self.old clerks.now) }
        ensures numbered { OnOk result (AreNumbered clerks.now) }
    {
        for clerk in clerks {
            self.put_holds(clerk.server, clerk.held.as_slice())?;
        }
        Ok(())
    }

    // A party has taken a log.
    fn put_log(&mut self, party: ServerId, dead: ServerId, expiry: u64)
        ensures { self.new ≡ with_log party.0 self.old (dead, expiry) }
    {
        let lock = LockId::Log(dead.0);
        if is_before(lock, self.clash) && self.table.take_log(dead, party, 0, expiry).is_err() {
            self.clash = Some(lock);
        }
    }

    // A party has taken the logs of a list.
    fn put_logs(&mut self, party: ServerId, logs: &[(ServerId, u64)])
        ensures { self.new ≡ with_logs party.0 self.old logs.now }
    {
        for (dead, expiry) in logs {
            self.put_log(party, *dead, *expiry);
        }
    }

    /// The parties have taken the logs of their lists.
    pub(crate) fn put_all_logs(&mut self, clerks: &[ClerkLocks])
        ensures { self.new ≡ with_all_logs self.old clerks.now }
    {
        for clerk in clerks {
            self.put_logs(clerk.server, clerk.logs.as_slice());
        }
    }
}

// A server wishes a lock, which is noted where it conflicts with a holder.
fn put_wish(table: &mut LockTable, server: ServerId, entry: &(LockId, Mode)) -> Result<(), NoMemory>
    requires { server.0 < SERVERS }
    ensures { OnOk result (table.new.locks ≡ with_wish server.0 table.old.locks entry.now) }
{
    if !table.is_free(server, entry.0, entry.1) {
        table.want(server, entry.0, entry.1)?;
    }
    Ok(())
}

// A server wishes the locks of a list.
fn put_wishes(
    table: &mut LockTable,
    server: ServerId,
    wants: &[(LockId, Mode)],
) -> Result<(), NoMemory>
    requires { 0 < length wants.now → server.0 < SERVERS }
    ensures { OnOk result (table.new.locks ≡ with_wishes server.0 table.old.locks wants.now) }
{
    for entry in wants {
        put_wish(table, server, entry)?;
    }
    Ok(())
}

/// The servers wish the locks of their lists.
pub(crate) fn put_all_wishes(table: &mut LockTable, clerks: &[ClerkLocks]) -> Result<(), NoMemory>
    requires { AreServers clerks.now }
    ensures { OnOk result (table.new.locks ≡ with_all_wishes table.old.locks clerks.now) }
{
    for clerk in clerks {
        put_wishes(table, clerk.server, clerk.wants.as_slice())?;
    }
    Ok(())
}
