// Room for a commit.
ghost use Rattle.std.specs.Prelude.{◌≡◌, ◌-◌, ◌<◌, ◌≤◌, true, IsTrue, OnOk};
ghost use Rattle.frang_base.specs.declared.limits.TheConstants.{LOG_NUMBERS_END};
ghost use Rattle.ring_definitions.specs.Rings as rings;
ghost use Rattle.ring_definitions.specs.Rings.{is_record};
ghost use Rattle.core_definitions.specs.Servers.{is_in_mount};
ghost use Rattle.wal_ring.specs.SpaciousRings as spacious;
ghost use Rattle.server_core.specs.Outcomes.{MayAppend, MayAppendSome, MayCommit, are_older, is_older_at};
ghost use Rattle.server_core.specs.States.{KeepsRoom};

use crate::outcome::Outcome;
use crate::server::Server;
use clerk_cache::Cache;
use frang_base::limits::LOG_NUMBERS_END;
use frang_base::{Change, NoMemory, Redo};
use log_record::fits;
use meta_version::version_of;
use wal_ring::Ring;

// Whether the sector of a change is cached, and older.
fn is_older_at(cache: &Cache, change: &Change) -> bool
    ensures { result ≡ is_older_at cache.now.entries change.now }
{
    match cache.get(change.sector) {
        Some(block) => version_of(block) < change.version,
        None => false,
    }
}

// Whether the sector of each change is.
fn are_older(cache: &Cache, changes: &[Change]) -> bool
    ensures { result ≡ are_older cache.now.entries changes.now }
{
    changes.iter().all(|change| is_older_at(cache, change))
}

// Whether a record may stand in a log.
fn is_record(redo: &Redo) -> bool
    ensures { result ≡ is_record redo.now }
{
    1 <= redo.op.0 && fits(redo)
}

// Makes room for a record in a log. `NoMemory` comes also where it isn't one, where the numbers of the log come to their end, or where too few are free.
fn reserve(ring: &mut Ring, redo: &Redo) -> Result<(), NoMemory>
    ensures ring { ring.new.ring ≡ ring.old.ring }
    ensures fits { OnOk result (IsTrue (is_record redo.now)) }
    ensures numbers { OnOk result (rings.last ring.new.ring < LOG_NUMBERS_END - 16) }
    ensures free { OnOk result (rings.need ring.new.ring redo.now ≤ rings.free ring.new.ring) }
    ensures room { OnOk result (spacious.HasRoom ring.new redo.now) }
    ensures keeps { spacious.KeepsRoom ring.old ring.new }
{
    if !is_record(redo) || ring.last() >= LOG_NUMBERS_END - 16 {
        return Err(NoMemory);
    }
    match ring.reserve(redo) {
        Ok(()) => Ok(()),
        Err(_) => Err(NoMemory),
    }
}

impl Server {
    /// Makes room for the commit of an outcome. Nothing else changes, whatever the answer. `NoMemory` comes also where it can't be committed: its record isn't one, or the log has
    /// too few numbers for it, or a sector that changes isn't cached in an older version.
    pub fn reserve_commit(&mut self, outcome: &Outcome) -> Result<(), NoMemory>
        requires { is_in_mount self.old.server.phase ≡ true }
        ensures server { self.new.server ≡ self.old.server }
        ensures ok { OnOk result (MayCommit self.new outcome.now) }
        ensures flying { self.new.flying ≡ self.old.flying }
        ensures room { KeepsRoom self.old self.new }
    {
        self.reserve_sectors(outcome.bytes.len())?;
        self.reserve_some(&outcome.redo)
    }

    // Makes room for the record of a line, where there is one.
    fn reserve_some(&mut self, redo: &Option<Redo>) -> Result<(), NoMemory>
        requires { is_in_mount self.old.server.phase ≡ true }
        ensures server { self.new.server ≡ self.old.server }
        ensures ok { OnOk result (MayAppendSome self.new redo.now) }
        ensures flying { self.new.flying ≡ self.old.flying }
        ensures room { KeepsRoom self.old self.new }
    {
        match redo {
            Some(redo) => self.reserve_record(redo),
            None => Ok(()),
        }
    }

    // Makes room for a record.
    fn reserve_record(&mut self, redo: &Redo) -> Result<(), NoMemory>
        requires { is_in_mount self.old.server.phase ≡ true }
        ensures server { self.new.server ≡ self.old.server }
        ensures ok { OnOk result (MayAppend self.new redo.now) }
        ensures flying { self.new.flying ≡ self.old.flying }
        ensures room { KeepsRoom self.old self.new }
    {
        if !are_older(&self.cache, redo.changes.as_slice()) {
            return Err(NoMemory);
        }
        match &mut self.ring {
            Some(ring) => reserve(ring, redo),
            None => unreachable!(),
        }
    }
}
