// A commit: changes, record and answer at once.
ghost use Rattle.std.specs.Prelude.{◌≡◌, ◌≤◌, ◌<◌, ◌-◌, true, IsTrue, Some, length};
ghost use Rattle.frang_base.specs.declared.limits.TheConstants.{LOG_NUMBERS_END};
ghost use Rattle.cache_definitions.specs.Flags.{but_all};
ghost use Rattle.clerk_cache.specs.Dropping.{numbers_of};
ghost use Rattle.ring_definitions.specs.Rings as rings;
ghost use Rattle.ring_definitions.specs.Rings.{appended, is_record};
ghost use Rattle.core_definitions.specs.LineEffects.{committed_by};
ghost use Rattle.core_definitions.specs.Plans as core;
ghost use Rattle.core_definitions.specs.Rings.{appended_some};
ghost use Rattle.core_definitions.specs.Servers.{is_in_mount};
ghost use Rattle.wal_ring.specs.SpaciousRings as spacious;
ghost use Rattle.server_core.specs.Outcomes.{IsOutcome, MayAppend, MayAppendSome, MayCommit, MayLay, changed_by_commit, changes_of, names_for, needed_for, room_for};
ghost use Rattle.server_core.specs.States.{KeepsRoomBut};

use crate::committing::commit_cache;
use crate::outcome::Outcome;
use crate::server::Server;
use frang_base::{Redo, Reply};
use wal_ring::Ring;

// Appends a record that the log takes, and for which it has memory.
fn append(ring: &mut Ring, redo: &Redo)
    requires record { IsTrue (is_record redo.now) }
    requires numbers { rings.last ring.old.ring < LOG_NUMBERS_END - 16 }
    requires free { rings.need ring.old.ring redo.now ≤ rings.free ring.old.ring }
    requires room { spacious.HasRoom ring.old redo.now }
    ensures ring { ring.new.ring ≡ appended ring.old.ring redo.now }
    ensures room { spacious.KeepsRoomBut redo.now ring.old ring.new }
{
    match ring.append(redo) {
        Ok(_) => {}
        Err(_) => unreachable!(),
    }
}

impl Server {
    /// Commits a finished line: its record is the last of the log; changes are laid over their sectors, file bytes are set, both dirty with the last number of the log as their
    /// mark; what moves is under its new lock; freed sectors are forgotten; and the line is gone. It answers the line's reply. It is mounted and has room for all of it.
    pub fn commit(&mut self, outcome: Outcome) -> Reply
        requires { MayCommit self.old outcome }
        ensures server { (of_core : core.Outcome) → IsOutcome self.old.server.cache outcome of_core → self.new.server ≡ committed_by of_core self.old.server }
        ensures reply { result ≡ outcome.reply }
        ensures flying { self.new.flying ≡ but_all (numbers_of outcome.freed) self.old.flying }
        ensures room { KeepsRoomBut (room_for self.old outcome) self.old self.new }
    {
        self.append_some(&outcome.redo);
        self.commit_changes(&outcome);
        outcome.reply
    }

    // Its cache is what the commit makes of it, with the last number of the log as the mark, and its line is gone.
    fn commit_changes(&mut self, outcome: &Outcome)
        requires changes { MayLay self.old.server.cache (changes_of outcome.now.redo) }
        requires bytes { length outcome.now.bytes.items ≤ self.old.spare }
        ensures server { (of_core : core.Outcome) → IsOutcome self.old.server.cache outcome.now of_core → self.new.server ≡ changed_by_commit of_core (numbers_of outcome.now.freed) self.old.server }
        ensures flying { self.new.flying ≡ but_all (numbers_of outcome.now.freed) self.old.flying }
        ensures room { KeepsRoomBut (record { spare = length outcome.now.bytes.items; sectors = 0; names = 0; zeros = 0 }) self.old self.new }
    {
        let mark = self.last_number();
        commit_cache(&mut self.cache, outcome, mark);
        self.under = None;
    }

    // Its log takes the record of a line, where there is one.
    fn append_some(&mut self, redo: &Option<Redo>)
        requires mounted { is_in_mount self.old.server.phase ≡ true }
        requires record { MayAppendSome self.old redo.now }
        ensures server { self.new.server ≡ record self.old.server { ring = appended_some self.old.server.ring redo.now } }
        ensures flying { self.new.flying ≡ self.old.flying }
        ensures room { KeepsRoomBut (record { spare = 0; sectors = needed_for self.old.server.ring redo.now; names = names_for redo.now; zeros = 0 }) self.old self.new }
    {
        if let Some(redo) = redo {
            self.append(redo);
        }
    }

    // Its log takes a record.
    fn append(&mut self, redo: &Redo)
        requires mounted { is_in_mount self.old.server.phase ≡ true }
        requires record { MayAppend self.old redo.now }
        ensures server { self.new.server ≡ record self.old.server { ring = appended self.old.server.ring redo.now } }
        ensures flying { self.new.flying ≡ self.old.flying }
        ensures room { KeepsRoomBut (record { spare = 0; sectors = rings.need self.old.server.ring redo.now; names = names_for (Some redo.now); zeros = 0 }) self.old self.new }
    {
        match &mut self.ring {
            Some(ring) => append(ring, redo),
            None => unreachable!(),
        }
    }
}
