// What the issue of a write does: Issue.
ghost use Rattle.std.specs.Prelude.{◌≡◌, ◌<◌, ◌+◌, ◌||◌, ◌==◌, ◌++◌, ◌∷◌, [], IsTrue, OnOk, Some, false};
ghost use Rattle.frang_base.specs.declared.limits.TheConstants.{SERVERS};
ghost use Rattle.sector_bytes.specs.SectorMaps.{value_at};
ghost use Rattle.core_definitions.specs.Cores.{stamp_of, writes};
ghost use Rattle.core_definitions.specs.Flights as core;
ghost use Rattle.core_definitions.specs.LineGuards.{is_server};
ghost use Rattle.core_definitions.specs.Scripts.{host_party};
ghost use Rattle.core_definitions.specs.WriteEffects.{counted, issued, ring_after};
ghost use Rattle.core_definitions.specs.WriteGuards.{is_in_flight_window, is_worker};
ghost use Rattle.flight_laws.specs.Flights.{flight_of, flights_of, purpose_of};
ghost use Rattle.petal_disk.specs.Flying.{flying_of};
ghost use Rattle.server_issues.specs.Issuing.{write_of};
ghost use Rattle.world_parties.specs.States.{Becomes, IsReady, KeepsBut, servers_at};
ghost use Rattle.world_state.specs.Issues.{MayIssue};
ghost use Rattle.world_state.specs.Rooms.{HasIssueRoom};
ghost use Rattle.world_state.specs.States.{core_at};

use crate::world::World;
use flight_laws::{a_busy_sector_is_the_cores, an_issued_write_is_the_cores};
use frang_base::limits::MARGIN_TICKS;
use frang_base::{LockId, NoMemory, Sector, ServerId};
use frang_outside::Put;
use petal_disk::{Flight, Purpose};
use server_issues::{WantedWrite, the_log_counts_first};
use world_parties::{Parties, is_server};

// ---- the writes in flight

// One more write is in flight. None of its sector is, and there is room.
fn put_in_flight(flights: &mut Flight, put: Put, purpose: Purpose)
    requires free { core.is_flying (flights_of flights.old.flying) put.sector.0 ≡ false }
    requires room { 0 < flights.old.room }
    ensures flights { flights_of flights.new.flying ≡ flights_of flights.old.flying ++ (flights.old.next, flight_of (flying_of put purpose)) ∷ [] }
    ensures next { flights.new.next ≡ flights.old.next + 1 }
{
    a_busy_sector_is_the_cores();
    an_issued_write_is_the_cores();
    // The puts are those of the writes.
    let _count = flights.count();
    match flights.issue_as(put, purpose) {
        Ok(_) => {}
        Err(_) => unreachable!(),
    }
}

// ---- its party

// A write of the recovery of a party is issued.
fn issue_rescue(parties: &mut Parties, by: ServerId, sector: Sector)
    requires party { IsTrue (is_server by.0 || by.0 == host_party) }
    requires ready { IsReady parties.old by.0 }
    requires may { MayIssue parties.old by.0 sector.0 Purpose.OfRecovery }
    ensures becomes { Becomes parties.old parties.new by.0 (record (servers_at parties.old by.0) { arming = counted (servers_at parties.old by.0).arming }) }
    ensures keeps { KeepsBut parties.old parties.new by.0 sector.0 }
{
    parties.rescue_issued(by, sector);
    if is_server(by) {
        parties.issued(by, Purpose::OfRecovery);
    }
}

// A write in place of a server is issued.
fn issue_in_place(parties: &mut Parties, by: ServerId, sector: Sector, cover: LockId)
    requires { by.0 < SERVERS }
    ensures becomes { Becomes parties.old parties.new by.0 (record (servers_at parties.old by.0) { arming = counted (servers_at parties.old by.0).arming }) }
    ensures keeps { KeepsBut parties.old parties.new by.0 sector.0 }
{
    parties.set_flies(by, sector, true);
    parties.issued(by, Purpose::InPlace(cover));
}

// A write of a party is issued.
fn issue_by(parties: &mut Parties, by: ServerId, sector: Sector, purpose: Purpose)
    requires party { IsTrue (is_server by.0 || by.0 == host_party) }
    requires ready { IsReady parties.old by.0 }
    requires may { MayIssue parties.old by.0 sector.0 purpose }
    ensures becomes { Becomes parties.old parties.new by.0 (record (servers_at parties.old by.0) { ring = ring_after (purpose_of purpose) (servers_at parties.old by.0).ring; arming = counted (servers_at parties.old by.0).arming }) }
    ensures keeps { KeepsBut parties.old parties.new by.0 sector.0 }
{
    match purpose {
        Purpose::OfLog(_) => parties.issued(by, purpose),
        Purpose::InPlace(cover) => issue_in_place(parties, by, sector, cover),
        Purpose::OfRecovery => issue_rescue(parties, by, sector),
    }
}

// ---- the world

impl World {
    // The last tick at which a write of a party may arrive that is issued now.
    fn stamp(&self, by: ServerId) -> u64
        requires { IsTrue (is_worker (core_at self.now) by.0) }
        ensures { result ≡ stamp_of (core_at self.now) by.0 }
    {
        self.expiry(by).saturating_sub(MARGIN_TICKS)
    }

    /// Makes room for one more write in flight, and the recovery of a party ready, if it carries out one. The core is the same, whatever the answer.
    pub fn ready_issue(&mut self, by: ServerId) -> Result<(), NoMemory>
        requires { IsTrue (is_worker (core_at self.old) by.0) }
        ensures core { core_at self.new ≡ core_at self.old }
        ensures ok { OnOk result (HasIssueRoom self.new by.0) }
    {
        self.flights.reserve()?;
        self.parties.ready(by)
    }

    /// Issue: this write of a sector, which a server that is up or the host wants, is in flight with its stamp; an armed server's count falls. No write of the sector is in flight, and the
    /// limit of log sectors in flight is kept.
    pub fn issue(&mut self, by: ServerId, sector: Sector, write: WantedWrite)
        requires worker { IsTrue (is_worker (core_at self.old) by.0) }
        requires write { value_at (writes (core_at self.old) by.0) sector.0 ≡ Some (write_of write) }
        requires free { core.is_flying (core_at self.old).flights sector.0 ≡ false }
        requires window { IsTrue (is_in_flight_window (core_at self.old) by.0 (value_at (writes (core_at self.old) by.0) sector.0)) }
        requires going { self.old.over ≡ false }
        requires room { HasIssueRoom self.old by.0 }
        ensures { core_at self.new ≡ issued (core_at self.old) by.0 sector.0 }
    {
        the_log_counts_first();
        // Its recovery is of this disk.
        let _recovery = self.parties.recovery(by);
        let bytes = write.block;
        let put = Put {
            server: by,
            behalf: write.behalf,
            stamp: self.stamp(by),
            now: self.tick,
            sector,
            bytes,
        };
        put_in_flight(&mut self.flights, put, write.purpose);
        issue_by(&mut self.parties, by, sector, write.purpose);
    }
}
