// What becomes of a server whose write is issued or taken.
ghost use Rattle.std.specs.Prelude.{◌≡◌, ◌<◌, None, false};
ghost use Rattle.frang_base.specs.Functions.{member};
ghost use Rattle.frang_base.specs.declared.limits.TheConstants.{SERVERS};
ghost use Rattle.core_definitions.specs.WriteEffects.{counted, ring_after};
ghost use Rattle.flight_laws.specs.Flights.{purpose_of};
ghost use Rattle.sector_bytes.specs.SectorMaps.{value_at};
ghost use Rattle.server_core.specs.Effects.{IsNext};
ghost use Rattle.world_parties.specs.States.{Becomes, IsReady, IsSame, Keeps, KeepsBut, flags_at, issued_at, servers_at};

use crate::parties::Parties;
use frang_base::{Sector, ServerId};
use petal_disk::Purpose;

impl Parties {
    /// A write of a server is issued: where it is one of its log, that of the next sector, with its number. An armed server's count falls.
    pub fn issued(&mut self, a: ServerId, purpose: Purpose)
        requires server { a.0 < SERVERS }
        requires next { IsNext (servers_at self.old a.0).ring (purpose_of purpose) }
        ensures becomes { Becomes self.old self.new a.0 (record (servers_at self.old a.0) { ring = ring_after (purpose_of purpose) (servers_at self.old a.0).ring; arming = counted (servers_at self.old a.0).arming }) }
        ensures keeps { Keeps self.old self.new }
    {
        self.list[usize::from(a.0)].issued(purpose);
    }
}

impl Parties {
    /// A write of a sector by a server is in flight, or no longer: where the sector is cached, that is kept of it. Nothing else changes.
    pub fn set_flies(&mut self, a: ServerId, sector: Sector, flies: bool)
        requires { a.0 < SERVERS }
        ensures same { IsSame self.old self.new }
        ensures keeps { KeepsBut self.old self.new a.0 sector.0 }
        ensures gone { flies ≡ false → Keeps self.old self.new × (member sector.0 (flags_at self.new a.0) ≡ false) }
    {
        self.list[usize::from(a.0)].set_flies(sector, flies);
    }

    // No write of a sector by the recovery of this party is issued any more.
    fn unissue(&mut self, by: ServerId, sector: Sector)
        requires { IsReady self.old by.0 }
        ensures same { IsSame self.old self.new }
        ensures keeps { Keeps self.old self.new }
        ensures gone { value_at (issued_at self.new by.0) sector.0 ≡ None }
    {
        if by == ServerId::HOST || usize::from(by.0) < self.list.len() {
            self.rescue_lost(by, sector);
        }
    }

    // No write of a sector by this server is flagged any more.
    fn unflag(&mut self, a: ServerId, sector: Sector)
        ensures same { IsSame self.old self.new }
        ensures keeps { Keeps self.old self.new }
        ensures gone { member sector.0 (flags_at self.new a.0) ≡ false }
    {
        if usize::from(a.0) < self.list.len() {
            self.set_flies(a, sector, false);
        }
    }

    /// No write of a sector by this party is in flight any more: neither a flag nor an issued write of it stays. Nothing else changes.
    pub fn lose(&mut self, by: ServerId, sector: Sector)
        requires { IsReady self.old by.0 }
        ensures same { IsSame self.old self.new }
        ensures keeps { Keeps self.old self.new }
        ensures unflagged { member sector.0 (flags_at self.new by.0) ≡ false }
        ensures unissued { value_at (issued_at self.new by.0) sector.0 ≡ None }
    {
        self.unissue(by, sector);
        self.unflag(by, sector);
    }
}
