// Which write of a sector a server may issue.
ghost use Rattle.std.specs.Prelude.{◌≡◌, ◌<◌, ◌&&◌, true, false, not, nat_le, if◌then◌else◌, IfSome, IsTrue, Option, Some, None};
ghost use Rattle.std.specs.Option.{option_copied, option_map};
ghost use Rattle.frang_base.specs.declared.limits.TheConstants.{SERVERS};
ghost use Rattle.clerk_cache.specs.Dropping.{numbers_of};
ghost use Rattle.lock_definitions.specs.Lease.{write_stamp};
ghost use Rattle.core_definitions.specs.Cores.{Core, writes};
ghost use Rattle.core_definitions.specs.Flights.{is_flying};
ghost use Rattle.core_definitions.specs.Lines.{Stage};
ghost use Rattle.core_definitions.specs.Logs.{log_sector};
ghost use Rattle.core_definitions.specs.Servers.{is_up};
ghost use Rattle.core_definitions.specs.WriteGuards.{is_at_last, is_issuable, may_issue};
ghost use Rattle.core_definitions.specs.Writes.{lacks_room};
ghost use Rattle.log_slots.specs.Reading.{log_rules};
ghost use Rattle.ring_definitions.specs.Rings.{next_sector};
ghost use Rattle.server_writes.specs.Lists as lists;
ghost use Rattle.server_issues.specs.Issuing.{IsIssuing, issuable_write, log_entry, wanted_number, write_of};

use crate::busy::is_busy;
use crate::rescue::rescue_write;
use crate::writes::WantedWrite;
use frang_base::limits::{LOG_SECTORS, MARGIN_TICKS};
use frang_base::{Sector, ServerId};
use frang_layout::{Region, sector_of};
use lock_table::LockTable;
use petal_disk::{Flight, Purpose};
use recovery_demon::Demon;
use server_core::Server;
use server_writes::{PlaceWrite, log_wanted_to, place_write};
use std::marker::Model;

/// A server, 0 to 15, that may issue writes, with what is asked about that: its recovery, if it has one, the locks, the writes in flight and the tick; whether its line waits for room in
/// its log; and the sectors that have to be clean before there is room, in any order, none where there is.
#[derive(Drop)]
pub struct Issuer<'a> {
    pub(crate) server: &'a Server,
    pub(crate) recovery: Option<&'a Demon>,
    pub(crate) table: &'a LockTable,
    pub(crate) flights: &'a Flight,
    pub(crate) tick: u64,
    pub(crate) waits: bool,
    pub(crate) room: &'a [Sector],
}

impl<'a> Model for Issuer<'a> {
    ghost use Rattle.std.specs.Prelude.{◌<◌, IfSome, IsTrue};
    ghost use Rattle.std.specs.Option.{option_copied};
    ghost use Rattle.frang_base.specs.declared.limits.TheConstants.{SERVERS};
    ghost use Rattle.clerk_cache.specs.Dropping.{numbers_of};
    ghost use Rattle.server_issues.specs.Issuing.{Issuing};

    ghost Value = { Issuing };

    ghost view = { λ i. record {
      server = i.server.now;
      recovery = option_copied i.recovery;
      locks = i.table.now.locks;
      flights = i.flights.now.flying;
      tick = i.tick;
      waits = i.waits;
      room = numbers_of i.room.now;
    } };

    ghost invariant = { λ i. (i.server.now.id < SERVERS) × IfSome (option_copied i.recovery) (λ r. IsTrue r.is_fresh) };
}

/// The sector of a number in a server's log.
#[tactic(auto, unfolding(log_slots::specs::Reading::log_rules))]
pub(crate) fn log_sector(server: ServerId, number: u64) -> Sector
    ensures { result.0 ≡ log_sector log_rules server.0 number }
{
    sector_of(&Region::Log {
        server: server.0,
        slot: (number % LOG_SECTORS) as u8,
    })
}

impl<'a> Issuer<'a> {
    /// A server that may issue writes. What its recovery's slots say is read off them. It takes no memory.
    pub fn new(
        server: &'a Server,
        recovery: Option<&'a Demon>,
        table: &'a LockTable,
        flights: &'a Flight,
        tick: u64,
        waits: bool,
        room: &'a [Sector],
    ) -> Self
        requires server { server.now.id < SERVERS }
        requires fresh { IfSome (option_copied recovery) (λ r. IsTrue r.is_fresh) }
        ensures { result ≡ record { server = server.now; recovery = option_copied recovery.entry; locks = table.now.locks; flights = flights.now.flying; tick = tick; waits = waits; room = numbers_of room.now } }
    {
        Issuer {
            server,
            recovery,
            table,
            flights,
            tick,
            waits,
            room,
        }
    }

    // Whether it is up, the tick isn't past the stamp of its writes, and no call of it failed.
    pub(crate) fn may_work(&self) -> bool
        ensures { result ≡ (is_up self.now.server.server.phase && nat_le self.now.tick (write_stamp self.now.server.server.expiry) && not self.now.server.server.failed) }
    {
        self.server.is_up()
            && self.tick <= self.server.expiry().saturating_sub(MARGIN_TICKS)
            && !self.server.has_failed()
    }

    // The number of the log's write at a sector, where one is wanted there.
    fn log_number(&self, sector: Sector) -> Option<u64>
        ensures { (stage : Option Stage) → lacks_room log_rules self.now.server.server.ring stage ≡ self.now.waits →
            result ≡ wanted_number self.now.locks self.now.server.id self.now.server.server stage sector.0 }
    {
        let Some(number) = self.server.next_number() else {
            return None;
        };
        let wanted_to = log_wanted_to(self.server, self.table, self.waits);
        if number <= wanted_to && log_sector(self.server.id(), number).0 == sector.0 {
            Some(number)
        } else {
            None
        }
    }

    // The next write of its log, where its number isn't too far past the acknowledged ones.
    fn log_write(&self) -> Option<WantedWrite>
        ensures { option_map write_of result ≡ option_map (log_entry self.now.server.id) (next_sector self.now.server.server.ring) }
    {
        let Some(next) = self.server.next_log_sector() else {
            return None;
        };
        let number = next.0;
        let block = next.1;
        Some(WantedWrite {
            behalf: self.server.id(),
            block,
            purpose: Purpose::OfLog(number),
            mark: None,
        })
    }

    // A write in place, where its mark is reached.
    fn placed(&self, write: PlaceWrite) -> Option<WantedWrite>
        ensures { option_map write_of result ≡ (if nat_le write.mark self.now.server.server.ring.reached then Some (lists.write_of self.now.server.id write) else None) }
    {
        if write.mark > self.server.reached() {
            return None;
        }
        let block = write.block;
        Some(WantedWrite {
            behalf: self.server.id(),
            block,
            purpose: Purpose::InPlace(write.cover),
            mark: Some(write.mark),
        })
    }

    // The write of a sector, where no write of it is in flight and the server may work.
    fn idle_write(&self, sector: Sector) -> Option<WantedWrite>
        ensures { (c : Core) → IsIssuing c self.now → is_flying c.flights sector.0 ≡ false →
            (is_up self.now.server.server.phase && nat_le self.now.tick (write_stamp self.now.server.server.expiry) && not self.now.server.server.failed) ≡ true →
            option_map write_of result ≡ issuable_write c self.now.server.id sector.0 }
    {
        // Each sector is cached once.
        let _cover = self.server.cache().cover(sector);
        if self.log_number(sector).is_some() {
            return self.log_write();
        }
        if let Some(write) = place_write(self.server, self.table, self.waits, sector) {
            return self.placed(write);
        }
        match self.recovery {
            Some(demon) => rescue_write(demon, sector),
            None => None,
        }
    }

    /// The write of a sector that it may issue, its arming left aside: it is up, the write is wanted and its mark is reached, no write of the sector is in flight, the limit of log sectors in
    /// flight is kept, the tick is at most the stamp, and no call of it failed. `None` exactly where that isn't so.
    pub fn write(&self, sector: Sector) -> Option<WantedWrite>
        ensures { (c : Core) → IsIssuing c self.now → option_map write_of result ≡ issuable_write c self.now.server.id sector.0 }
    {
        if !self.may_work() || is_busy(self.flights, sector) {
            return None;
        }
        self.idle_write(sector)
    }

    /// Whether it may issue a write of a sector, its arming left aside.
    pub fn is_issuable(&self, sector: Sector) -> bool
        ensures { (c : Core) → IsIssuing c self.now → result ≡ is_issuable c self.now.server.id sector.0 (writes c self.now.server.id) }
    {
        // It is one of the servers.
        let _server = self.server;
        self.write(sector).is_some()
    }

    // Whether it is armed to die at the next write that it would issue.
    pub(crate) fn is_at_last(&self) -> bool
        ensures { result ≡ is_at_last self.now.server.server.arming }
    {
        match self.server.arming() {
            Some(arming) => arming.k <= 1,
            None => false,
        }
    }

    /// Whether it may issue a write of a sector.
    pub fn may_issue(&self, sector: Sector) -> bool
        ensures { (c : Core) → IsIssuing c self.now → result ≡ may_issue c self.now.server.id sector.0 (writes c self.now.server.id) }
    {
        self.is_issuable(sector) && !self.is_at_last()
    }
}
