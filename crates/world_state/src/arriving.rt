// What becomes of a write that arrives: Arrive.
ghost use Rattle.std.specs.Prelude.{◌≡◌, ◌⊎◌, ◌<◌, ◌||◌, ◌==◌, IfSome, IsSome, IsTrue, None, OnOk, Some, false, is_some, true};
ghost use Rattle.std.specs.Option.{option_map};
ghost use Rattle.frang_base.specs.Functions.{member};
ghost use Rattle.frang_base.specs.declared.limits.TheConstants.{SERVERS};
ghost use Rattle.sector_bytes.specs.SectorMaps.{value_at};
ghost use Rattle.lock_definitions.specs.Lease.{IsInTime};
ghost use Rattle.core_definitions.specs.LineGuards.{is_server};
ghost use Rattle.core_definitions.specs.Scripts.{host_party};
ghost use Rattle.core_definitions.specs.WriteEffects.{acknowledged};
ghost use Rattle.flight_laws.specs.Flights.{purpose_of};
ghost use Rattle.frang_outside.specs.Outside.{Follows};
ghost use Rattle.petal_disk.specs.Arriving.{ArriveOutcome, arriving};
ghost use Rattle.petal_disk.specs.Flights.{write_at};
ghost use Rattle.world_parties.specs.States.{Becomes, IsReady, IsSame, Keeps, flags_at, recovering_by, servers_at};
ghost use Rattle.world_state.specs.Arrivals.{Arrives, IsForgotten, Lands, Leaves, acknowledged_at, ends_core, oldest_left, servers_failed, servers_taken};
ghost use Rattle.world_state.specs.Rooms.{HasArriveRoom, MayLand};
ghost use Rattle.world_state.specs.States.{core_at};

use crate::world::World;
use flight_laws::{a_landed_write_is_the_cores, a_write_is_the_cores};
use frang_base::{NoMemory, Sector, ServerId};
use frang_outside::Outside;
use petal_disk::{Arrived, Flying, Purpose, Ticket};
use world_parties::{Parties, Party, is_server};

// ---- what is kept of a write

// A write that isn't acknowledged is no longer kept.
fn forget_write(parties: &mut Parties, flying: &Flying)
    requires { MayLand parties.old flying.now }
    ensures { Leaves parties.old parties.new flying.now (servers_at parties.old) }
{
    parties.lose(flying.put.server, flying.put.sector);
}

// ---- a write that was taken

// No flag of a server says any more that a write of a sector by it is in flight.
fn clear_flag(parties: &mut Parties, by: ServerId, sector: Sector)
    ensures same { IsSame parties.old parties.new }
    ensures keeps { Keeps parties.old parties.new }
    ensures gone { by.0 < SERVERS → member sector.0 (flags_at parties.new by.0) ≡ false }
{
    if is_server(by) {
        parties.set_flies(by, sector, false);
    }
}

// One of a recovery is acknowledged.
fn acknowledge_rescue(parties: &mut Parties, flying: &Flying)
    requires may { MayLand parties.old flying.now }
    requires present { flying.now.present ≡ true }
    requires rescue { flying.now.purpose ≡ Purpose.OfRecovery }
    ensures { Leaves parties.old parties.new flying.now (acknowledged_at parties.old flying.now) }
{
    let by = flying.put.server;
    let sector = flying.put.sector;
    parties.rescue_written(by, sector);
    clear_flag(parties, by, sector);
}

// What the oldest records of a log name isn't known any more once a number of it is acknowledged.
fn forget_oldest(party: &mut Party, purpose: Purpose)
    ensures { party.new ≡ record party.old { oldest = oldest_left purpose party.old.oldest } }
{
    if let Purpose::OfLog(_) = purpose {
        party.oldest = None;
    }
}

// One of a log or in place is acknowledged by its server.
fn acknowledge_at(parties: &mut Parties, flying: &Flying)
    requires server { flying.now.put.server.0 < SERVERS }
    requires own { flying.now.purpose ≡ Purpose.OfRecovery → ⊥ }
    ensures becomes { Becomes parties.old parties.new flying.now.put.server.0 (acknowledged flying.now.put.sector.0 flying.now.put.bytes (purpose_of flying.now.purpose) (servers_at parties.old flying.now.put.server.0)) }
    ensures keeps { Keeps parties.old parties.new }
{
    let by = flying.put.server;
    let mut party = parties.take(by);
    party
        .server
        .acknowledged(flying.put.sector, &flying.put.bytes, flying.purpose);
    forget_oldest(&mut party, flying.purpose);
    parties.put(by, party);
}

// One of a log or in place is acknowledged. The host has nothing that it changes.
fn acknowledge_own(parties: &mut Parties, flying: &Flying)
    requires may { MayLand parties.old flying.now }
    requires own { flying.now.purpose ≡ Purpose.OfRecovery → ⊥ }
    ensures { Leaves parties.old parties.new flying.now (acknowledged_at parties.old flying.now) }
{
    forget_write(parties, flying);
    if is_server(flying.put.server) {
        acknowledge_at(parties, flying);
    }
}

// One of the present mount is acknowledged.
fn acknowledge(parties: &mut Parties, flying: &Flying)
    requires may { MayLand parties.old flying.now }
    requires present { flying.now.present ≡ true }
    ensures { Leaves parties.old parties.new flying.now (acknowledged_at parties.old flying.now) }
{
    match flying.purpose {
        Purpose::OfLog(_) => acknowledge_own(parties, flying),
        Purpose::InPlace(_) => acknowledge_own(parties, flying),
        Purpose::OfRecovery => acknowledge_rescue(parties, flying),
    }
}

// A write was taken: one of an earlier mount changes nothing.
fn take_in(parties: &mut Parties, flying: &Flying)
    requires { MayLand parties.old flying.now }
    ensures { Leaves parties.old parties.new flying.now (servers_taken parties.old flying.now) }
{
    if flying.present {
        acknowledge(parties, flying);
    } else {
        forget_write(parties, flying);
    }
}

// ---- a write that failed

// It counts for a server.
fn fail_write(parties: &mut Parties, flying: &Flying)
    requires { MayLand parties.old flying.now }
    ensures { Leaves parties.old parties.new flying.now (servers_failed parties.old flying.now.put.server.0) }
{
    forget_write(parties, flying);
    if is_server(flying.put.server) {
        parties.fail(flying.put.server);
    }
}

// ---- by how it arrived

// What becomes of the parties. After want of memory the write is still in flight, and nothing changes.
fn land(parties: &mut Parties, flying: &Flying, arrived: Arrived)
    requires { MayLand parties.old flying.now }
    ensures { Lands parties.old parties.new flying.now arrived }
{
    match arrived {
        Arrived::Written => take_in(parties, flying),
        Arrived::Late { .. } => forget_write(parties, flying),
        Arrived::Failed => fail_write(parties, flying),
        Arrived::NoMemory => {}
    }
}

// Whether it was the host's and failed, which ends the core.
fn ends_core(arrived: Arrived, by: ServerId) -> bool
    ensures { result ≡ ends_core arrived by.0 }
{
    match arrived {
        Arrived::Failed => by == ServerId::HOST,
        Arrived::Written => false,
        Arrived::Late { .. } => false,
        Arrived::NoMemory => false,
    }
}

// Whether it is over then.
fn is_over(before: bool, arrived: Arrived, by: ServerId) -> bool
    ensures { result ≡ (before || ends_core arrived by.0) }
{
    before || ends_core(arrived, by)
}

// ---- what is tested before

// Whether the recovery of a party, if it carries out one, has issued a write of a sector.
fn has_issued(parties: &Parties, by: ServerId, sector: Sector) -> bool
    requires { IsTrue (is_server by.0 || by.0 == host_party) }
    ensures { result ≡ true → IfSome (recovering_by parties.now by.0) (λ r. IsSome (value_at r.issued sector.0)) }
{
    match parties.recovery(by) {
        Some(demon) => demon.has_issued(sector),
        None => true,
    }
}

// Whether a write, where it is of the recovery of the present mount, is one that this recovery has issued.
fn is_issued(parties: &Parties, flying: &Flying) -> bool
    requires { IsTrue (is_server flying.now.put.server.0 || flying.now.put.server.0 == host_party) }
    ensures { result ≡ true → flying.now.present ≡ true → flying.now.purpose ≡ Purpose.OfRecovery → IfSome (recovering_by parties.now flying.now.put.server.0) (λ r. IsSome (value_at r.issued flying.now.put.sector.0)) }
{
    if !flying.present {
        return true;
    }
    match flying.purpose {
        Purpose::OfRecovery => has_issued(parties, flying.put.server, flying.put.sector),
        Purpose::OfLog(_) => true,
        Purpose::InPlace(_) => true,
    }
}

// Whether it is the number of a server or of the host.
fn is_party(by: ServerId) -> bool
    ensures { result ≡ (is_server by.0 || by.0 == host_party) }
{
    is_server(by) || by == ServerId::HOST
}

// ---- the world

impl World {
    /// The party and the sector of a write in flight. `None` exactly where it isn't in flight.
    pub fn flying(&self, ticket: Ticket) -> Option<(ServerId, Sector)>
        ensures party { option_map (λ write. write.0.0) result ≡ option_map (λ flight. flight.server) (value_at (core_at self.now).flights ticket.0) }
        ensures sector { option_map (λ write. write.1.0) result ≡ option_map (λ flight. flight.sector) (value_at (core_at self.now).flights ticket.0) }
    {
        a_write_is_the_cores();
        match self.flights.flying(ticket) {
            Some(flying) => Some((flying.put.server, flying.put.sector)),
            None => None,
        }
    }

    // A write in flight.
    fn flight(&self, ticket: Ticket) -> Flying
        requires { is_some (value_at (core_at self.now).flights ticket.0) ≡ true }
        ensures { write_at self.now.flights.flying ticket.0 ≡ Some result }
    {
        a_write_is_the_cores();
        match self.flights.flying(ticket) {
            Some(flying) => *flying,
            None => unreachable!(),
        }
    }

    /// Makes the recovery of the party of a write in flight ready, if it carries out one. The core is the same, whatever the answer. Want of memory comes also where the write's arrival
    /// couldn't be carried out: its party is neither a server nor the host, or it is of the recovery of the present mount, which hasn't issued it.
    pub fn ready_arrive(&mut self, ticket: Ticket) -> Result<(), NoMemory>
        requires { is_some (value_at (core_at self.old).flights ticket.0) ≡ true }
        ensures core { core_at self.new ≡ core_at self.old }
        ensures ok { OnOk result (HasArriveRoom self.new ticket.0) }
    {
        let flying = self.flight(ticket);
        if !is_party(flying.put.server) {
            return Err(NoMemory);
        }
        self.parties.ready(flying.put.server)?;
        if is_issued(&self.parties, &flying) {
            Ok(())
        } else {
            Err(NoMemory)
        }
    }

    /// Arrive: a write in flight arrives at the outside now, which is called once, and its answer is handed on. One that was written is acknowledged, if it is of the present mount of its
    /// party; one that failed counts for a server, and of the host ends the core. After `NoMemory` it is still in flight; after the other answers it isn't.
    pub fn arrive<O: Outside>(&mut self, ticket: Ticket, out: &mut O) -> Arrived
        requires flies { is_some (value_at (core_at self.old).flights ticket.0) ≡ true }
        requires room { HasArriveRoom self.old ticket.0 }
        ensures counts { Follows (O.state out.old) (O.state out.new) }
        ensures outcome { IfSome (write_at self.old.flights.writes ticket.0) (λ put. ArriveOutcome (O.state out.old) (O.state out.new) (arriving put self.old.tick) result) }
        ensures in_time { IfSome (write_at self.old.flights.writes ticket.0) (λ put. result ≡ Arrived.Written → IsInTime put.stamp self.old.tick) }
        ensures late { IfSome (write_at self.old.flights.writes ticket.0) (λ put. put.stamp < self.old.tick → (result ≡ Arrived.Late put.stamp self.old.tick) ⊎ (result ≡ Arrived.NoMemory)) }
        ensures core { Arrives (core_at self.old) (core_at self.new) ticket.0 result }
    {
        a_write_is_the_cores();
        a_landed_write_is_the_cores();
        let flying = self.flight(ticket);
        // The puts are those of the writes.
        let _count = self.flights.count();
        let arrived = self.flights.arrive(ticket, self.tick, out);
        land(&mut self.parties, &flying, arrived);
        let over = is_over(self.over, arrived, flying.put.server);
        self.over = over;
        arrived
    }
}
