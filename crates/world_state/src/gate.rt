// What is no event: a line passes the gate, a server wants everything written; whether a server is quiet, and whether a write is by one that is stalled or dead; and what a loss is made ready for.
ghost use Rattle.std.specs.Prelude.{◌≡◌, ◌<◌, ◌&&◌, ◌||◌, IsSomeAnd, IsTrue, OnOk, true};
ghost use Rattle.frang_base.specs.Functions.{put};
ghost use Rattle.frang_base.specs.declared.limits.TheConstants.{SERVERS};
ghost use Rattle.core_definitions.specs.Cores.{next_of, with_server};
ghost use Rattle.core_definitions.specs.Guards.{is_by_gone};
ghost use Rattle.core_definitions.specs.LineGuards.{is_server};
ghost use Rattle.core_definitions.specs.Servers.{is_dead, is_quiet, is_still, wanting_all_up};
ghost use Rattle.core_definitions.specs.WriteGuards.{is_by_dead, is_flight};
ghost use Rattle.sector_bytes.specs.SectorMaps.{value_at};
ghost use Rattle.world_parties.specs.States.{servers_at};
ghost use Rattle.world_state.specs.Rooms.{HasLossRoom};
ghost use Rattle.world_state.specs.States.{core_at};

use crate::world::World;
use flight_laws::a_write_is_the_cores;
use frang_base::{NoMemory, ServerId};
use petal_disk::Ticket;
use world_parties::{Parties, is_server};

impl World {
    /// The next line of a party, which has this number, passes the gate.
    pub fn pass(&mut self, who: ServerId, number: u32)
        requires { IsSomeAnd (next_of (core_at self.old) who.0) (λ line. line.number ≡ number) }
        ensures { core_at self.new ≡ record (core_at self.old) { passed = put (core_at self.old).passed number true } }
    {
        // It has a mark.
        let _line = self.places.next(who);
        self.places.pass(number);
    }

    /// A server wants everything written, where it is up.
    pub fn want_written(&mut self, a: ServerId)
        requires { a.0 < SERVERS }
        ensures { core_at self.new ≡ with_server (core_at self.old) a.0 (wanting_all_up ((core_at self.old).servers a.0)) }
    {
        if self.parties.get(a).server.is_up() {
            self.parties.want_all(a);
        }
    }

    /// Whether a server is quiet: it is off, or up without a line under way, nothing of it is dirty, wanted or in flight, its whole log is acknowledged, and it recovers no other's.
    pub fn is_quiet(&self, a: ServerId) -> bool
        requires { a.0 < SERVERS }
        ensures { result ≡ is_quiet (core_at self.now).flights a.0 ((core_at self.now).servers a.0) }
    {
        let server = &self.parties.get(a).server;
        server.is_off() || (server.is_up() && self.is_clean(a) && server.under().is_none())
    }
}

// ---- a write that is lost

impl World {
    /// Makes the recovery of the party of a write in flight, whose server is dead, ready, if it carries out one. The core is the same, whatever the answer.
    pub fn ready_lose(&mut self, ticket: Ticket) -> Result<(), NoMemory>
        requires { IsTrue (is_flight (is_by_dead (core_at self.old)) (value_at (core_at self.old).flights ticket.0)) }
        ensures core { core_at self.new ≡ core_at self.old }
        ensures ok { OnOk result (HasLossRoom self.new ticket.0) }
    {
        match self.flying(ticket) {
            Some((by, _)) => self.parties.ready(by),
            None => unreachable!(),
        }
    }
}

// ---- the clock

// Whether it is the number of a server that is stalled or dead.
fn is_gone(parties: &Parties, a: ServerId) -> bool
    ensures { result ≡ (is_server a.0 && (is_still (servers_at parties.now a.0).phase || is_dead (servers_at parties.now a.0).phase)) }
{
    if !is_server(a) {
        return false;
    }
    let server = &parties.get(a).server;
    server.is_still() || server.is_dead()
}

impl World {
    /// Whether a write is in flight whose server is stalled or dead at this moment, for which the clock doesn't wait.
    pub fn is_by_gone(&self, ticket: Ticket) -> bool
        ensures { result ≡ is_flight (is_by_gone (core_at self.now)) (value_at (core_at self.now).flights ticket.0) }
    {
        a_write_is_the_cores();
        match self.flights.flying(ticket) {
            Some(flying) => is_gone(&self.parties, flying.put.server),
            None => false,
        }
    }
}
