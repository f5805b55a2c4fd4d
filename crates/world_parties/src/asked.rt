// What is asked of one party, and of all.
ghost use Rattle.std.specs.Prelude.{◌≡◌, ◌<◌, ◌==◌, ◌&&◌, ◌||◌, is_some};
ghost use Rattle.std.specs.List.{list_all, list_any};
ghost use Rattle.std.specs.Option.{option_map};
ghost use Rattle.frang_base.specs.declared.limits.TheConstants.{SERVERS};
ghost use Rattle.core_definitions.specs.Cores.{server_numbers};
ghost use Rattle.core_definitions.specs.EndGuards.{is_unsettled};
ghost use Rattle.core_definitions.specs.Flights.{Flights, has_flights};
ghost use Rattle.core_definitions.specs.LineGuards.{is_server};
ghost use Rattle.core_definitions.specs.Scripts.{host_party};
ghost use Rattle.core_definitions.specs.Servers.{due, is_clean, is_dead, is_doomed, is_off, is_up};
ghost use Rattle.log_slots.specs.Reading.{log_rules};
ghost use Rattle.server_core.specs.Phases.{reply_of};
ghost use Rattle.world_parties.specs.States.{held_at, servers_at};

use crate::all::{are_all_off, is_any_recovering, is_any_set, is_any_unsettled, is_any_up};
use crate::parties::{Parties, is_server};
use frang_base::ServerId;
use server_core::PlainAnswer;

// ---- of one

impl Parties {
    /// Whether it is a server that is up.
    pub fn is_up(&self, a: ServerId) -> bool
        ensures { result ≡ (is_server a.0 && is_up (servers_at self.now a.0).phase) }
    {
        is_server(a) && self.get(a).server.is_up()
    }

    /// Whether it is a server that is dead.
    pub fn is_dead(&self, a: ServerId) -> bool
        ensures { result ≡ (is_server a.0 && is_dead (servers_at self.now a.0).phase) }
    {
        is_server(a) && self.get(a).server.is_dead()
    }

    /// Whether it is a server that is doomed.
    pub fn is_doomed(&self, a: ServerId) -> bool
        ensures { result ≡ (is_server a.0 && is_doomed (servers_at self.now a.0).phase) }
    {
        is_server(a) && self.get(a).server.is_doomed()
    }

    /// Whether it is a server that is up, or the host.
    pub fn is_worker(&self, a: ServerId) -> bool
        ensures { result ≡ ((is_server a.0 && is_up (servers_at self.now a.0).phase) || a.0 == host_party) }
    {
        self.is_up(a) || a == ServerId::HOST
    }

    /// Whether nothing of a server is dirty, in flight, not acknowledged or under recovery; `flies`: a write of its present mount is in flight.
    pub fn is_clean(&self, a: ServerId, flies: bool) -> bool
        requires { a.0 < SERVERS }
        ensures { (flights : Flights) → has_flights flights a.0 ≡ flies → result ≡ is_clean flights a.0 (servers_at self.now a.0) }
    {
        let party = self.get(a);
        party.server.is_clean(flies, party.recovery.is_some())
    }

    /// The answer that is due of a server, but to a line over paths; `flies`: a write of its present mount is in flight.
    pub fn due(&self, a: ServerId, flies: bool) -> Option<PlainAnswer>
        requires { a.0 < SERVERS }
        ensures { (flights : Flights) → has_flights flights a.0 ≡ flies → option_map reply_of result ≡ due log_rules flights a.0 (servers_at self.now a.0) }
    {
        let party = self.get(a);
        party.server.due(flies, party.recovery.is_some())
    }
}

// ---- of all

impl Parties {
    /// Whether a server is up.
    pub fn is_any_up(&self) -> bool
        ensures { result ≡ list_any (λ a. is_up (servers_at self.now a).phase) server_numbers }
    {
        is_any_up(&self.list)
    }

    /// Whether a server is stalled, doomed or dead.
    pub fn is_any_unsettled(&self) -> bool
        ensures { result ≡ list_any (λ a. is_unsettled (servers_at self.now a).phase) server_numbers }
    {
        is_any_unsettled(&self.list)
    }

    /// Whether all servers are off.
    pub fn are_all_off(&self) -> bool
        ensures { result ≡ list_all (λ a. is_off (servers_at self.now a).phase) server_numbers }
    {
        are_all_off(&self.list)
    }

    /// Whether a server that is up carries out a recovery.
    pub fn is_any_recovering(&self) -> bool
        ensures { result ≡ list_any (λ a. is_up (servers_at self.now a).phase && is_some (servers_at self.now a).recovery) server_numbers }
    {
        is_any_recovering(&self.list)
    }

    /// Whether the host carries out a recovery.
    pub fn is_host_recovering(&self) -> bool
        ensures { result ≡ is_some (servers_at self.now host_party).recovery }
    {
        self.host.is_some()
    }

    /// Whether a server is held.
    pub fn is_any_held(&self) -> bool
        ensures { result ≡ list_any (held_at self.now) server_numbers }
    {
        is_any_set(&self.held)
    }
}
