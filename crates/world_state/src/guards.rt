// What may happen of lines, locks, writes and lives that needs no plan.
ghost use Rattle.std.specs.Prelude.{◌≡◌, ◌<◌, ◌&&◌, is_some, not};
ghost use Rattle.frang_base.specs.declared.limits.TheConstants.{SERVERS};
ghost use Rattle.core_definitions.specs.Flights as core;
ghost use Rattle.core_definitions.specs.LineGuards.{is_at_gate, is_new_wish, may_begin};
ghost use Rattle.core_definitions.specs.Scripts.{hosts_answered};
ghost use Rattle.core_definitions.specs.Servers.{is_answering};
ghost use Rattle.core_definitions.specs.WriteGuards.{is_by_dead, is_flight, is_in_use, is_past_lease, is_sole, may_die, may_give, may_renew, may_resume};
ghost use Rattle.lock_definitions.specs.Order.{is_lock};
ghost use Rattle.sector_bytes.specs.SectorMaps.{value_at};
ghost use Rattle.set_definitions.specs.Sets.{has_lock};
ghost use Rattle.world_state.specs.States.{core_at};

use crate::world::World;
use flight_laws::{a_write_is_the_cores, writes_under_a_lock_are_the_cores};
use frang_base::limits::LEASE_TICKS;
use frang_base::{Line, LockId, Mode, ServerId};
use petal_disk::Ticket;
use world_parties::is_server;

// Whether the two locks are one.
fn is_lock(lock: LockId, other: LockId) -> bool
    ensures { result ≡ is_lock lock other }
{
    lock == other
}

// Whether a lock is among these.
fn is_among(locks: &[(LockId, Mode)], lock: LockId) -> bool
    ensures { result ≡ has_lock locks.now lock }
{
    for need in locks {
        if is_lock(lock, need.0) {
            return true;
        }
    }
    false
}

// ---- lines

impl World {
    // Whether a server could begin its next line but for the gate.
    fn is_ready_for(&self, a: ServerId, line: &Line) -> bool
        requires { a.0 < SERVERS }
        ensures { result ≡ (not (is_some ((core_at self.now).servers a.0).under) && hosts_answered (core_at self.now).setting.script (core_at self.now).answered line.now.number && is_answering ((core_at self.now).servers a.0).phase && not ((core_at self.now).paused a.0)) }
    {
        let server = &self.parties.get(a).server;
        server.under().is_none()
            && self.places.hosts_answered(line.number)
            && server.is_answering()
            && !self.parties.is_held(a)
    }

    /// Whether a server may begin its next line.
    pub fn may_begin(&self, a: ServerId) -> bool
        ensures { result ≡ may_begin (core_at self.now) a.0 }
    {
        if !is_server(a) {
            return false;
        }
        match self.next_line(a) {
            Some(line) => self.is_ready_for(a, line) && self.places.has_passed(line.number),
            None => false,
        }
    }

    /// Whether only the gate keeps a server's next line from beginning.
    pub fn is_at_gate(&self, a: ServerId) -> bool
        ensures { result ≡ is_at_gate (core_at self.now) a.0 }
    {
        if !is_server(a) {
            return false;
        }
        match self.next_line(a) {
            Some(line) => self.is_ready_for(a, line) && !self.places.has_passed(line.number),
            None => false,
        }
    }
}

// ---- locks

impl World {
    /// Whether a wish isn't noted in this mode, or no holder conflicts.
    pub fn is_new_wish(&self, a: ServerId, lock: LockId, mode: Mode) -> bool
        ensures { result ≡ is_new_wish (core_at self.now) a.0 lock mode }
    {
        !self.locks.table().is_wished(a, lock, mode) || self.locks.table().is_free(a, lock, mode)
    }

    // Whether the line under way of a server has a lock in its held set.
    fn is_in_use(&self, a: ServerId, lock: LockId) -> bool
        requires { a.0 < SERVERS }
        ensures { result ≡ is_in_use (core_at self.now) a.0 lock }
    {
        match self.parties.get(a).server.under() {
            Some(under) => under.is_open()
                && is_among(under.set().held(self.locks.table(), a), lock),
            None => false,
        }
    }

    // Whether a write in place of a server's present mount under a lock is in flight.
    fn has_flights_under(&self, a: ServerId, lock: LockId) -> bool
        ensures { result ≡ core.has_flights_under (core_at self.now).flights a.0 lock }
    {
        writes_under_a_lock_are_the_cores();
        self.flights.has_flights_under(a, lock)
    }

    // Whether a server holds a lock sole.
    fn is_sole(&self, a: ServerId, lock: LockId) -> bool
        ensures { result ≡ is_sole (core_at self.now) a.0 lock }
    {
        self.locks.table().held(a, lock) == Some(Mode::Sole)
    }

    /// Whether a server may give a lock.
    pub fn may_give(&self, a: ServerId, lock: LockId) -> bool
        ensures { result ≡ may_give (core_at self.now) a.0 lock }
    {
        if !is_server(a) {
            return false;
        }
        let server = &self.parties.get(a).server;
        server.is_up()
            && self.locks.table().asked_for(a, lock).is_some()
            && !self.is_in_use(a, lock)
            && server.is_clean_under(lock)
            && !self.has_flights_under(a, lock)
            && (!self.is_sole(a, lock) || server.is_all_reached())
    }
}

// ---- writes

impl World {
    /// Whether a write is in flight, and so may arrive.
    pub fn may_arrive(&self, ticket: Ticket) -> bool
        ensures { result ≡ is_some (value_at (core_at self.now).flights ticket.0) }
    {
        a_write_is_the_cores();
        self.flights.flying(ticket).is_some()
    }

    /// Whether a write is in flight whose server is dead, and so may be lost.
    pub fn may_lose(&self, ticket: Ticket) -> bool
        ensures { result ≡ is_flight (is_by_dead (core_at self.now)) (value_at (core_at self.now).flights ticket.0) }
    {
        a_write_is_the_cores();
        match self.flights.flying(ticket) {
            Some(flying) => self.parties.is_dead(flying.put.server),
            None => false,
        }
    }
}

// ---- lives

impl World {
    // Whether a server is stalled and its lease has ended.
    fn is_past_lease(&self, a: ServerId) -> bool
        requires { a.0 < SERVERS }
        ensures { result ≡ is_past_lease (core_at self.now) a.0 }
    {
        let server = &self.parties.get(a).server;
        server.is_still() && server.expiry() < self.tick
    }

    /// Whether a server may go on after its stall.
    pub fn may_resume(&self, a: ServerId) -> bool
        ensures { result ≡ may_resume (core_at self.now) a.0 }
    {
        is_server(a) && self.is_past_lease(a) && self.is_clean(a)
    }

    /// Whether a server is to die.
    pub fn may_die(&self, a: ServerId) -> bool
        ensures { result ≡ may_die (core_at self.now) a.0 }
    {
        self.parties.is_doomed(a)
    }

    /// Whether a server may renew its lease.
    pub fn may_renew(&self, a: ServerId) -> bool
        ensures { result ≡ may_renew (core_at self.now) a.0 }
    {
        if !is_server(a) {
            return false;
        }
        let server = &self.parties.get(a).server;
        server.is_up() && server.expiry() < self.tick + LEASE_TICKS
    }
}
