// The host's lines and the end: HostLine, Close.
ghost use Rattle.std.specs.Prelude.{◌≡◌, ◌<◌, [], IsTrue, false, true, if◌then◌else◌};
ghost use Rattle.frang_base.specs.Functions.{put};
ghost use Rattle.frang_base.specs.declared.limits.TheConstants.{SERVERS};
ghost use Rattle.tree_definitions.specs.Transcript.{is_halt};
ghost use Rattle.core_definitions.specs.Cores.{clean_at};
ghost use Rattle.core_definitions.specs.EndEffects.{closed, host_answered};
ghost use Rattle.core_definitions.specs.EndGuards.{all_off, is_at_rest, may_close, may_host, none_paused, none_unsettled};
ghost use Rattle.core_definitions.specs.Logs.{is_none};
ghost use Rattle.core_definitions.specs.Scripts.{have_passed};
ghost use Rattle.flight_laws.specs.Flights.{flights_of};
ghost use Rattle.world_state.specs.States.{IsHostLine, core_at};

use crate::world::World;
use frang_base::{HostOp, ServerId, What};
use petal_disk::Flight;
use world_parties::is_server;

impl World {
    // Whether no server is held.
    fn is_none_paused(&self) -> bool
        ensures { result ≡ none_paused (core_at self.now) }
    {
        !self.parties.is_any_held()
    }

    // Whether no server is stalled, doomed or dead.
    fn is_none_unsettled(&self) -> bool
        ensures { result ≡ none_unsettled (core_at self.now) }
    {
        !self.parties.is_any_unsettled()
    }

    // Whether all servers are off.
    fn are_all_off(&self) -> bool
        ensures { result ≡ all_off (core_at self.now) }
    {
        self.parties.are_all_off()
    }

    /// Whether a server may be closed: every line is answered, no server is stalled, doomed or dead, and this one is up and isn't held.
    pub fn may_close(&self, a: ServerId) -> bool
        ensures { result ≡ may_close (core_at self.now) a.0 }
    {
        if !is_server(a) {
            return false;
        }
        self.is_all_answered()
            && self.is_none_unsettled()
            && self.parties.get(a).server.is_up()
            && !self.parties.is_held(a)
    }

    // Whether nothing is in flight.
    fn is_none_in_flight(&self) -> bool
        ensures { result ≡ is_none (core_at self.now).flights }
    {
        self.flights.count() == 0
    }

    /// Whether every line is answered, all servers are off, nothing is in flight and no server is held.
    pub fn is_at_rest(&self) -> bool
        ensures { result ≡ is_at_rest (core_at self.now) }
    {
        self.is_all_answered()
            && self.are_all_off()
            && self.is_none_in_flight()
            && self.is_none_paused()
    }

    /// A server is held from now on, or no longer: held, it neither begins lines nor closes, and the host answers nothing.
    pub fn hold(&mut self, a: ServerId, held: bool)
        requires { a.0 < SERVERS }
        ensures { core_at self.new ≡ record (core_at self.old) { paused = put (core_at self.old).paused a.0 held } }
    {
        self.parties.hold(a, held);
    }
}

// ---- the host's lines

// Whether the ticks of a line have passed once so many have.
fn have_passed(ticks: u64, what: &What) -> bool
    ensures { result ≡ have_passed ticks what.now }
{
    match what {
        What::Host(HostOp::Tick { n }) => u64::from(*n) <= ticks,
        _ => true,
    }
}

// Whether a line halts.
fn is_halt(what: &What) -> bool
    ensures { result ≡ is_halt what.now }
{
    matches!(what, What::Host(HostOp::Halt))
}

// All writes in flight are lost, if so it is.
fn lose_if(flights: &mut Flight, all: bool)
    ensures flights { flights_of flights.new.flying ≡ (if all then [] else flights_of flights.old.flying) }
    ensures next { flights.new.next ≡ flights.old.next }
{
    if all {
        lose_all(flights);
    }
}

// All writes in flight are lost.
fn lose_all(flights: &mut Flight)
    ensures flights { flights.new.flying ≡ [] }
    ensures next { flights.new.next ≡ flights.old.next }
{
    while let Some((ticket, _)) = flights.flying_at(0) {
        let _count = flights.count();
        flights.lose(ticket);
    }
}

impl World {
    /// Whether the host's line of a number may be answered: it is the host's next, every line before it is answered, its ticks have passed, and no server is held.
    pub fn may_host(&self, number: u32) -> bool
        ensures { result ≡ may_host (core_at self.now) number }
    {
        match self.places.next(ServerId::HOST) {
            Some(line) => {
                self.places.earlier_answered(number)
                    && line.number == number
                    && have_passed(self.ticks, &line.what)
                    && self.is_none_paused()
            }
            None => false,
        }
    }

    // Whether the host's line of this number, its next, halts.
    fn halts(&self, number: u32) -> bool
        requires { IsTrue (may_host (core_at self.now) number) }
        ensures { IsHostLine self.now number result }
    {
        match self.places.next(ServerId::HOST) {
            Some(line) => is_halt(&line.what),
            None => unreachable!(),
        }
    }

    /// HostLine: the host's next line is answered; one that halts ends everything, and what is in flight is lost.
    pub fn host_line(&mut self, number: u32)
        requires may { IsTrue (may_host (core_at self.old) number) }
        requires going { self.old.over ≡ false }
        ensures { core_at self.new ≡ host_answered (core_at self.old) }
    {
        let halts = self.halts(number);
        self.places.answer(ServerId::HOST, number);
        lose_if(&mut self.flights, halts);
        self.ticks = 0;
        self.over = halts;
    }
}

// ---- the end

impl World {
    // A clean server is off, and its locks are given back.
    fn turn_off(&mut self, a: ServerId)
        requires server { a.0 < SERVERS }
        requires clean { clean_at (core_at self.old) a.0 ≡ true }
        ensures { core_at self.new ≡ closed (core_at self.old) a.0 }
    {
        self.parties.turn_off(a);
        self.locks.clear(a);
    }

    // A server that isn't clean wants everything written.
    fn want_all(&mut self, a: ServerId)
        requires server { a.0 < SERVERS }
        requires dirty { clean_at (core_at self.old) a.0 ≡ false }
        ensures { core_at self.new ≡ closed (core_at self.old) a.0 }
    {
        self.parties.want_all(a);
    }

    /// Close: a server that is clean is off, and its locks are given back; one that isn't wants everything written.
    pub fn close(&mut self, a: ServerId)
        requires { IsTrue (may_close (core_at self.old) a.0) }
        ensures { core_at self.new ≡ closed (core_at self.old) a.0 }
    {
        if self.is_clean(a) {
            self.turn_off(a);
        } else {
            self.want_all(a);
        }
    }
}
