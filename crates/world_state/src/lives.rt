// What the events of lives do that need no plan: Die, Resume, Renew.
ghost use Rattle.std.specs.Prelude.{◌≡◌, ◌<◌, IsTrue, true, if◌then◌else◌};
ghost use Rattle.frang_base.specs.declared.limits.TheConstants.{SERVERS};
ghost use Rattle.core_definitions.specs.Flights.{left_behind, lost};
ghost use Rattle.core_definitions.specs.LineEffects.{call_failed};
ghost use Rattle.core_definitions.specs.Scripts.{host_party};
ghost use Rattle.core_definitions.specs.Servers.{Doomed, is_in_mount};
ghost use Rattle.core_definitions.specs.WriteEffects as core;
ghost use Rattle.core_definitions.specs.WriteEffects.{died, doomed, renewed, resumed};
ghost use Rattle.core_definitions.specs.WriteGuards.{may_die, may_renew, may_resume};
ghost use Rattle.flight_laws.specs.Flights.{flights_of};
ghost use Rattle.server_core.specs.Phases.{fate_of};
ghost use Rattle.world_state.specs.States.{core_at};

use crate::world::World;
use flight_laws::{lost_writes_are_the_cores, writes_left_behind_are_the_cores};
use frang_base::ServerId;
use frang_base::limits::LEASE_TICKS;
use petal_disk::Flight;
use server_core::{Fate, Phase};

// The writes of a dead server are lost, or of an earlier mount from now on.
fn lose_or_leave(flights: &mut Flight, a: ServerId, loses: bool)
    ensures flights { flights_of flights.new.flying ≡ (if loses then lost a.0 (flights_of flights.old.flying) else left_behind a.0 (flights_of flights.old.flying)) }
    ensures next { flights.new.next ≡ flights.old.next }
{
    lost_writes_are_the_cores();
    writes_left_behind_are_the_cores();
    if loses {
        flights.lose_all(a);
    } else {
        flights.leave_behind(a);
    }
}

impl World {
    // It dies of this fate, which was settled at its doom: what it has in flight is lost, or of an earlier mount from now on.
    fn die_of(&mut self, a: ServerId, fate: Fate)
        requires server { a.0 < SERVERS }
        requires fate { ((core_at self.old).servers a.0).phase ≡ Doomed (fate_of fate) }
        ensures { core_at self.new ≡ died (core_at self.old) a.0 }
    {
        self.parties.die(a, fate);
        lose_or_leave(&mut self.flights, a, fate.loses);
    }

    /// Doom: this fate of a server, which is what its core settles for it, is settled, and its next event is its death.
    pub fn doom(&mut self, a: ServerId, fate: Fate)
        requires server { a.0 < SERVERS }
        requires mounted { is_in_mount ((core_at self.old).servers a.0).phase ≡ true }
        requires fate { fate_of fate ≡ core.fate_of (core_at self.old) a.0 }
        ensures { core_at self.new ≡ doomed (core_at self.old) a.0 }
    {
        self.parties.doom(a, fate);
    }

    /// Die: a doomed server is dead.
    pub fn die(&mut self, a: ServerId)
        requires { IsTrue (may_die (core_at self.old) a.0) }
        ensures { core_at self.new ≡ died (core_at self.old) a.0 }
    {
        match self.parties.get(a).server.phase() {
            Phase::Doomed { fate } => self.die_of(a, fate),
            _ => unreachable!(),
        }
    }

    /// Resume: a stalled server whose lease has ended goes on with nothing in memory, its locks given back.
    pub fn resume(&mut self, a: ServerId)
        requires { IsTrue (may_resume (core_at self.old) a.0) }
        ensures { core_at self.new ≡ resumed (core_at self.old) a.0 }
    {
        let now = self.tick;
        self.parties.resume(a, now);
        self.locks.clear(a);
    }

    /// Renew: the lease lasts from now on, also of each hold on a log whose taker the server is.
    pub fn renew(&mut self, a: ServerId)
        requires { a.0 < SERVERS }
        ensures { core_at self.new ≡ renewed (core_at self.old) a.0 }
    {
        let now = self.tick;
        self.parties.renew(a, now);
        self.locks.extend(a, now + LEASE_TICKS);
    }

    /// A get or put of a server failed: it counts where the server is up, still or doomed.
    pub fn server_failed(&mut self, a: ServerId)
        requires { a.0 < SERVERS }
        ensures { core_at self.new ≡ call_failed (core_at self.old) a.0 }
    {
        self.parties.fail(a);
    }

    /// A get or put of the host failed, which ends the core.
    pub fn host_failed(&mut self)
        ensures { core_at self.new ≡ call_failed (core_at self.old) host_party }
    {
        self.over = true;
    }
}
