// A party that is a server.
ghost use Rattle.std.specs.Prelude.{◌≡◌, ◌≤◌, ◌+◌, [], None, Some, false, true, if◌then◌else◌};
ghost use Rattle.frang_base.specs.declared.limits.TheConstants.{LAST_TICK, LEASE_TICKS};
ghost use Rattle.cache_definitions.specs.Caches.{any_cached, dropped, is_dirty_under};
ghost use Rattle.cache_definitions.specs.Flags.{but, with_cached};
ghost use Rattle.core_definitions.specs.EndEffects.{recovered};
ghost use Rattle.core_definitions.specs.LineEffects.{failed_by, off_after};
ghost use Rattle.core_definitions.specs.Servers as core;
ghost use Rattle.core_definitions.specs.Servers.{is_in_mount, wanting_all, wanting_all_up};
ghost use Rattle.core_definitions.specs.Settings.{Setting, lease_to};
ghost use Rattle.core_definitions.specs.WriteEffects.{counted, died_with, ring_after, up_again};
ghost use Rattle.flight_laws.specs.Flights.{purpose_of};
ghost use Rattle.server_core.specs.Effects.{IsNext};
ghost use Rattle.server_core.specs.Phases.{fate_of};
ghost use Rattle.world_parties.specs.States.{PartyKeeps, oldest_of, server_of};

use frang_base::{LockId, Sector};
use kept_plans::KeptPlan;
use petal_disk::Purpose;
use recovery_demon::Demon;
use server_core::{Fate, Server, Under};

// A recovery, or none, in the place of another.
pub(crate) fn set(place: &mut Option<Demon>, recovery: Option<Demon>)
    ensures { place.new ≡ recovery }
{
    *place = recovery;
}

/// A server, with the recovery of a log that it carries out, if any, and what is kept of its line.
#[derive(Drop)]
pub struct Party {
    pub server: Server,
    pub recovery: Option<Demon>,
    /// What its line comes to, where that is known.
    pub plan: Option<KeptPlan>,
    /// The sectors that the oldest records of its log name, where these are known.
    pub oldest: Option<Vec<Sector>>,
}

impl Party {
    /// Nothing is known of its line or its log any more.
    pub fn forget(&mut self)
        ensures { self.new ≡ record self.old { plan = None; oldest = None } }
    {
        self.plan = None;
        self.oldest = None;
    }
}

// ---- its line, its lease, what it wants

impl Party {
    // A line is under way from now on.
    pub(crate) fn begin(&mut self, under: Under)
        ensures server { server_of self.new ≡ record (server_of self.old) { under = Some under.under } }
        ensures id { self.new.server.id ≡ self.old.server.id }
        ensures recovery { self.new.recovery ≡ self.old.recovery }
        ensures keeps { PartyKeeps self.old self.new }
    {
        self.server.begin(under);
        self.forget();
    }

    // Its lease lasts from now on.
    pub(crate) fn renew(&mut self, now: u64)
        requires { now ≤ LAST_TICK }
        ensures server { server_of self.new ≡ record (server_of self.old) { expiry = now + LEASE_TICKS } }
        ensures id { self.new.server.id ≡ self.old.server.id }
        ensures recovery { self.new.recovery ≡ self.old.recovery }
        ensures keeps { PartyKeeps self.old self.new }
    {
        self.server.renew(now);
    }

    // The sectors under a lock leave its cache.
    pub(crate) fn drop_under(&mut self, lock: LockId)
        requires { any_cached (is_dirty_under lock) (server_of self.old).cache ≡ false }
        ensures server { server_of self.new ≡ record (server_of self.old) { cache = dropped (server_of self.old).cache lock } }
        ensures id { self.new.server.id ≡ self.old.server.id }
        ensures recovery { self.new.recovery ≡ self.old.recovery }
        ensures keeps { PartyKeeps self.old self.new }
    {
        self.server.drop_under(lock);
        self.forget();
    }

    // It wants everything written.
    pub(crate) fn want_all(&mut self)
        ensures server { server_of self.new ≡ wanting_all (server_of self.old) }
        ensures id { self.new.server.id ≡ self.old.server.id }
        ensures recovery { self.new.recovery ≡ self.old.recovery }
        ensures flags { self.new.server.flying ≡ self.old.server.flying }
        ensures plan { self.new.plan ≡ self.old.plan }
        ensures oldest { oldest_of self.new ≡ oldest_of self.old }
        ensures keeps { PartyKeeps self.old self.new }
    {
        self.server.want_all();
    }

    // It wants everything written where it is up.
    pub(crate) fn want_all_if_up(&mut self)
        ensures server { server_of self.new ≡ wanting_all_up (server_of self.old) }
        ensures id { self.new.server.id ≡ self.old.server.id }
        ensures recovery { self.new.recovery ≡ self.old.recovery }
        ensures flags { self.new.server.flying ≡ self.old.server.flying }
        ensures plan { self.new.plan ≡ self.old.plan }
        ensures oldest { oldest_of self.new ≡ oldest_of self.old }
    {
        if self.server.is_up() {
            self.want_all();
        }
    }
}

// ---- its writes

impl Party {
    // A write of it is issued.
    pub(crate) fn issued(&mut self, purpose: Purpose)
        requires { IsNext (server_of self.old).ring (purpose_of purpose) }
        ensures server { server_of self.new ≡ record (server_of self.old) { ring = ring_after (purpose_of purpose) (server_of self.old).ring; arming = counted (server_of self.old).arming } }
        ensures id { self.new.server.id ≡ self.old.server.id }
        ensures recovery { self.new.recovery ≡ self.old.recovery }
        ensures keeps { PartyKeeps self.old self.new }
    {
        self.server.issued(purpose);
        if let Purpose::OfLog(_) = purpose {
            self.oldest = None;
        }
    }

    // A write of a sector is in flight, or no longer: where the sector is cached, that is kept of it.
    pub(crate) fn set_flies(&mut self, sector: Sector, flies: bool)
        ensures server { server_of self.new ≡ server_of self.old }
        ensures flags { self.new.server.flying ≡ (if flies then with_cached self.old.server.server.cache sector.0 self.old.server.flying else but sector.0 self.old.server.flying) }
        ensures id { self.new.server.id ≡ self.old.server.id }
        ensures recovery { self.new.recovery ≡ self.old.recovery }
        ensures plan { self.new.plan ≡ self.old.plan }
        ensures oldest { oldest_of self.new ≡ oldest_of self.old }
    {
        self.server.set_flies(sector, flies);
    }

    // A get or put of it failed.
    pub(crate) fn fail(&mut self)
        ensures server { server_of self.new ≡ failed_by (server_of self.old) }
        ensures id { self.new.server.id ≡ self.old.server.id }
        ensures recovery { self.new.recovery ≡ self.old.recovery }
        ensures keeps { PartyKeeps self.old self.new }
    {
        self.server.fail();
    }
}

// ---- its lives

impl Party {
    // What goes with it, and whether it will owe, is settled.
    pub(crate) fn doom(&mut self, fate: Fate)
        requires { is_in_mount (server_of self.old).phase ≡ true }
        ensures server { server_of self.new ≡ record (server_of self.old) { phase = core.Doomed (fate_of fate) } }
        ensures id { self.new.server.id ≡ self.old.server.id }
        ensures recovery { self.new.recovery ≡ self.old.recovery }
        ensures keeps { PartyKeeps self.old self.new }
    {
        self.server.doom(fate);
    }

    // It dies of what was settled at its doom.
    pub(crate) fn die(&mut self, fate: Fate)
        ensures server { server_of self.new ≡ died_with (fate_of fate) (server_of self.old) }
        ensures id { self.new.server.id ≡ self.old.server.id }
        ensures recovery { self.new.recovery ≡ None }
        ensures flags { self.new.server.flying ≡ [] }
        ensures plan { self.new.plan ≡ None }
        ensures oldest { oldest_of self.new ≡ None }
        ensures keeps { PartyKeeps self.old self.new }
    {
        self.recovery = None;
        self.server.die(fate);
        self.forget();
    }

    // Its stall is over.
    pub(crate) fn resume(&mut self, now: u64)
        requires clock { now ≤ LAST_TICK }
        requires mounted { is_in_mount (server_of self.old).phase ≡ true }
        ensures server { (setting : Setting) → lease_to setting now ≡ now + LEASE_TICKS → server_of self.new ≡ up_again setting now (server_of self.old) }
        ensures id { self.new.server.id ≡ self.old.server.id }
        ensures recovery { self.new.recovery ≡ None }
        ensures keeps { PartyKeeps self.old self.new }
    {
        self.recovery = None;
        self.server.resume(now);
        self.forget();
    }

    // Its mount ends well.
    pub(crate) fn turn_off(&mut self)
        ensures server { server_of self.new ≡ off_after (server_of self.old) }
        ensures id { self.new.server.id ≡ self.old.server.id }
        ensures recovery { self.new.recovery ≡ None }
        ensures keeps { PartyKeeps self.old self.new }
    {
        self.recovery = None;
        self.server.turn_off();
        self.forget();
    }

    // Its log is recovered.
    pub(crate) fn recovered(&mut self)
        ensures server { server_of self.new ≡ recovered (server_of self.old) }
        ensures id { self.new.server.id ≡ self.old.server.id }
        ensures recovery { self.new.recovery ≡ self.old.recovery }
        ensures keeps { PartyKeeps self.old self.new }
    {
        self.server.recovered();
        self.forget();
    }

    // It carries out this recovery from now on, or none.
    pub(crate) fn set_recovery(&mut self, recovery: Option<Demon>)
        ensures party { self.new ≡ record self.old { recovery = recovery } }
    {
        set(&mut self.recovery, recovery);
    }

    // The recovery that it carries out, if any: from then on it carries out none.
    pub(crate) fn take_recovery(&mut self) -> Option<Demon>
        ensures result { result ≡ self.old.recovery }
        ensures party { self.new ≡ record self.old { recovery = None } }
    {
        self.recovery.take()
    }
}
