// What becomes of a server: its line, its lease, what it wants, and its lives.
ghost use Rattle.std.specs.Prelude.{◌≡◌, ◌≤◌, ◌+◌, [], not, Some, None, true, false};
ghost use Rattle.std.specs.Option.{option_map};
ghost use Rattle.frang_base.specs.declared.limits.TheConstants.{LAST_TICK, LEASE_TICKS};
ghost use Rattle.cache_definitions.specs.Caches.{any_cached, is_dirty_under};
ghost use Rattle.core_definitions.specs.EndEffects.{recovered};
ghost use Rattle.core_definitions.specs.LineEffects.{failed_by, off_after};
ghost use Rattle.core_definitions.specs.Servers as core;
ghost use Rattle.core_definitions.specs.Servers.{first_server, is_in_mount};
ghost use Rattle.core_definitions.specs.Settings.{Setting, lease_to};
ghost use Rattle.core_definitions.specs.WriteEffects.{died_with, under_at_death, up_again};
ghost use Rattle.server_core.specs.Phases.{arming_of, fate_of};
ghost use Rattle.server_core.specs.States.{KeepsRoom};

use crate::phase::{Arming, Fate, Phase};
use crate::server::Server;
use crate::under::Under;
use clerk_cache::Cache;
use frang_base::LockId;
use frang_base::limits::LEASE_TICKS;
use ordered_map::OrderedMap;
use wal_ring::Ring;

// ---- its line, its lease, its locks

impl Server {
    /// A line is under way from now on.
    pub fn begin(&mut self, under: Under)
        ensures server { self.new.server ≡ record self.old.server { under = Some under.under } }
        ensures flying { self.new.flying ≡ self.old.flying }
        ensures room { KeepsRoom self.old self.new }
    {
        self.under = Some(under);
    }

    /// Its line under way is answered, and is gone.
    pub fn end_line(&mut self)
        ensures server { self.new.server ≡ record self.old.server { under = None } }
        ensures flying { self.new.flying ≡ self.old.flying }
        ensures room { KeepsRoom self.old self.new }
    {
        self.under = None;
    }

    /// Its lease lasts from now on.
    pub fn renew(&mut self, now: u64)
        requires { now ≤ LAST_TICK }
        ensures server { self.new.server ≡ record self.old.server { expiry = now + LEASE_TICKS } }
        ensures flying { self.new.flying ≡ self.old.flying }
        ensures room { KeepsRoom self.old self.new }
    {
        self.expiry = now + LEASE_TICKS;
    }

    /// Whether nothing under a lock is dirty.
    pub fn is_clean_under(&self, lock: LockId) -> bool
        ensures { result ≡ not (any_cached (is_dirty_under lock) self.now.server.cache) }
    {
        self.cache.is_clean(lock)
    }
}

// ---- its lives

impl Server {
    /// A get or put of it failed: it counts where it is up, still or doomed.
    pub fn fail(&mut self)
        ensures server { self.new.server ≡ failed_by self.old.server }
        ensures flying { self.new.flying ≡ self.old.flying }
        ensures room { KeepsRoom self.old self.new }
    {
        if self.is_in_mount() {
            self.failed = true;
        }
    }

    /// It is armed to die where the k-th next write would be issued.
    pub fn arm(&mut self, arming: Arming)
        ensures server { self.new.server ≡ record self.old.server { arming = Some (arming_of arming) } }
        ensures flying { self.new.flying ≡ self.old.flying }
        ensures room { KeepsRoom self.old self.new }
    {
        self.arming = Some(arming);
    }

    /// It is stalled. It is mounted before.
    pub fn stall(&mut self)
        requires { is_in_mount self.old.server.phase ≡ true }
        ensures server { self.new.server ≡ record self.old.server { phase = core.Still } }
        ensures flying { self.new.flying ≡ self.old.flying }
        ensures room { KeepsRoom self.old self.new }
    {
        self.phase = Phase::Still;
    }

    /// It owes nothing any more.
    pub fn owe_nothing(&mut self)
        ensures server { self.new.server ≡ record self.old.server { owes = false } }
        ensures flying { self.new.flying ≡ self.old.flying }
        ensures room { KeepsRoom self.old self.new }
    {
        self.owes = false;
    }

    /// What goes with it, and whether it will owe, is settled: its next event is its death.
    pub fn doom(&mut self, fate: Fate)
        requires { is_in_mount self.old.server.phase ≡ true }
        ensures server { self.new.server ≡ record self.old.server { phase = core.Doomed (fate_of fate) } }
        ensures flying { self.new.flying ≡ self.old.flying }
        ensures room { KeepsRoom self.old self.new }
    {
        self.phase = Phase::Doomed { fate };
    }

    // Nothing is in its memory any more but its ring and its line, and it isn't armed.
    fn empty(&mut self)
        ensures server { self.new.server ≡ record first_server { phase = self.old.server.phase; expiry = self.old.server.expiry; owes = self.old.server.owes; failed = self.old.server.failed; ring = self.old.server.ring; under = self.old.server.under } }
        ensures flying { self.new.flying ≡ [] }
        ensures id { self.new.id ≡ self.old.id }
    {
        self.arming = None;
        self.cache = Cache::new(self.alloc);
        self.staying_log = 0;
        self.pending = OrderedMap::new(self.alloc);
    }

    // An open answer of its line under way is fixed.
    fn fix_answer(&mut self)
        ensures server { self.new.server ≡ record self.old.server { under = option_map (under_at_death self.old.server.failed) self.old.server.under } }
        ensures flying { self.new.flying ≡ self.old.flying }
        ensures id { self.new.id ≡ self.old.id }
    {
        if let Some(under) = &mut self.under {
            under.fix_at_death(self.failed);
        }
    }

    /// It dies of what was settled at its doom: what is in its memory but its ring is gone, and an open answer of its line under way is fixed.
    pub fn die(&mut self, fate: Fate)
        ensures server { self.new.server ≡ died_with (fate_of fate) self.old.server }
        ensures flying { self.new.flying ≡ [] }
        ensures id { self.new.id ≡ self.old.id }
    {
        self.empty();
        self.fix_answer();
        self.phase = Phase::Dead;
        self.owes = fate.owes;
    }

    /// Its stall is over: with nothing in memory but its ring it is up, and a lease begins. An arming stays.
    pub fn resume(&mut self, now: u64)
        requires clock { now ≤ LAST_TICK }
        requires mounted { is_in_mount self.old.server.phase ≡ true }
        ensures server { (setting : Setting) → lease_to setting now ≡ now + LEASE_TICKS → self.new.server ≡ up_again setting now self.old.server }
        ensures flying { self.new.flying ≡ [] }
        ensures id { self.new.id ≡ self.old.id }
    {
        let arming = self.arming;
        self.empty();
        self.arming = arming;
        self.phase = Phase::Up;
        self.expiry = now + LEASE_TICKS;
        self.owes = false;
    }

    /// Its mount ends well: nothing is left in memory but its ring.
    pub fn turn_off(&mut self)
        ensures server { self.new.server ≡ off_after self.old.server }
        ensures flying { self.new.flying ≡ [] }
        ensures id { self.new.id ≡ self.old.id }
    {
        self.empty();
        self.phase = Phase::Off;
        self.owes = false;
        self.under = None;
    }

    /// A mount begins: with nothing in memory but this ring it is up, and a lease begins.
    pub fn mount(&mut self, ring: Ring, now: u64)
        requires { now ≤ LAST_TICK }
        ensures server { self.new.server ≡ record first_server { phase = core.Up; expiry = now + LEASE_TICKS; ring = ring.ring } }
        ensures flying { self.new.flying ≡ [] }
        ensures id { self.new.id ≡ self.old.id }
    {
        self.empty();
        self.ring = Some(ring);
        self.phase = Phase::Up;
        self.expiry = now + LEASE_TICKS;
        self.owes = false;
        self.failed = false;
        self.under = None;
    }

    /// Its log is recovered: it is off, and its ring is gone.
    pub fn recovered(&mut self)
        ensures server { self.new.server ≡ recovered self.old.server }
        ensures flying { self.new.flying ≡ self.old.flying }
        ensures id { self.new.id ≡ self.old.id }
    {
        self.phase = Phase::Off;
        self.ring = None;
    }
}
