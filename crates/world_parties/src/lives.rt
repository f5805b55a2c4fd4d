// What becomes of one server: its line, its lease, what it wants, and its lives.
ghost use Rattle.std.specs.Prelude.{◌≡◌, ◌≤◌, ◌<◌, ◌+◌, Some, false, true};
ghost use Rattle.frang_base.specs.declared.limits.TheConstants.{LAST_TICK, LEASE_TICKS, SERVERS};
ghost use Rattle.cache_definitions.specs.Caches.{any_cached, dropped, is_dirty_under};
ghost use Rattle.core_definitions.specs.EndEffects.{recovered};
ghost use Rattle.core_definitions.specs.LineEffects.{failed_by, off_after};
ghost use Rattle.core_definitions.specs.Servers as core;
ghost use Rattle.core_definitions.specs.Servers.{is_in_mount, wanting_all, wanting_all_up};
ghost use Rattle.core_definitions.specs.Settings.{Setting, lease_to};
ghost use Rattle.core_definitions.specs.WriteEffects.{died_with, up_again};
ghost use Rattle.server_core.specs.Phases.{fate_of};
ghost use Rattle.world_parties.specs.States.{Becomes, EachBecomes, IsBare, Keeps, servers_at};

use crate::all::want_all;
use crate::parties::Parties;
use frang_base::{LockId, ServerId};
use server_core::{Fate, Under};

// ---- its line, its lease, what it wants

impl Parties {
    /// A line is under way of a server from now on.
    pub fn begin(&mut self, a: ServerId, under: Under)
        requires { a.0 < SERVERS }
        ensures becomes { Becomes self.old self.new a.0 (record (servers_at self.old a.0) { under = Some under.under }) }
        ensures keeps { Keeps self.old self.new }
    {
        self.list[usize::from(a.0)].begin(under);
    }

    /// The lease of a server lasts from now on.
    pub fn renew(&mut self, a: ServerId, now: u64)
        requires server { a.0 < SERVERS }
        requires clock { now ≤ LAST_TICK }
        ensures becomes { Becomes self.old self.new a.0 (record (servers_at self.old a.0) { expiry = now + LEASE_TICKS }) }
        ensures keeps { Keeps self.old self.new }
    {
        self.list[usize::from(a.0)].renew(now);
    }

    /// The sectors under a lock leave the cache of a server. Nothing under the lock is dirty.
    pub fn drop_under(&mut self, a: ServerId, lock: LockId)
        requires server { a.0 < SERVERS }
        requires clean { any_cached (is_dirty_under lock) (servers_at self.old a.0).cache ≡ false }
        ensures becomes { Becomes self.old self.new a.0 (record (servers_at self.old a.0) { cache = dropped (servers_at self.old a.0).cache lock }) }
        ensures keeps { Keeps self.old self.new }
    {
        self.list[usize::from(a.0)].drop_under(lock);
    }

    /// A server wants everything written.
    pub fn want_all(&mut self, a: ServerId)
        requires { a.0 < SERVERS }
        ensures becomes { Becomes self.old self.new a.0 (wanting_all (servers_at self.old a.0)) }
        ensures keeps { Keeps self.old self.new }
    {
        self.list[usize::from(a.0)].want_all();
    }

    /// All servers that are up want everything written.
    pub fn flush(&mut self)
        ensures becomes { EachBecomes self.old self.new wanting_all_up }
        ensures keeps { Keeps self.old self.new }
    {
        want_all(&mut self.list);
    }
}

// ---- its lives

impl Parties {
    /// A get or put of a server failed: it counts where the server is up, still or doomed.
    pub fn fail(&mut self, a: ServerId)
        requires { a.0 < SERVERS }
        ensures becomes { Becomes self.old self.new a.0 (failed_by (servers_at self.old a.0)) }
        ensures keeps { Keeps self.old self.new }
    {
        self.list[usize::from(a.0)].fail();
    }

    /// What goes with a server, and whether it will owe, is settled: its next event is its death.
    pub fn doom(&mut self, a: ServerId, fate: Fate)
        requires server { a.0 < SERVERS }
        requires mounted { is_in_mount (servers_at self.old a.0).phase ≡ true }
        ensures becomes { Becomes self.old self.new a.0 (record (servers_at self.old a.0) { phase = core.Doomed (fate_of fate) }) }
        ensures keeps { Keeps self.old self.new }
    {
        self.list[usize::from(a.0)].doom(fate);
    }

    /// A server dies of what was settled at its doom.
    pub fn die(&mut self, a: ServerId, fate: Fate)
        requires { a.0 < SERVERS }
        ensures becomes { Becomes self.old self.new a.0 (died_with (fate_of fate) (servers_at self.old a.0)) }
        ensures keeps { Keeps self.old self.new }
        ensures bare { IsBare self.new a.0 }
    {
        self.list[usize::from(a.0)].die(fate);
    }

    /// The stall of a server is over: with nothing in memory but its ring it is up, and a lease begins.
    pub fn resume(&mut self, a: ServerId, now: u64)
        requires server { a.0 < SERVERS }
        requires clock { now ≤ LAST_TICK }
        requires mounted { is_in_mount (servers_at self.old a.0).phase ≡ true }
        ensures becomes { (setting : Setting) → lease_to setting now ≡ now + LEASE_TICKS → Becomes self.old self.new a.0 (up_again setting now (servers_at self.old a.0)) }
        ensures keeps { Keeps self.old self.new }
    {
        self.list[usize::from(a.0)].resume(now);
    }

    /// The mount of a server ends well: nothing is left in memory but its ring.
    pub fn turn_off(&mut self, a: ServerId)
        requires { a.0 < SERVERS }
        ensures becomes { Becomes self.old self.new a.0 (off_after (servers_at self.old a.0)) }
        ensures keeps { Keeps self.old self.new }
    {
        self.list[usize::from(a.0)].turn_off();
    }

    /// The log of a server is recovered: it is off, and its ring is gone.
    pub fn recovered(&mut self, a: ServerId)
        requires { a.0 < SERVERS }
        ensures becomes { Becomes self.old self.new a.0 (recovered (servers_at self.old a.0)) }
        ensures keeps { Keeps self.old self.new }
    {
        self.list[usize::from(a.0)].recovered();
    }
}
