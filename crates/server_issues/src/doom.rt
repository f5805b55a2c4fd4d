// When a server may be doomed, and what its doom settles.
ghost use Rattle.std.specs.Prelude.{◌≡◌, ◌&&◌, ◌||◌, not, nat_lt};
ghost use Rattle.core_definitions.specs.Cores.{Core, clean_at, writes};
ghost use Rattle.core_definitions.specs.Servers.{asks, is_still};
ghost use Rattle.tree_definitions.specs.Transcript.{is_crash};
ghost use Rattle.core_definitions.specs.WriteEffects.{fate_of, is_cut};
ghost use Rattle.core_definitions.specs.WriteGuards.{is_crashing, is_faulted, is_held_back, is_past_lease, may_doom};
ghost use Rattle.server_core.specs.Phases as phases;
ghost use Rattle.server_issues.specs.Issuing.{IsIssuing};

use crate::issuer::Issuer;
use flight_laws::the_mounts_writes_are_the_cores;
use server_core::{Fate, is_crash};

impl<'a> Issuer<'a> {
    // Whether it is up, and a crash without a number is under way whose answer is open.
    fn is_crashing(&self) -> bool
        ensures { result ≡ is_crashing self.now.server.server }
    {
        self.server.is_up() && self.asks_crash()
    }

    // Whether a crash without a number is under way whose answer is open.
    fn asks_crash(&self) -> bool
        ensures { result ≡ asks is_crash self.now.server.server }
    {
        match self.server.under() {
            Some(under) => match under.operation() {
                Some(operation) => under.is_open() && is_crash(operation),
                None => false,
            },
            None => false,
        }
    }

    // Whether it is stalled, and its lease has ended.
    fn is_past_lease(&self) -> bool
        ensures { result ≡ (is_still self.now.server.server.phase && nat_lt self.now.server.server.expiry self.now.tick) }
    {
        self.server.is_still() && self.server.expiry() < self.tick
    }

    // Whether it is mounted, not doomed, and a get or put of it failed.
    fn is_faulted(&self) -> bool
        ensures { result ≡ is_faulted self.now.server.server }
    {
        (self.server.is_up() || self.server.is_still()) && self.server.has_failed()
    }

    /// Whether nothing of it is dirty, in flight, not acknowledged or under recovery.
    pub fn is_clean(&self) -> bool
        ensures { (c : Core) → IsIssuing c self.now → result ≡ clean_at c self.now.server.id }
    {
        the_mounts_writes_are_the_cores();
        let flies = self.flights.has_flights(self.server.id());
        self.server.is_clean(flies, self.recovery.is_some())
    }

    // Whether a crash without a number is under way, or some issue is held back.
    fn ends_at_once(&self) -> bool
        ensures { (c : Core) → IsIssuing c self.now → result ≡ (is_crashing (c.servers self.now.server.id) || is_held_back c self.now.server.id (writes c self.now.server.id)) }
    {
        self.is_crashing() || self.is_held_back()
    }

    // Whether it is stalled, its lease has ended and it isn't clean.
    fn ends_by_lease(&self) -> bool
        ensures { (c : Core) → IsIssuing c self.now → result ≡ (is_past_lease c self.now.server.id && not (clean_at c self.now.server.id)) }
    {
        self.is_past_lease() && !self.is_clean()
    }

    // Whether it ends by one of these.
    fn ends(&self) -> bool
        ensures { (c : Core) → IsIssuing c self.now →
            result ≡ (is_crashing (c.servers self.now.server.id) || is_held_back c self.now.server.id (writes c self.now.server.id) || (is_past_lease c self.now.server.id && not (clean_at c self.now.server.id))) }
    {
        self.ends_at_once() || self.ends_by_lease()
    }

    /// Whether it may be doomed: a crash without a number is under way; it is armed and some issue of it is held back; it is stalled, its lease has ended and it isn't clean; or a get or
    /// put of its mount failed. It takes as long as `next_issuable`.
    pub fn may_doom(&self) -> bool
        ensures { (c : Core) → IsIssuing c self.now → result ≡ may_doom c self.now.server.id (writes c self.now.server.id) }
    {
        // It is one of the servers.
        let _server = self.server;
        self.ends() || self.is_faulted()
    }

    // Whether it is armed to lose what is in flight.
    fn is_cut(&self) -> bool
        ensures { result ≡ is_cut self.now.server.server.arming }
    {
        match self.server.arming() {
            Some(arming) => arming.cuts,
            None => false,
        }
    }

    /// What its doom settles: all that it has in flight goes with it exactly where an issue is held back and the arming is a cut; it will owe exactly where it is stalled, its lease has
    /// ended, it isn't clean and no call of its mount failed. It takes as long as `next_issuable`.
    pub fn fate(&self) -> Fate
        ensures { (c : Core) → IsIssuing c self.now → phases.fate_of result ≡ fate_of c self.now.server.id }
    {
        Fate {
            loses: self.is_cut() && self.is_held_back(),
            owes: self.ends_by_lease() && !self.server.has_failed(),
        }
    }
}
