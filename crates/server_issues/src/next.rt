// Which sector a server may issue a write of next.
ghost use Rattle.std.specs.Prelude.{◌≡◌, IsTrue};
ghost use Rattle.core_definitions.specs.Cores.{Core, writes};
ghost use Rattle.core_definitions.specs.WriteGuards.{is_held_back, is_issuable, may_issue};
ghost use Rattle.server_issues.specs.Issuing.{IsIssuing, IsOneThat};
ghost use Rattle.server_issues.specs.Nexts.{IsAtPlace, IsOneAmong, is_log_at, is_place_at, is_cached_at, is_rescue_at, is_rescue_of};

use crate::issuer::{Issuer, log_sector};
use frang_base::Sector;
use recovery_demon::Demon;
use server_writes::next_place_write;

impl<'a> Issuer<'a> {
    // The sector of the log's next write, where it may be issued.
    fn next_of_log(&self) -> Option<Sector>
        ensures { (c : Core) → IsIssuing c self.now → IsOneAmong (is_log_at self.now c) (λ sector. is_issuable c self.now.server.id sector (writes c self.now.server.id)) result }
    {
        let Some(number) = self.server.next_number() else {
            return None;
        };
        let sector = log_sector(self.server.id(), number);
        if self.is_issuable(sector) {
            Some(sector)
        } else {
            None
        }
    }

    // The cached sector at a place, where its write may be issued.
    fn cached_at(&self, i: usize) -> Option<Sector>
        ensures { (c : Core) → IsIssuing c self.now → IsAtPlace (λ sector. is_issuable c self.now.server.id sector (writes c self.now.server.id)) self.now.server.server.cache i result }
    {
        let Some((sector, _)) = self.server.cache().sectors().at(i) else {
            return None;
        };
        if self.is_issuable(sector) {
            Some(sector)
        } else {
            None
        }
    }

    // One of all cached sectors whose write may be issued.
    fn any_cached(&self) -> Option<Sector>
        ensures { (c : Core) → IsIssuing c self.now → IsOneAmong (is_cached_at self.now) (λ sector. is_issuable c self.now.server.id sector (writes c self.now.server.id)) result }
    {
        for i in 0..self.server.cache().sectors().count() {
            if let Some(sector) = self.cached_at(i) {
                return Some(sector);
            }
        }
        None
    }

    // A sector in place whose write may be issued. Where the first that is wanted can't, since a write of it is in flight that isn't flagged, all cached sectors are gone through.
    fn next_in_place(&self) -> Option<Sector>
        ensures { (c : Core) → IsIssuing c self.now → IsOneAmong (is_place_at self.now c) (λ sector. is_issuable c self.now.server.id sector (writes c self.now.server.id)) result }
    {
        // Each sector is cached once.
        let _cover = self.server.cache().cover(Sector(0));
        let Some(sector) = next_place_write(self.server, self.table, self.room) else {
            return None;
        };
        if self.is_issuable(sector) {
            Some(sector)
        } else {
            self.any_cached()
        }
    }

    // A sector of a recovery whose write may be issued.
    fn next_for(&self, demon: &Demon) -> Option<Sector>
        requires { IsTrue demon.now.is_fresh }
        ensures { (c : Core) → IsIssuing c self.now → IsOneAmong (is_rescue_of demon.now) (λ sector. is_issuable c self.now.server.id sector (writes c self.now.server.id)) result }
    {
        let mut from = Sector(0);
        // All that are written are low.
        let _looked = demon.has_looked(from);
        while let Some(sector) = demon.first_write(from) {
            if self.is_issuable(sector) {
                return Some(sector);
            }
            from = Sector(sector.0 + 1);
        }
        None
    }

    // A sector of its recovery whose write may be issued.
    fn next_of_recovery(&self) -> Option<Sector>
        ensures { (c : Core) → IsIssuing c self.now → IsOneAmong (is_rescue_at self.now) (λ sector. is_issuable c self.now.server.id sector (writes c self.now.server.id)) result }
    {
        match self.recovery {
            Some(demon) => self.next_for(demon),
            None => None,
        }
    }

    /// A sector of which it may issue a write, its arming left aside. `None` exactly where there is none. It takes time logarithmic in what is cached, locked, in flight and recovered, for
    /// each lock that it is asked for, each pending sector, each of the room, and each sector of its recovery that is in flight; only where the first sector in place has a write in flight
    /// and isn't flagged, all cached sectors are gone through.
    pub fn next_issuable(&self) -> Option<Sector>
        ensures { (c : Core) → IsIssuing c self.now → IsOneThat (λ sector. is_issuable c self.now.server.id sector (writes c self.now.server.id)) result }
    {
        // Each sector is cached once.
        let _cover = self.server.cache().cover(Sector(0));
        if let Some(sector) = self.next_of_log() {
            return Some(sector);
        }
        if let Some(sector) = self.next_in_place() {
            return Some(sector);
        }
        self.next_of_recovery()
    }

    /// A sector of which it may issue a write. `None` exactly where there is none. It takes as long as `next_issuable`.
    pub fn next_issue(&self) -> Option<Sector>
        ensures { (c : Core) → IsIssuing c self.now → IsOneThat (λ sector. may_issue c self.now.server.id sector (writes c self.now.server.id)) result }
    {
        if self.is_at_last() {
            return None;
        }
        self.next_issuable()
    }

    /// Whether some issue of it is held back only because it would be the k-th. It takes as long as `next_issuable` where it is armed to die at the next one.
    pub fn is_held_back(&self) -> bool
        ensures { (c : Core) → IsIssuing c self.now → result ≡ is_held_back c self.now.server.id (writes c self.now.server.id) }
    {
        // It is one of the servers.
        let _server = self.server;
        self.is_at_last() && self.next_issuable().is_some()
    }
}
