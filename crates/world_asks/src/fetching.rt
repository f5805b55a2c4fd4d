// Which sectors may be fetched next: those that its line needs, and the slots of its log that its mount hasn't read.
ghost use Rattle.std.specs.Prelude.{◌≡◌};
ghost use Rattle.std.specs.List.{slice_get};
ghost use Rattle.std.specs.Option.{option_map};
ghost use Rattle.core_definitions.specs.LineEffects.{cover_needed};
ghost use Rattle.core_definitions.specs.LineGuards.{needed_by};
ghost use Rattle.server_issues.specs.Issuing.{IsOneThat};
ghost use Rattle.world_asks.specs.Asking.{core_of, stage_in};
ghost use Rattle.world_asks.specs.Fetches.{may_fetch};

use crate::asking::Asking;
use crate::slots::{first_unread, is_unread};
use frang_base::{LockId, Sector};
use line_stages::{cover_needed, first_needed, needs};

impl<'a> Asking<'a> {
    // The first sector that its line needs.
    fn first_needed(&self) -> Option<Sector>
        ensures { option_map (λ sector. sector.0) result ≡ slice_get (needed_by (stage_in self.now)) 0 }
    {
        match first_needed(self.stage(), &self.party().server) {
            Some((sector, _)) => Some(sector),
            None => None,
        }
    }

    /// A sector that it may fetch: its line needs it, or its mount hasn't read it yet. `None` exactly where there is none.
    pub fn first_fetch(&self) -> Option<Sector>
        ensures { IsOneThat (may_fetch (core_of self.now) self.now.number) result }
    {
        let server = &self.party().server;
        if server.is_up() {
            self.first_needed()
        } else {
            first_unread(server)
        }
    }

    /// Whether it may fetch a sector.
    pub fn may_fetch(&self, sector: Sector) -> bool
        ensures { result ≡ may_fetch (core_of self.now) self.now.number sector.0 }
    {
        let server = &self.party().server;
        if server.is_up() {
            needs(self.stage(), server, sector)
        } else {
            is_unread(server, sector)
        }
    }

    /// The lock that covers a sector which its line needs. `None` exactly where its line doesn't need the sector.
    pub fn cover_needed(&self, sector: Sector) -> Option<LockId>
        ensures { result ≡ cover_needed (stage_in self.now) sector.0 }
    {
        cover_needed(self.stage(), &self.party().server, sector)
    }
}
