// Which writes it may issue next, and when it may be doomed: Issue, Doom.
ghost use Rattle.std.specs.Prelude.{◌≡◌};
ghost use Rattle.std.specs.Option.{option_map};
ghost use Rattle.log_slots.specs.Reading.{log_rules};
ghost use Rattle.core_definitions.specs.Cores.{writes};
ghost use Rattle.core_definitions.specs.WriteEffects.{fate_of};
ghost use Rattle.core_definitions.specs.WriteGuards.{may_doom, may_issue};
ghost use Rattle.core_definitions.specs.Writes.{lacks_room};
ghost use Rattle.server_core.specs.Phases as phases;
ghost use Rattle.server_issues.specs.Issuing.{IsIssuing, IsOneThat, issuable_write, write_of};
ghost use Rattle.world_asks.specs.Asking.{IsPartyOf, core_of, stage_in};
ghost use Rattle.world_parties.specs.declared.party.Party.{Party};

use crate::asking::Asking;
use frang_base::Sector;
use line_stages::{lacks_room, room_wanted};
use server_core::Fate;
use server_issues::{Issuer, WantedWrite};

impl<'a> Asking<'a> {
    // Whether its line waits for room in its log.
    fn lacks_room(&self) -> bool
        ensures { (party : Party) → IsPartyOf self.now party → result ≡ lacks_room log_rules party.server.server.ring (stage_in self.now) }
    {
        let party = self.party();
        party.server.is_up() && lacks_room(self.stage(), &party.server, &party.plan)
    }

    /// The server as it may issue writes.
    pub fn issuer(&self) -> Issuer<'a>
        ensures number { result.server.id ≡ self.now.number }
        ensures issuing { IsIssuing (core_of self.now) result }
    {
        let world = self.world();
        let party = self.party();
        let lacks = self.lacks_room();
        Issuer::new(
            &party.server,
            party.recovery.as_ref(),
            world.locks(),
            world.flights(),
            world.now(),
            lacks,
            room_wanted(lacks, self.oldest()),
        )
    }

    /// The write of a sector that it may issue, its arming left aside. `None` exactly where it may not issue one.
    pub fn write(&self, sector: Sector) -> Option<WantedWrite>
        ensures { option_map write_of result ≡ issuable_write (core_of self.now) self.now.number sector.0 }
    {
        self.issuer().write(sector)
    }

    /// Whether it may issue a write of a sector.
    pub fn may_issue(&self, sector: Sector) -> bool
        ensures { result ≡ may_issue (core_of self.now) self.now.number sector.0 (writes (core_of self.now) self.now.number) }
    {
        self.issuer().may_issue(sector)
    }

    /// A sector of which it may issue a write. `None` exactly where there is none. It takes as long as `next_issue` of the issuer.
    pub fn next_issue(&self) -> Option<Sector>
        ensures { IsOneThat (λ sector. may_issue (core_of self.now) self.now.number sector (writes (core_of self.now) self.now.number)) result }
    {
        self.issuer().next_issue()
    }

    /// Whether it may be doomed.
    pub fn may_doom(&self) -> bool
        ensures { result ≡ may_doom (core_of self.now) self.now.number (writes (core_of self.now) self.now.number) }
    {
        self.issuer().may_doom()
    }

    /// What its doom settles.
    pub fn fate(&self) -> Fate
        ensures { phases.fate_of result ≡ fate_of (core_of self.now) self.now.number }
    {
        self.issuer().fate()
    }
}
