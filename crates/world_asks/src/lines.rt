// What may happen next of a line over paths, and which answer is due: Ask, Again, Clear, Commit, Answer.
ghost use Rattle.std.specs.Prelude.{◌≡◌};
ghost use Rattle.std.specs.Option.{option_map};
ghost use Rattle.core_definitions.specs.Cores.{due_at};
ghost use Rattle.core_definitions.specs.LineGuards.{may_again, may_answer, may_commit};
ghost use Rattle.line_stages.specs.Stages.{asked_next, cleared_next};
ghost use Rattle.server_core.specs.Phases.{reply_of};
ghost use Rattle.world_asks.specs.Asking.{core_of, stage_in};

use crate::asking::Asking;
use flight_laws::the_mounts_writes_are_the_cores;
use frang_base::{LockId, Mode};
use line_stages::{asked_next, cleared_next, may_commit, must_again};
use server_core::PlainAnswer;

impl<'a> Asking<'a> {
    /// The lock for which its line asks next: the least of its set that lacks, where its wish isn't noted in this mode or no holder conflicts. `None` exactly where it asks for none.
    pub fn asked_next(&self) -> Option<(LockId, Mode)>
        ensures { result ≡ asked_next (core_of self.now).locks self.now.number (stage_in self.now) }
    {
        asked_next(self.stage(), self.world().locks(), &self.party().server)
    }

    /// Whether its line may go on again: a seen sector has moved, its set grows, or it is finished without room in the log while all that the oldest records of the log name is in place;
    /// and no call of it failed.
    pub fn may_again(&self) -> bool
        ensures { result ≡ may_again (core_of self.now) self.now.number (stage_in self.now) }
    {
        let party = self.party();
        party.server.is_up()
            && !party.server.has_failed()
            && must_again(self.stage(), &party.server, &party.plan, self.oldest())
    }

    /// The block that its line clears next. `None` exactly where it clears none.
    pub fn cleared_next(&self) -> Option<u32>
        ensures { result ≡ cleared_next (stage_in self.now) }
    {
        // The stage is that of its party.
        let _party = self.party();
        cleared_next(self.stage())
    }

    /// Whether its line may be committed: it is finished, no zeros are pending, and its log has room for the record.
    pub fn may_commit(&self) -> bool
        ensures { result ≡ may_commit (core_of self.now) self.now.number (stage_in self.now) }
    {
        let party = self.party();
        party.server.is_up() && may_commit(self.stage(), &party.server, &party.plan)
    }

    /// The answer that is due of it, but to a line over paths. `None` exactly where none is.
    pub fn due(&self) -> Option<PlainAnswer>
        ensures { option_map reply_of result ≡ due_at (core_of self.now) self.now.number }
    {
        the_mounts_writes_are_the_cores();
        let world = self.world();
        let flies = world.flights().has_flights(self.number());
        world.parties().due(self.number(), flies)
    }

    /// Whether one is.
    pub fn may_answer(&self) -> bool
        ensures { result ≡ may_answer (core_of self.now) self.now.number }
    {
        // It is one of the servers.
        let _number = self.number();
        self.due().is_some()
    }
}
