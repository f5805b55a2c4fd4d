// What the events of a line do that goes by its plan: Fetch, Again, Clear, Commit.
ghost use Rattle.std.specs.Prelude.{◌≡◌, ◌<◌, IsSomeAnd, OnOk, Option, Some, false, true};
ghost use Rattle.frang_base.specs.declared.limits.TheConstants.{SERVERS};
ghost use Rattle.cache_definitions.specs.Caches.{is_dirty_at};
ghost use Rattle.core_definitions.specs.Cores.{with_server};
ghost use Rattle.core_definitions.specs.LineEffects.{again_by, block_cleared, cached_under, committed, refused_under, slot_read, with_under};
ghost use Rattle.core_definitions.specs.Lines.{Stage};
ghost use Rattle.core_definitions.specs.Plans as plans;
ghost use Rattle.core_definitions.specs.Settings.{disk_logs};
ghost use Rattle.core_definitions.specs.Servers.{is_in_mount};
ghost use Rattle.flight_laws.specs.Flights.{moved_all};
ghost use Rattle.kept_plans.specs.Outcomes.{IsOutcomeOf};
ghost use Rattle.server_core.specs.Outcomes.{MayCommit, moves_of};
ghost use Rattle.server_core.specs.States as server;
ghost use Rattle.line_stages.specs.Agains.{IsAgain, IsFirstWhereAnew};
ghost use Rattle.line_stages.specs.Stages.{ComesTo, EndComesTo};
ghost use Rattle.server_core.specs.Effects.{IsSlot};
ghost use Rattle.world_parties.specs.States.{plan_at};
ghost use Rattle.world_state.specs.Rooms.{HasClearRoom, HasCommitRoom, HasFetchRoom, HasSlotRoom, IsNextLine, MayCommitEnd, MayCommitPlan};
ghost use Rattle.world_state.specs.States.{core_at};

use crate::world::World;
use frang_base::{Block, LockId, NoMemory, Reply, Sector, ServerId};
use kept_plans::{KeptEnd, KeptPlan, outcomes_are_committed};
use line_stages::Again;
use petal_disk::Flight;
use server_core::{Outcome, Server};

// ---- Fetch

// Makes room for one more slot that a mount under way reads; where no line is under way there is none.
fn reserve_slot(server: &mut Server) -> Result<(), NoMemory>
    ensures server { server.new.server ≡ server.old.server }
    ensures id { server.new.id ≡ server.old.id }
    ensures flying { server.new.flying ≡ server.old.flying }
    ensures ok { OnOk result (0 < server.new.slots) }
{
    match server.under() {
        Some(_) => server.reserve_slot(),
        None => Err(NoMemory),
    }
}

impl World {
    /// Makes room for one more sector in a server's cache. The core is the same, whatever the answer.
    pub fn ready_fetch(&mut self, a: ServerId) -> Result<(), NoMemory>
        requires { a.0 < SERVERS }
        ensures core { core_at self.new ≡ core_at self.old }
        ensures ok { OnOk result (HasFetchRoom self.new a.0) }
    {
        let mut party = self.parties.take(a);
        let made = party.server.reserve_sectors(1);
        self.parties.put(a, party);
        made
    }

    /// Makes room for one more slot of its log that a server's mount reads. The core is the same, whatever the answer.
    pub fn ready_slot(&mut self, a: ServerId) -> Result<(), NoMemory>
        requires { a.0 < SERVERS }
        ensures core { core_at self.new ≡ core_at self.old }
        ensures ok { OnOk result (HasSlotRoom self.new a.0) }
    {
        let mut party = self.parties.take(a);
        let made = reserve_slot(&mut party.server);
        self.parties.put(a, party);
        made
    }

    /// Fetch: a sector that a server's line needs was read: it is cached, clean and under this lock, which covers it. It isn't dirty before.
    pub fn fetched(&mut self, a: ServerId, sector: Sector, block: &Block, cover: LockId)
        requires server { a.0 < SERVERS }
        requires room { HasFetchRoom self.old a.0 }
        requires clean { is_dirty_at ((core_at self.old).servers a.0).cache sector.0 ≡ false }
        ensures { core_at self.new ≡ with_server (core_at self.old) a.0 (cached_under ((core_at self.old).servers a.0) sector.0 block.now (Some cover)) }
    {
        let mut party = self.parties.take(a);
        party.server.fetched(sector, *block, cover);
        party.forget();
        self.parties.put(a, party);
    }

    /// Fetch: a slot of its own log was read, for a mount under way.
    pub fn slot_read(&mut self, a: ServerId, sector: Sector, block: &Block)
        requires server { a.0 < SERVERS }
        requires slot { IsSlot a.0 sector.0 }
        requires room { HasSlotRoom self.old a.0 }
        ensures { core_at self.new ≡ with_server (core_at self.old) a.0 (with_under ((core_at self.old).servers a.0) (slot_read a.0 sector.0 block.now)) }
    {
        let mut party = self.parties.take(a);
        party.server.slot_read(sector, block);
        party.forget();
        self.parties.put(a, party);
    }

    /// Fetch: a get failed under a mount line, and is kept with it.
    pub fn get_refused(&mut self, a: ServerId)
        requires { a.0 < SERVERS }
        ensures { core_at self.new ≡ with_server (core_at self.old) a.0 (with_under ((core_at self.old).servers a.0) refused_under) }
    {
        let mut party = self.parties.take(a);
        party.server.get_refused();
        party.forget();
        self.parties.put(a, party);
    }
}

// ---- Again, Clear

// A line goes on with what was made ready for its stage; what is flagged of its server stays.
fn go_on(server: &mut Server, again: Again)
    requires { IsFirstWhereAnew again }
    ensures server { (at : Option Stage) → IsAgain server.old.server at again → server.new.server ≡ again_by disk_logs at server.old.server }
    ensures id { server.new.id ≡ server.old.id }
    ensures flying { server.new.flying ≡ server.old.flying }
{
    match again {
        Again::Anew(first) => server.line_anew(first),
        Again::Grown(set, seen) => server.line_grown(set, seen),
        Again::Reclaim => server.reclaim(),
    }
}

impl World {
    /// Again: a server's line goes on with what was made ready for its stage.
    pub fn again(&mut self, a: ServerId, again: Again)
        requires server { a.0 < SERVERS }
        requires first { IsFirstWhereAnew again }
        ensures { (at : Option Stage) → IsAgain ((core_at self.old).servers a.0) at again → core_at self.new ≡ with_server (core_at self.old) a.0 (again_by disk_logs at ((core_at self.old).servers a.0)) }
    {
        let mut taken = self.parties.take(a);
        go_on(&mut taken.server, again);
        taken.forget();
        self.parties.put(a, taken);
    }

    /// Makes room for one more block that a server clears. The core is the same, whatever the answer.
    pub fn ready_clear(&mut self, a: ServerId) -> Result<(), NoMemory>
        requires { a.0 < SERVERS }
        ensures core { core_at self.new ≡ core_at self.old }
        ensures ok { OnOk result (HasClearRoom self.new a.0) }
    {
        let mut party = self.parties.take(a);
        let made = party.server.reserve_block();
        self.parties.put(a, party);
        made
    }

    /// Clear: eight writes of zeros are wanted.
    pub fn clear(&mut self, a: ServerId, block: u32)
        requires server { a.0 < SERVERS }
        requires room { HasClearRoom self.old a.0 }
        ensures { core_at self.new ≡ block_cleared (core_at self.old) a.0 block }
    {
        let mut party = self.parties.take(a);
        party.server.clear(block);
        party.forget();
        self.parties.put(a, party);
    }
}

// ---- Commit

// The outcome of a finished line.
fn outcome_at(end: KeptEnd) -> Option<Outcome>
    ensures comes { (of_core : plans.Outcome) → EndComesTo end of_core → IsSomeAnd result (λ outcome. IsOutcomeOf outcome of_core) }
    ensures may { (state : server.State) → MayCommitEnd state end → IsSomeAnd result (MayCommit state) }
{
    match end {
        KeptEnd::Done(done) => Some(done.outcome),
        KeptEnd::Need { .. } => None,
        KeptEnd::Segments => None,
        KeptEnd::Clear { .. } => None,
    }
}

// The outcome of a kept plan, which is of a finished line.
fn outcome_in(plan: Option<KeptPlan>) -> Option<Outcome>
    ensures comes { (of_core : plans.Outcome) → ComesTo plan of_core → IsSomeAnd result (λ outcome. IsOutcomeOf outcome of_core) }
    ensures may { (state : server.State) → MayCommitPlan state plan → IsSomeAnd result (MayCommit state) }
{
    match plan {
        Some(KeptPlan::Planned(plan)) => outcome_at(plan.end),
        Some(KeptPlan::Moved) => None,
        None => None,
    }
}

// Makes room for the commit of a kept plan, which is of a finished line.
fn reserve_outcome(server: &mut Server, plan: &Option<KeptPlan>) -> Result<(), NoMemory>
    requires { is_in_mount server.old.server.phase ≡ true }
    ensures server { server.new.server ≡ server.old.server }
    ensures id { server.new.id ≡ server.old.id }
    ensures flying { server.new.flying ≡ server.old.flying }
    ensures ok { OnOk result (MayCommitPlan server.new plan.now) }
{
    match plan {
        Some(KeptPlan::Planned(plan)) => match &plan.end {
            KeptEnd::Done(done) => server.reserve_commit(&done.outcome),
            KeptEnd::Need { .. } => Err(NoMemory),
            KeptEnd::Segments => Err(NoMemory),
            KeptEnd::Clear { .. } => Err(NoMemory),
        },
        Some(KeptPlan::Moved) => Err(NoMemory),
        None => Err(NoMemory),
    }
}

// Sector after sector, a server's write of it in place comes under its new lock.
fn move_covers(flights: &mut Flight, a: ServerId, moves: &[(Sector, LockId)])
    ensures flying { flights.new.flying ≡ moved_all a.0 (moves_of moves.now) flights.old.flying }
    ensures next { flights.new.next ≡ flights.old.next }
{
    for one in moves {
        flights.move_cover(a, one.0, one.1);
    }
}

impl World {
    // Whether the line under way of a server is its next.
    pub(crate) fn is_next_line(&self, a: ServerId) -> bool
        requires { a.0 < SERVERS }
        ensures { result ≡ true → IsNextLine self.now a.0 }
    {
        let number = self.parties.get(a).server.line_number();
        match self.next_line(a) {
            Some(line) => line.number == number,
            None => false,
        }
    }

    /// Makes room for the commit of a server's line, of which a plan is kept that has it finished. The core is the same, whatever the answer. Want of memory comes also where the commit
    /// couldn't be carried out: no plan of a finished line is kept, its record or a change doesn't fit what the log and the cache have, or the line isn't its server's next.
    pub fn ready_commit(&mut self, a: ServerId) -> Result<(), NoMemory>
        requires server { a.0 < SERVERS }
        requires mounted { is_in_mount ((core_at self.old).servers a.0).phase ≡ true }
        ensures core { core_at self.new ≡ core_at self.old }
        ensures ok { OnOk result (HasCommitRoom self.new a.0) }
    {
        if !self.is_next_line(a) {
            return Err(NoMemory);
        }
        let mut party = self.parties.take(a);
        let made = reserve_outcome(&mut party.server, &party.plan);
        self.parties.put(a, party);
        made
    }

    /// Commit: changes, record and answer at once, as the kept plan has them. It answers the line's reply.
    pub fn commit(&mut self, a: ServerId) -> Reply
        requires server { a.0 < SERVERS }
        requires room { HasCommitRoom self.old a.0 }
        ensures core { (of_core : plans.Outcome) → ComesTo (plan_at self.old.parties a.0) of_core → core_at self.new ≡ committed (core_at self.old) a.0 of_core }
        ensures reply { (of_core : plans.Outcome) → ComesTo (plan_at self.old.parties a.0) of_core → result ≡ of_core.reply }
    {
        outcomes_are_committed();
        let _next = self.places.next(a);
        let mut party = self.parties.take(a);
        let number = party.server.line_number();
        match outcome_in(party.plan.take()) {
            Some(outcome) => {
                move_covers(&mut self.flights, a, &outcome.moves);
                let reply = party.server.commit(outcome);
                party.forget();
                self.parties.put(a, party);
                self.places.answer(a, number);
                reply
            }
            None => unreachable!(),
        }
    }
}
