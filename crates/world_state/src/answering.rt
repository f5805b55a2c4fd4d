// What the answer to a line does that goes by no plan: Answer.
ghost use Rattle.std.specs.Prelude.{◌≡◌, ◌≤◌, ◌<◌, IfOk, IsSomeAnd, None, OnOk, Some, true};
ghost use Rattle.std.specs.Option.{option_map};
ghost use Rattle.frang_base.specs.Functions.{put};
ghost use Rattle.frang_base.specs.declared.limits.TheConstants.{LAST_TICK, SERVERS};
ghost use Rattle.tree_definitions.specs.Touched.{is_ok};
ghost use Rattle.ring_definitions.specs.Rings.{ring_at};
ghost use Rattle.core_definitions.specs.Cores.{due_at};
ghost use Rattle.core_definitions.specs.LineEffects.{answered};
ghost use Rattle.core_definitions.specs.Logs.{end_of};
ghost use Rattle.core_definitions.specs.Scripts.{next_line};
ghost use Rattle.core_definitions.specs.Settings.{disk_logs};
ghost use Rattle.server_core.specs.Phases.{reply_of};
ghost use Rattle.server_core.specs.States.{ring_in};
ghost use Rattle.world_definitions.specs.Worlds.{marks_of};
ghost use Rattle.world_parties.specs.States.{AreAmong, Becomes, Keeps, server_of, servers_at};
ghost use Rattle.world_state.specs.AnswerEffects.{MayHave, effect_of, effect_under, fixed_effect, locks_after, mounted_at, open_effect, recovery_left, server_after};
ghost use Rattle.world_state.specs.Rooms.{IsMountRing, IsNextLine};
ghost use Rattle.world_state.specs.States.{core_at};

use crate::world::World;
use flight_laws::the_mounts_writes_are_the_cores;
use frang_base::limits::LOG_SECTORS;
use frang_base::{NoMemory, Op, ServerId};
use known_locks::KnownLocks;
use script_places::Places;
use server_core::{Arming, PlainAnswer, Under, is_unmount};
use wal_ring::Ring;
use world_parties::{Parties, Party};

/// Behind this number no log goes on.
const RING_ENDS_END: u64 = 1 << 62;

/// What the answer to a line does beside ending it.
#[derive(Clone, Copy)]
pub(crate) enum Effect {
    Nothing,
    /// The server owes nothing any more.
    OwesNothing,
    /// Its mount begins.
    Mounts,
    /// Its mount ends well.
    Unmounts,
    /// It is armed to die.
    Arms(Arming),
    /// It is stalled.
    Stalls,
}

// ---- which it is

// Whether it is `ok`.
fn is_ok(answer: PlainAnswer) -> bool
    ensures { result ≡ is_ok (reply_of answer) }
{
    match answer {
        PlainAnswer::Ok => true,
        PlainAnswer::Mounted => false,
        PlainAnswer::Already => false,
        PlainAnswer::Down => false,
        PlainAnswer::Expired => false,
        PlainAnswer::Io => false,
    }
}

// Of an answer that was fixed.
fn fixed_effect(operation: &Op, answer: PlainAnswer) -> Effect
    ensures { result ≡ fixed_effect operation.now answer }
{
    if is_unmount(operation) && is_ok(answer) {
        Effect::OwesNothing
    } else {
        Effect::Nothing
    }
}

// Of an answer to a mount that was open.
fn mount_effect(answer: PlainAnswer) -> Effect
    ensures { result ≡ open_effect Op.Mount answer }
{
    match answer {
        PlainAnswer::Mounted => Effect::Mounts,
        PlainAnswer::Ok => Effect::Nothing,
        PlainAnswer::Already => Effect::Nothing,
        PlainAnswer::Down => Effect::Nothing,
        PlainAnswer::Expired => Effect::Nothing,
        PlainAnswer::Io => Effect::Nothing,
    }
}

// Of an answer that was open.
fn open_effect(operation: &Op, answer: PlainAnswer) -> Effect
    ensures { result ≡ open_effect operation.now answer }
{
    match operation {
        Op::Mount => mount_effect(answer),
        Op::Unmount => Effect::Unmounts,
        Op::CrashAt { k } => Effect::Arms(Arming { k: *k, cuts: false }),
        Op::CutAt { k } => Effect::Arms(Arming { k: *k, cuts: true }),
        Op::Stall => Effect::Stalls,
        _ => Effect::Nothing,
    }
}

// Of an answer to a line under way, where it is a server's.
fn effect_of(under: &Under, answer: PlainAnswer) -> Option<Effect>
    ensures { result ≡ effect_of under.now.under answer }
{
    match under.operation() {
        Some(operation) => Some(if under.is_open() {
            open_effect(operation, answer)
        } else {
            fixed_effect(operation, answer)
        }),
        None => None,
    }
}

// ---- of a server

// A mount begins, over this ring.
fn mount(party: &mut Party, ring: Option<Ring>, now: u64)
    requires ring { MayHave Effect.Mounts ring (server_of party.old) }
    requires clock { now ≤ LAST_TICK }
    ensures server { server_of party.new ≡ mounted_at now (ring_in ring) }
    ensures id { party.new.server.id ≡ party.old.server.id }
    ensures flags { AreAmong party.new.server.flying party.old.server.flying }
    ensures recovery { party.new.recovery ≡ None }
{
    match ring {
        Some(ring) => {
            party.recovery = None;
            party.server.mount(ring, now);
        }
        None => unreachable!(),
    }
}

// A mount ends well.
fn unmount(party: &mut Party)
    ensures server { server_of party.new ≡ server_after Effect.Unmounts 0 (ring_at 0) (server_of party.old) }
    ensures id { party.new.server.id ≡ party.old.server.id }
    ensures flags { AreAmong party.new.server.flying party.old.server.flying }
    ensures recovery { party.new.recovery ≡ None }
{
    party.recovery = None;
    party.server.turn_off();
}

// The effect of an answer.
fn carry_out(party: &mut Party, effect: Effect, ring: Option<Ring>, now: u64)
    requires may { MayHave effect ring (server_of party.old) }
    requires clock { now ≤ LAST_TICK }
    ensures server { server_of party.new ≡ server_after effect now (ring_in ring) (server_of party.old) }
    ensures id { party.new.server.id ≡ party.old.server.id }
    ensures flags { AreAmong party.new.server.flying party.old.server.flying }
    ensures recovery { party.new.recovery ≡ recovery_left effect party.old.recovery }
{
    match effect {
        Effect::Nothing => {}
        Effect::OwesNothing => party.server.owe_nothing(),
        Effect::Mounts => mount(party, ring, now),
        Effect::Unmounts => unmount(party),
        Effect::Arms(arming) => party.server.arm(arming),
        Effect::Stalls => party.server.stall(),
    }
}

// ---- of the parties, the locks and the script

// The line under way of a server ends, with this effect.
fn end_line(parties: &mut Parties, a: ServerId, effect: Effect, ring: Option<Ring>, now: u64)
    requires server { a.0 < SERVERS }
    requires may { MayHave effect ring (servers_at parties.old a.0) }
    requires clock { now ≤ LAST_TICK }
    ensures becomes { Becomes parties.old parties.new a.0 (record (server_after effect now (ring_in ring) (servers_at parties.old a.0)) { under = None }) }
    ensures keeps { Keeps parties.old parties.new }
{
    let mut party = parties.take(a);
    carry_out(&mut party, effect, ring, now);
    party.server.end_line();
    party.forget();
    parties.put(a, party);
}

// With an unmount the locks are given back.
fn give_back(locks: &mut KnownLocks, a: ServerId, effect: Effect)
    ensures { locks.new.locks ≡ locks_after effect locks.old.locks a.0 }
{
    match effect {
        Effect::Unmounts => locks.clear(a),
        Effect::Nothing => {}
        Effect::OwesNothing => {}
        Effect::Mounts => {}
        Effect::Arms(_) => {}
        Effect::Stalls => {}
    }
}

// The next line of a party, which has this number, is answered.
fn answer_line(places: &mut Places, who: ServerId, number: u32)
    requires { IsSomeAnd (next_line places.old.script (marks_of places.old.answered) who.0) (λ line. line.number ≡ number) }
    ensures script { places.new.script ≡ places.old.script }
    ensures answered { marks_of places.new.answered ≡ put (marks_of places.old.answered) number true }
    ensures passed { places.new.passed ≡ places.old.passed }
{
    // It has its marks.
    let _next = places.next(who);
    places.answer(who, number);
}

// ---- the world

impl World {
    /// The answer that is due of a server, but to a line over paths. `None` exactly where none is.
    pub fn due(&self, a: ServerId) -> Option<PlainAnswer>
        requires { a.0 < SERVERS }
        ensures { option_map reply_of result ≡ due_at (core_at self.now) a.0 }
    {
        the_mounts_writes_are_the_cores();
        let flies = self.flights.has_flights(a);
        self.parties.due(a, flies)
    }

    // A ring that goes on behind the log that the line under way of a server has read. Want of memory comes also where there is none, or its number isn't one at which a ring may begin.
    fn ring_behind(&self, a: ServerId) -> Result<Ring, NoMemory>
        requires { a.0 < SERVERS }
        ensures { IfOk result (λ ring. IsSomeAnd ((core_at self.now).servers a.0).under (λ under. ring.ring ≡ ring_at (end_of disk_logs under.slots))) }
    {
        match self.parties.get(a).server.under() {
            Some(under) => {
                let end = under.end(self.alloc)?;
                if end < LOG_SECTORS - 1 || end >= RING_ENDS_END {
                    return Err(NoMemory);
                }
                Ring::at(self.alloc, end)
            }
            None => Err(NoMemory),
        }
    }

    // The ring of an answer.
    fn ring_for(&self, a: ServerId, answer: PlainAnswer) -> Result<Option<Ring>, NoMemory>
        requires { a.0 < SERVERS }
        ensures { IfOk result (λ ring. IsMountRing self.now a.0 answer ring) }
    {
        match answer {
            PlainAnswer::Mounted => Ok(Some(self.ring_behind(a)?)),
            PlainAnswer::Ok => Ok(None),
            PlainAnswer::Already => Ok(None),
            PlainAnswer::Down => Ok(None),
            PlainAnswer::Expired => Ok(None),
            PlainAnswer::Io => Ok(None),
        }
    }

    /// The ring of a mount that is answered `mounted`, and none with another answer. Want of memory comes also where the answer couldn't be given: a log doesn't end in its numbers below
    /// 2^62, or the line under way isn't its server's next.
    pub fn ready_answer(&self, a: ServerId, answer: PlainAnswer) -> Result<Option<Ring>, NoMemory>
        requires { a.0 < SERVERS }
        ensures ring { IfOk result (λ ring. IsMountRing self.now a.0 answer ring) }
        ensures next { OnOk result (IsNextLine self.now a.0) }
    {
        if !self.is_next_line(a) {
            return Err(NoMemory);
        }
        self.ring_for(a, answer)
    }

    // What an answer to the line under way of a server does, where it is a server's line.
    fn effect(&self, a: ServerId, answer: PlainAnswer) -> Option<Effect>
        requires { a.0 < SERVERS }
        ensures { result ≡ effect_under ((core_at self.now).servers a.0).under answer }
    {
        match self.parties.get(a).server.under() {
            Some(under) => effect_of(under, answer),
            None => None,
        }
    }

    /// Answer: the line under way of a server is answered as is due, and is gone; the phase or the arming changes, with a mount over the ring that was made ready for it, and with an
    /// unmount that was open the locks are given back. A plan that is kept isn't kept any more.
    pub fn answer(&mut self, a: ServerId, answer: PlainAnswer, ring: Option<Ring>)
        requires server { a.0 < SERVERS }
        requires due { Some (reply_of answer) ≡ due_at (core_at self.old) a.0 }
        requires ring { IsMountRing self.old a.0 answer ring }
        requires next { IsNextLine self.old a.0 }
        ensures { core_at self.new ≡ answered (core_at self.old) a.0 }
    {
        match self.effect(a, answer) {
            Some(effect) => {
                let number = self.parties.get(a).server.line_number();
                answer_line(&mut self.places, a, number);
                end_line(&mut self.parties, a, effect, ring, self.tick);
                give_back(&mut self.locks, a, effect);
            }
            None => {}
        }
    }
}
