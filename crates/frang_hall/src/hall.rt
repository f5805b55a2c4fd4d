// A machine together with its outside.
ghost use Rattle.std.specs.Prelude.{◌≡◌, ◌<◌, ℕ, false, true, None, Some, IfSome};
ghost use Rattle.frang_base.specs.declared.limits.TheConstants.{SERVERS};
ghost use Rattle.core_definitions.specs.Guards.{Can};
ghost use Rattle.core_definitions.specs.Runs.{State as RunMoment};
ghost use Rattle.hall_runs.specs.declared.event.Call.TheVariants as call;
ghost use Rattle.hall_runs.specs.Asking.{event_of};
ghost use Rattle.hall_runs.specs.Gates.{IsToEnter, IsToGive, NoLineToGive, line_to_give};
ghost use Rattle.hall_runs.specs.Keeping.{Kept};
ghost use Rattle.hall_runs.specs.Outsets.{first_of};
ghost use Rattle.hall_runs.specs.Turning.{Entered, Turned, after_event, after_failed, turn_of};
ghost use Rattle.frang_hall.specs.Halls.{Made, Seen, given_after};
ghost use Rattle.frang_hall.specs.Machines.{AsksSo, Drawn, IsDrawn, Listed};

use crate::machine::Machine;
use crate::name::Naming;
use core_laws::{each_call_is_answered, the_record_has_each_call};
use frang_base::limits::SERVERS;
use frang_base::{NoMemory, Sector, ServerId, Text};
use frang_outside::{Failed, Outside, SayFault};
use hall_runs::{Call, End, Event, Heard, Turn};
use petal_disk::{Arrived, Ticket};
use std::marker::{Model, PhantomData};

/// A core and its outside, and how far the run has come.
pub struct Hall<M: Machine, O: Outside, N: Naming> {
    world: M,
    out: O,
    over: Option<End>,
    said: u64,
    // The last line of each server that was given to the gate.
    given: [u32; SERVERS],
    name: PhantomData<N>,
}

impl<M: Machine, O: Outside, N: Naming> Model for Hall<M, O, N> {
    ghost use Rattle.hall_runs.specs.Keeping.{Kept};
    ghost use Rattle.frang_hall.specs.Halls.{Seen};

    ghost Value = { Seen M O };

    ghost view = { λ h. record { world = h.world; out = h.out; over = h.over; said = h.said; given = h.given } };

    ghost invariant = { λ h. Kept (M.stands h.world) N.outset h.over h.said (O.state h.out) };
}

impl<M: Machine, O: Outside, N: Naming> Hall<M, O, N> {
    /// A hall whose run has not begun.
    pub fn new(world: M, out: O) -> Self
        requires outset { N.outset.outside ≡ O.state out }
        requires first { M.stands world (first_of N.outset) }
        ensures world { result.world ≡ world }
        ensures out { result.out ≡ out }
        ensures over { result.over ≡ None }
        ensures said { result.said ≡ 0 }
    {
        Hall {
            world,
            out,
            over: None,
            said: 0,
            given: [0; SERVERS],
            name: PhantomData,
        }
    }

    /// What its type keeps.
    pub fn shows(&self)
        ensures { Kept (M.stands self.now.world) N.outset self.now.over self.now.said (O.state self.now.out) }
    {
        let _over = &self.over;
    }

    /// Why it is over, where it is.
    pub fn over(&self) -> Option<End>
        ensures { result ≡ self.now.over }
    {
        self.over
    }

    /// How many lines it said.
    pub fn said(&self) -> u64
        ensures { result ≡ self.now.said }
    {
        self.said
    }

    /// The machine that it turns.
    pub fn machine(&self) -> &M
        ensures { result.now ≡ self.now.world }
    {
        &self.world
    }

    /// Gives the outside back.
    pub fn outside(self) -> O
        ensures { result ≡ self.out }
    {
        let Hall {
            world: _world,
            out,
            over: _,
            said: _,
            given: _,
            name: _,
        } = self;
        out
    }

    /// Makes at most one event: any that is enabled, of the worker's own server where the machine can.
    pub fn turn(&mut self, worker: u8) -> Result<Turn, NoMemory>
        ensures turned { Turned Can (M.stands self.old.world) (M.stands self.new.world) N.outset self.old.given worker self.old.over self.old.said (O.state self.old.out) self.new.over self.new.said (O.state self.new.out) result }
        ensures given { self.new.given ≡ given_after self.old.given result }
    {
        if let Some(end) = self.over {
            return Ok(turn_of(end));
        }
        if let Some((server, line)) = self.to_give(worker) {
            self.given[usize::from(server)] = line;
            return Ok(Turn::Gate {
                server: ServerId(server),
                line,
            });
        }
        match self.world.pick(worker) {
            Err(NoMemory) => Err(NoMemory),
            Ok(None) => Ok(Turn::Idle),
            Ok(Some(event)) => self.make(&event),
        }
    }

    /// The same for a single worker, with the event at the place of this draw among those enabled.
    pub fn turn_drawn(&mut self, draw: u64) -> Result<Turn, NoMemory>
        ensures turned { Turned (IsDrawn draw) (M.stands self.old.world) (M.stands self.new.world) N.outset self.old.given 0 self.old.over self.old.said (O.state self.old.out) self.new.over self.new.said (O.state self.new.out) result }
        ensures given { self.new.given ≡ given_after self.old.given result }
    {
        if let Some(end) = self.over {
            return Ok(turn_of(end));
        }
        if let Some((server, line)) = self.to_give(0) {
            self.given[usize::from(server)] = line;
            return Ok(Turn::Gate {
                server: ServerId(server),
                line,
            });
        }
        match self.world.pick_drawn(draw) {
            Err(NoMemory) => Err(NoMemory),
            Ok(None) => Ok(Turn::Idle),
            Ok(Some(event)) => self.make(&event),
        }
    }

    // The line that is to be given to the gate next, and its server.
    fn to_give(&self, worker: u8) -> Option<(u8, u32)>
        ensures some { IfSome result (λ found. (r : RunMoment) → M.stands self.now.world r → IsToGive r.core self.now.given worker found.0 found.1) }
        ensures server { IfSome result (λ found. found.0 < SERVERS) }
        ensures none { result ≡ None → (r : RunMoment) → M.stands self.now.world r → NoLineToGive r.core self.now.given }
    {
        if let Some(line) = self.line_to_give(worker) {
            return Some((worker, line));
        }
        for server in 0..SERVERS as u8 {
            if let Some(line) = self.line_to_give(server) {
                return Some((server, line));
            }
        }
        None
    }

    // The server's line that only the gate keeps from beginning and that wasn't given yet.
    fn line_to_give(&self, server: u8) -> Option<u32>
        ensures below { IfSome result (λ _. server < SERVERS) }
        ensures at { (r : RunMoment) → M.stands self.now.world r → result ≡ line_to_give r.core self.now.given server }
    {
        let last = *self.given.get(usize::from(server))?;
        let line = self.world.at_gate(server)?;
        if line == last { None } else { Some(line) }
    }

    /// The line has passed the gate, where it was given and hadn't; else nothing changes.
    pub fn entered(&mut self, line: u32)
        ensures entered { Entered (M.stands self.old.world) (M.stands self.new.world) N.outset self.old.given line self.old.over self.old.said (O.state self.old.out) }
        ensures same { self.new ≡ record self.old { world = self.new.world } }
    {
        if let Some(server) = self.server_of(line) {
            self.world.enter(server);
        }
    }

    // The server of which this line was given and hasn't passed the gate yet.
    fn server_of(&self, line: u32) -> Option<u8>
        ensures some { IfSome result (λ server. (r : RunMoment) → M.stands self.now.world r → IsToEnter r.core self.now.given line server) }
        ensures none { result ≡ None → (r : RunMoment) → M.stands self.now.world r → (a : ℕ) → IsToEnter r.core self.now.given line a → ⊥ }
    {
        for server in 0..SERVERS as u8 {
            if self.is_to_enter(server, line) {
                return Some(server);
            }
        }
        None
    }

    fn is_to_enter(&self, server: u8, line: u32) -> bool
        ensures yes { result ≡ true → (r : RunMoment) → M.stands self.now.world r → IsToEnter r.core self.now.given line server }
        ensures no { result ≡ false → (r : RunMoment) → M.stands self.now.world r → IsToEnter r.core self.now.given line server → ⊥ }
    {
        self.given.get(usize::from(server)) == Some(&line)
            && self.world.to_enter(server) == Some(line)
    }

    // Makes an event.
    fn make(&mut self, event: &Event) -> Result<Turn, NoMemory>
        requires over { self.old.over ≡ None }
        requires listed { Listed (M.stands self.old.world) event.now }
        ensures made { Made (M.stands self.old.world) (M.stands self.new.world) N.outset (event_of event.now) self.old.said (O.state self.old.out) self.new.over self.new.said (O.state self.new.out) result }
        ensures given { self.new.given ≡ self.old.given }
    {
        match self.world.ready(event) {
            Err(NoMemory) => Err(NoMemory),
            Ok(Call::Nothing) => self.do_nothing(event),
            Ok(Call::Get(party, sector)) => self.do_get(event, party, sector),
            Ok(Call::Put(ticket, party, sector)) => self.do_put(event, ticket, party, sector),
            Ok(Call::Say(text)) => self.do_say(event, &text),
        }
    }

    // Makes an event that asks nothing of the outside.
    fn do_nothing(&mut self, event: &Event) -> Result<Turn, NoMemory>
        requires over { self.old.over ≡ None }
        requires asks { AsksSo (M.stands self.old.world) event.now call.Nothing }
        requires room { M.has_room self.old.world (event_of event.now) }
        ensures made { Made (M.stands self.old.world) (M.stands self.new.world) N.outset (event_of event.now) self.old.said (O.state self.old.out) self.new.over self.new.said (O.state self.new.out) result }
        ensures given { self.new.given ≡ self.old.given }
    {
        each_call_is_answered();
        the_record_has_each_call();
        self.world.step(event, &Heard::Nothing);
        let (over, turn) = after_event(self.world.is_over());
        self.over = over;
        Ok(turn)
    }

    // Makes an event that gets a sector.
    fn do_get(&mut self, event: &Event, party: ServerId, sector: Sector) -> Result<Turn, NoMemory>
        requires over { self.old.over ≡ None }
        requires asks { AsksSo (M.stands self.old.world) event.now (call.Get party sector) }
        requires room { M.has_room self.old.world (event_of event.now) }
        ensures made { Made (M.stands self.old.world) (M.stands self.new.world) N.outset (event_of event.now) self.old.said (O.state self.old.out) self.new.over self.new.said (O.state self.new.out) result }
        ensures given { self.new.given ≡ self.old.given }
    {
        each_call_is_answered();
        the_record_has_each_call();
        match self.out.get(party, sector) {
            Ok(block) => {
                self.world.step(event, &Heard::Got(block));
                let (over, turn) = after_event(self.world.is_over());
                self.over = over;
                Ok(turn)
            }
            Err(Failed) => {
                self.world.step(event, &Heard::GetFailed);
                let (over, turn) = after_failed(party, sector, self.world.is_over());
                self.over = over;
                Ok(turn)
            }
        }
    }

    // Makes the event of a write's arrival.
    fn do_put(
        &mut self,
        event: &Event,
        ticket: Ticket,
        party: ServerId,
        sector: Sector,
    ) -> Result<Turn, NoMemory>
        requires over { self.old.over ≡ None }
        requires asks { AsksSo (M.stands self.old.world) event.now (call.Put ticket party sector) }
        requires room { M.has_room self.old.world (event_of event.now) }
        ensures made { Made (M.stands self.old.world) (M.stands self.new.world) N.outset (event_of event.now) self.old.said (O.state self.old.out) self.new.over self.new.said (O.state self.new.out) result }
        ensures given { self.new.given ≡ self.old.given }
    {
        each_call_is_answered();
        the_record_has_each_call();
        match self.world.arrive(ticket, &mut self.out) {
            Arrived::NoMemory => Err(NoMemory),
            Arrived::Failed => {
                let (over, turn) = after_failed(party, sector, self.world.is_over());
                self.over = over;
                Ok(turn)
            }
            Arrived::Written => {
                let (over, turn) = after_event(self.world.is_over());
                self.over = over;
                Ok(turn)
            }
            Arrived::Late { .. } => {
                let (over, turn) = after_event(self.world.is_over());
                self.over = over;
                Ok(turn)
            }
        }
    }

    // Makes an event that says a line.
    fn do_say(&mut self, event: &Event, text: &Text) -> Result<Turn, NoMemory>
        requires over { self.old.over ≡ None }
        requires asks { AsksSo (M.stands self.old.world) event.now (call.Say text.now) }
        requires room { M.has_room self.old.world (event_of event.now) }
        ensures made { Made (M.stands self.old.world) (M.stands self.new.world) N.outset (event_of event.now) self.old.said (O.state self.old.out) self.new.over self.new.said (O.state self.new.out) result }
        ensures given { self.new.given ≡ self.old.given }
    {
        each_call_is_answered();
        the_record_has_each_call();
        if self.said == u64::MAX {
            return Err(NoMemory);
        }
        match self.out.say(text.as_slice()) {
            Ok(()) => {
                self.world.step(event, &Heard::Nothing);
                self.said += 1;
                let (over, turn) = after_event(self.world.is_over());
                self.over = over;
                Ok(turn)
            }
            Err(SayFault::Failed) => {
                self.over = Some(End::Mute);
                Ok(Turn::Mute)
            }
            Err(SayFault::NoMemory) => Err(NoMemory),
        }
    }
}

fn turn_of(end: End) -> Turn
    ensures { result ≡ turn_of end }
{
    match end {
        End::Ended => Turn::Ended,
        End::Mute => Turn::Mute,
        End::Fault(sector) => Turn::Fault { sector },
    }
}

fn after_event(over: bool) -> (Option<End>, Turn)
    ensures { result ≡ after_event over }
{
    if over {
        (Some(End::Ended), Turn::Ended)
    } else {
        (None, Turn::Did)
    }
}

fn after_failed(party: ServerId, sector: Sector, over: bool) -> (Option<End>, Turn)
    ensures { result ≡ after_failed party sector over }
{
    if party == ServerId::HOST {
        (Some(End::Fault(sector)), Turn::Fault { sector })
    } else {
        after_event(over)
    }
}
