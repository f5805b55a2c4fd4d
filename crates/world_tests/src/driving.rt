// A world is driven over sectors in memory: an event is taken from the list of all that may happen, made ready, its call made, and the event made by what was heard.
ghost use Rattle.std.specs.Prelude.{◌≡◌};
ghost use Rattle.hall_runs.specs.Asking.{event_of};
ghost use Rattle.frang_world.specs.States.{IsReadyFor};

use frang_base::{LockId, Mode, NoMemory, ServerId};
use frang_outside::{Act, MemOutside, Outside};
use frang_world::{StepFault, World};
use hall_runs::{Call, Event, Heard};
use opening::open_fresh;
use script_lang::read_script;
use script_places::ascends;
use std::alloc::Global;

/// How many kinds of events there are.
pub(crate) const KINDS: usize = 25;

/// A world, the sectors that it stands on, and how often each kind of event was made, by its place in the table of events.
#[derive(Drop)]
pub(crate) struct Driven {
    pub(crate) world: World,
    pub(crate) out: MemOutside,
    pub(crate) made: [u32; KINDS],
}

/// What of an event tells it from others: its kind's place in their table, and the numbers that it names.
pub(crate) type Told = (usize, u64, u64, u64);

fn mode_number(mode: Mode) -> u64 {
    if mode == Mode::Sole { 1 } else { 0 }
}

// A lock's number among all: logs first, then segments, then nodes.
fn lock_number(lock: LockId) -> u64 {
    match lock {
        LockId::Log(server) => u64::from(server),
        LockId::Segment(segment) => (1 << 32) + u64::from(segment),
        LockId::Node(node) => (2 << 32) + u64::from(node),
    }
}

fn party(server: ServerId) -> u64 {
    u64::from(server.0)
}

/// What tells this event from others.
pub(crate) fn told(event: &Event) -> Told {
    match *event {
        Event::Begin(a) => (0, party(a), 0, 0),
        Event::Ask(a, lock, mode) => (1, party(a), lock_number(lock), mode_number(mode)),
        Event::Fetch(a, sector) => (2, party(a), sector.0, 0),
        Event::Again(a) => (3, party(a), 0, 0),
        Event::Clear(a, block) => (4, party(a), u64::from(block), 0),
        Event::Commit(a) => (5, party(a), 0, 0),
        Event::Answer(a) => (6, party(a), 0, 0),
        Event::Give(a, lock) => (7, party(a), lock_number(lock), 0),
        Event::Issue(a, sector) => (8, party(a), sector.0, 0),
        Event::Doom(a) => (9, party(a), 0, 0),
        Event::Resume(a) => (10, party(a), 0, 0),
        Event::Arrive(ticket) => (11, ticket.0, 0, 0),
        Event::Lose(ticket) => (12, ticket.0, 0, 0),
        Event::Die(a) => (13, party(a), 0, 0),
        Event::Renew(a) => (14, party(a), 0, 0),
        Event::Tick => (15, 0, 0, 0),
        Event::Recover(dead, by) => (16, party(dead), party(by), 0),
        Event::Load(by, slot) => (17, party(by), u64::from(slot), 0),
        Event::Look(by, sector) => (18, party(by), sector.0, 0),
        Event::Finish(by) => (19, party(by), 0, 0),
        Event::HostLine(number) => (20, u64::from(number), 0, 0),
        Event::Close(a) => (21, party(a), 0, 0),
        Event::Read(sector) => (22, sector.0, 0, 0),
        Event::Show(place) => (23, u64::from(place), 0, 0),
        Event::End => (24, 0, 0, 0),
    }
}

impl Driven {
    /// A world at the start of this script, over a fresh disk of one segment.
    pub(crate) fn new(alloc: Global, script: &[u8]) -> Result<Driven, NoMemory> {
        let script = read_script(alloc, script).map_err(|_| NoMemory)?;
        if !ascends(script.as_slice()) {
            return Err(NoMemory);
        }
        let mut out = MemOutside::new(alloc);
        open_fresh(&mut out, 1).map_err(|_| NoMemory)?;
        let world = World::new(alloc, script, 1, 1)?;
        Ok(Driven {
            world,
            out,
            made: [0; KINDS],
        })
    }

    /// All lines that may pass the gate do.
    pub(crate) fn open_gate(&mut self) {
        for server in 0..16 {
            self.world.enter(ServerId(server));
        }
    }

    /// Makes an event.
    pub(crate) fn make(&mut self, event: &Event) -> Result<(), NoMemory> {
        match self.world.ready(event) {
            Ok(call) => self.answer(event, &call)?,
            Err(StepFault::NoMemory | StepFault::NotEnabled { .. }) => return Err(NoMemory),
        }
        let (kind, ..) = told(event);
        if let Some(count) = self.made.get_mut(kind) {
            *count = count.saturating_add(1);
        }
        Ok(())
    }

    // Makes the call that an event asks, and the event. A write arrives by one call.
    fn answer(&mut self, event: &Event, call: &Call) -> Result<(), NoMemory>
        requires { IsReadyFor self.old.world (event_of event.now) }
    {
        if let Event::Arrive(ticket) = event {
            let _arrived = self.world.arrive(*ticket, &mut self.out);
            return Ok(());
        }
        let heard = self.call(call)?;
        self.world.step(event, &heard);
        Ok(())
    }

    // Makes a call of the outside, but a put.
    fn call(&mut self, call: &Call) -> Result<Heard, NoMemory>
        ensures { self.new.world ≡ self.old.world }
    {
        match call {
            Call::Nothing => Ok(Heard::Nothing),
            Call::Get(by, sector) => match self.out.get(*by, *sector) {
                Ok(block) => Ok(Heard::Got(block)),
                Err(_) => Ok(Heard::GetFailed),
            },
            Call::Put(..) => Err(NoMemory),
            Call::Say(text) => {
                self.out.say(text.as_slice()).map_err(|_| NoMemory)?;
                Ok(Heard::Nothing)
            }
        }
    }

    /// The lines said so far.
    pub(crate) fn said(&self, alloc: Global) -> Result<Vec<u8>, NoMemory> {
        let mut lines = Vec::new(alloc);
        for act in self.out.acts() {
            match act {
                Act::Said(text) => lines.extend_from_slice(text.as_slice())?,
                Act::Put(..) => {}
            }
        }
        Ok(lines)
    }
}
