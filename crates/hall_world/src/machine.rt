// The world of several servers, as the machine of a hall.
ghost use Rattle.std.specs.Prelude.{◌≡◌, ◌≤◌, IfOk, IsTrue};
ghost use Rattle.frang_base.specs.declared.limits.TheConstants.{SEGMENTS_MAX};
ghost use Rattle.core_definitions.specs.Cores.{first_core};
ghost use Rattle.core_definitions.specs.Settings.{setting_of};
ghost use Rattle.script_places.specs.Placed.{ascends};
ghost use Rattle.frang_world.specs.States.{core_of};

use frang_base::{NoMemory, Script, ServerId};
use frang_hall::Machine;
use frang_outside::Outside;
use frang_world::{StepFault, World};
use hall_runs::{Call, Event, Heard};
use petal_disk::{Arrived, Ticket};
use std::alloc::Global;

/// The world of several servers, asked as a machine.
#[derive(Drop)]
pub struct HallWorld {
    world: World,
}

impl HallWorld {
    /// The world of a script, on a disk of so many segments and in its run of this number: nothing has happened yet. The numbers of the script's lines ascend. Its one refusal is want of
    /// memory.
    pub fn new(
        alloc: Global,
        script: Script,
        segments: u32,
        run: u32,
    ) -> Result<HallWorld, NoMemory>
        requires script { IsTrue (ascends script) }
        requires disk { segments ≤ SEGMENTS_MAX }
        ensures { IfOk result (λ machine. core_of machine.world ≡ first_core (setting_of script segments run)) }
    {
        let world = World::new(alloc, script, segments, run)?;
        Ok(HallWorld { world })
    }
}

impl Machine for HallWorld {
    ghost use Rattle.std.specs.Prelude.{◌≡◌};
    ghost use Rattle.frang_world.specs.States.{IsReadyFor, core_of};

    ghost stands = { λ machine r. r.core ≡ core_of machine.world };

    ghost setting = { λ machine. (core_of machine.world).setting };

    ghost has_room = { λ machine event. IsReadyFor machine.world event };

    fn at_gate(&self, server: u8) -> Option<u32> {
        self.world.at_gate(ServerId(server))
    }

    fn to_enter(&self, server: u8) -> Option<u32> {
        self.world.to_enter(ServerId(server))
    }

    fn enter(&mut self, server: u8) {
        self.world.enter(ServerId(server));
    }

    fn is_over(&self) -> bool {
        self.world.over()
    }

    fn pick(&mut self, worker: u8) -> Result<Option<Event>, NoMemory> {
        self.world.next(worker)
    }

    fn pick_drawn(&mut self, draw: u64) -> Result<Option<Event>, NoMemory> {
        self.world.next_drawn(draw)
    }

    fn ready(&mut self, event: &Event) -> Result<Call, NoMemory> {
        match self.world.ready(event) {
            Ok(call) => Ok(call),
            Err(StepFault::NoMemory | StepFault::NotEnabled { .. }) => Err(NoMemory),
        }
    }

    fn step(&mut self, event: &Event, heard: &Heard) {
        match event {
            // Nothing of what a step is told answers an arrival.
            Event::Arrive(_) => {}
            _ => self.world.step(event, heard),
        }
    }

    fn arrive<O: Outside>(&mut self, ticket: Ticket, out: &mut O) -> Arrived {
        self.world.arrive(ticket, out)
    }
}
