// The core of a script that is a `halt` alone, as a machine.
ghost use Rattle.std.specs.Prelude.{◌≡◌, false};

use frang_base::{NoMemory, Text};
use frang_hall::Machine;
use frang_outside::Outside;
use hall_runs::{Call, Event, Heard};
use petal_disk::{Arrived, Ticket};
use std::alloc::Global;

/// Whether its one line is answered, and where texts are made.
#[derive(Drop)]
pub struct Halting {
    alloc: Global,
    over: bool,
}

impl Halting {
    /// At the start of its run.
    pub fn new(alloc: Global) -> Self
        ensures { result.over ≡ false }
    {
        Halting { alloc, over: false }
    }
}

impl Machine for Halting {
    ghost use Rattle.std.specs.Prelude.{◌≡◌, false};
    ghost use Rattle.hall_tests.specs.Halting.{core_at, halting, MayBeAsked};

    ghost stands = { λ machine r. r.core ≡ core_at machine.over };

    ghost setting = { λ machine. halting };

    ghost has_room = { λ machine event. MayBeAsked event × (machine.over ≡ false) };

    fn at_gate(&self, _server: u8) -> Option<u32> {
        None
    }

    fn to_enter(&self, _server: u8) -> Option<u32> {
        None
    }

    fn enter(&mut self, _server: u8) {}

    fn is_over(&self) -> bool {
        self.over
    }

    fn pick(&mut self, _worker: u8) -> Result<Option<Event>, NoMemory> {
        if self.over {
            return Ok(None);
        }
        Ok(Some(Event::HostLine(1)))
    }

    fn pick_drawn(&mut self, _draw: u64) -> Result<Option<Event>, NoMemory> {
        if self.over {
            return Ok(None);
        }
        Ok(Some(Event::HostLine(1)))
    }

    fn ready(&mut self, event: &Event) -> Result<Call, NoMemory> {
        if self.over {
            return Err(NoMemory);
        }
        match event {
            Event::HostLine(1) => Ok(Call::Say(Text::of(self.alloc, b"1 - ok\n")?)),
            _ => Err(NoMemory),
        }
    }

    fn step(&mut self, _event: &Event, _heard: &Heard) {
        self.over = true;
    }

    fn arrive<O: Outside>(&mut self, _ticket: Ticket, _out: &mut O) -> Arrived {
        Arrived::NoMemory
    }
}
