// A machine that counts the lines said.
ghost use Rattle.std.specs.Prelude.{◌≡◌};
ghost use Rattle.frang_board.specs.Figures.{zeros};

use crate::line::{figures_after, has_room};
use frang_base::NoMemory;
use frang_board::Figures;
use frang_hall::Machine;
use frang_outside::Outside;
use hall_runs::{Call, Event, Heard};
use petal_disk::{Arrived, Ticket};

/// A machine beside what the record of its run comes to in figures. Where one of these is at its type's end, memory is wanting for each further event.
#[derive(Drop)]
pub struct Counted<M: Machine> {
    machine: M,
    figures: Figures,
}

impl<M: Machine> Counted<M> {
    /// A machine whose record is empty.
    pub fn new(machine: M) -> Self
        ensures machine { result.machine ≡ machine }
        ensures figures { result.figures ≡ zeros }
    {
        Counted {
            machine,
            figures: Figures {
                said: 0,
                answered: 0,
                dead: 0,
                recovered: 0,
            },
        }
    }

    /// What the record of its run comes to.
    pub fn figures(&self) -> Figures
        ensures { result ≡ self.now.figures }
    {
        self.figures
    }
}

impl<M: Machine> Machine for Counted<M> {
    ghost use Rattle.std.specs.Prelude.{◌≡◌};
    ghost use Rattle.watched_hall.specs.Counting.{HasRoom, figures_in};

    ghost stands = { λ counted r. M.stands counted.machine r × (counted.figures ≡ figures_in r.record_) };

    ghost setting = { λ counted. M.setting counted.machine };

    ghost has_room = { λ counted event. M.has_room counted.machine event × HasRoom counted.figures };

    fn at_gate(&self, server: u8) -> Option<u32> {
        self.machine.at_gate(server)
    }

    fn to_enter(&self, server: u8) -> Option<u32> {
        self.machine.to_enter(server)
    }

    fn enter(&mut self, server: u8) {
        self.machine.enter(server);
    }

    fn is_over(&self) -> bool {
        self.machine.is_over()
    }

    fn pick(&mut self, worker: u8) -> Result<Option<Event>, NoMemory> {
        self.machine.pick(worker)
    }

    fn pick_drawn(&mut self, draw: u64) -> Result<Option<Event>, NoMemory> {
        self.machine.pick_drawn(draw)
    }

    fn ready(&mut self, event: &Event) -> Result<Call, NoMemory> {
        if has_room(&self.figures) {
            self.machine.ready(event)
        } else {
            Err(NoMemory)
        }
    }

    fn step(&mut self, event: &Event, heard: &Heard) {
        self.machine.step(event, heard);
        self.figures = figures_after(self.figures, event);
    }

    fn arrive<O: Outside>(&mut self, ticket: Ticket, out: &mut O) -> Arrived {
        self.machine.arrive(ticket, out)
    }
}
