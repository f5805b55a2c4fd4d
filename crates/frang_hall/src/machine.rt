// A machine that is the core.
ghost use Rattle.std.specs.Prelude.{◌≡◌, IfOk, Ok, None, IfSome};
ghost use Rattle.core_definitions.specs.Events.{Event as CoreEvent, Arrive};
ghost use Rattle.core_definitions.specs.Runs.{State as RunMoment};
ghost use Rattle.core_definitions.specs.Settings.{Setting};
ghost use Rattle.frang_outside.specs.Outside.{Follows};
ghost use Rattle.hall_runs.specs.Asking.{event_of};
ghost use Rattle.hall_runs.specs.Gates.{line_at_gate, number_to_enter};
ghost use Rattle.frang_hall.specs.Machines.{Arriving, Drawn, Enters, IsReady, Listed, NoneListed, Same, Stepping};

use frang_base::NoMemory;
use frang_outside::Outside;
use hall_runs::{Call, Event, Heard};
use petal_disk::{Arrived, Ticket};

/// A core as a machine: it is the core of a moment of a run, whatever disk and record belong to it.
pub trait Machine: Drop {
    /// It is the core of this moment.
    ghost stands: { Self → RunMoment → Type 0 };

    /// The setting of its run.
    ghost setting: { Self → Setting };

    /// It has the memory of this event.
    ghost has_room: { Self → CoreEvent → Type 0 };

    /// The number of the line that only the gate keeps from beginning at this server.
    fn at_gate(&self, server: u8) -> Option<u32>
        ensures { (r : RunMoment) → stands self.now r → result ≡ line_at_gate r.core server };

    /// The number of the server's next line that hasn't passed the gate yet, while it isn't over.
    fn to_enter(&self, server: u8) -> Option<u32>
        ensures { (r : RunMoment) → stands self.now r → result ≡ number_to_enter r.core server };

    /// The server's next line, where it may enter, passes the gate.
    fn enter(&mut self, server: u8)
        ensures { Enters (stands self.old) (stands self.new) server };

    /// It is over.
    fn is_over(&self) -> bool
        ensures { (r : RunMoment) → stands self.now r → result ≡ r.core.over };

    /// An event that is enabled, where there is one; the worker's own server's, if it can.
    fn pick(&mut self, worker: u8) -> Result<Option<Event>, NoMemory>
        ensures same { Same (stands self.old) (stands self.new) }
        ensures some { IfOk result (λ found. IfSome found (Listed (stands self.new))) }
        ensures none { result ≡ Ok None → NoneListed (stands self.new) };

    /// The event at the place of this draw among those enabled, in the order of their table, where there is one.
    fn pick_drawn(&mut self, draw: u64) -> Result<Option<Event>, NoMemory>
        ensures same { Same (stands self.old) (stands self.new) }
        ensures some { IfOk result (λ found. IfSome found (Listed (stands self.new))) }
        ensures drawn { IfOk result (λ found. IfSome found (Drawn (stands self.new) draw)) }
        ensures none { result ≡ Ok None → NoneListed (stands self.new) };

    /// Takes the memory of an event, and says what it asks of the outside. It is refused also where the event isn't enabled.
    fn ready(&mut self, event: &Event) -> Result<Call, NoMemory>
        ensures same { Same (stands self.old) (stands self.new) }
        ensures ready { IfOk result (IsReady (stands self.new) (has_room self.new) event.now) };

    /// Makes the event, by what was heard. It takes no memory.
    fn step(&mut self, event: &Event, heard: &Heard)
        requires { has_room self.old (event_of event.now) }
        ensures { Stepping (stands self.old) (stands self.new) event.now heard.now };

    /// The write with this ticket arrives, and the event of that is made, where it was answered.
    fn arrive<O: Outside>(&mut self, ticket: Ticket, out: &mut O) -> Arrived
        requires { has_room self.old (Arrive ticket.0) }
        ensures counts { Follows (O.state out.old) (O.state out.new) }
        ensures arrives { Arriving (stands self.old) (stands self.new) ticket.0 (O.state out.old) (O.state out.new) result };
}
