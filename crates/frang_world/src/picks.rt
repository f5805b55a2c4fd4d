// Which event may happen next.
ghost use Rattle.std.specs.Prelude.{◌≡◌, IfOk, IfSome, None, Ok, OnOk, map};
ghost use Rattle.core_definitions.specs.Enabled.{enabled};
ghost use Rattle.core_definitions.specs.Events.{Event as CoreEvent};
ghost use Rattle.core_definitions.specs.Guards.{Can};
ghost use Rattle.hall_runs.specs.Asking.{event_of};
ghost use Rattle.world_next.specs.Fresh.{IsFresh};
ghost use Rattle.frang_world.specs.States.{core_of};
ghost use Rattle.frang_world.specs.Picks.{drawn_from};

use crate::world::{World, put_ready};
use frang_base::{NoMemory, ServerId};
use hall_runs::Event;
use world_list::{drawn, enabled};
use world_next::next;
use world_ready::refresh;

impl World {
    /// All that is kept beside the parties and the tree is made up to date. The core is the same, whatever the answer. Its one refusal is want of memory, which it says too where a line can't
    /// be planned or has no time, which doesn't happen in a run. Nothing is ready then.
    pub fn refresh(&mut self) -> Result<(), NoMemory>
        ensures core { core_of self.new ≡ core_of self.old }
        ensures ok { OnOk result (IsFresh self.new.world self.new.tree) }
        ensures ready { self.new.ready ≡ None }
    {
        put_ready(&mut self.ready, None);
        refresh(self.alloc, &mut self.world, &mut self.tree)
    }

    /// All events that may happen, each once, in the order of the core's table. The core is the same, whatever the answer. Its one refusal is want of memory, as `refresh` has it. Nothing is ready
    /// then.
    pub fn enabled(&mut self) -> Result<Vec<Event>, NoMemory>
        ensures core { core_of self.new ≡ core_of self.old }
        ensures list { IfOk result (λ list. map event_of list.items ≡ enabled (core_of self.new)) }
        ensures ready { self.new.ready ≡ None }
    {
        self.refresh()?;
        enabled(self.alloc, &self.world, &self.tree)
    }

    /// An event that may happen, first of the worker's own server. `None` exactly where none may. The core is the same, whatever the answer.
    pub fn next(&mut self, worker: u8) -> Result<Option<Event>, NoMemory>
        ensures core { core_of self.new ≡ core_of self.old }
        ensures some { IfOk result (λ found. IfSome found (λ event. Can (core_of self.new) (event_of event))) }
        ensures none { result ≡ Ok None → (event : CoreEvent) → Can (core_of self.new) event → ⊥ }
        ensures ready { self.new.ready ≡ None }
    {
        self.refresh()?;
        if self.world.is_over() {
            return Ok(None);
        }
        Ok(next(&self.world, &self.tree, ServerId(worker)))
    }

    /// The event at the place of a draw among all that may happen, in the order of their table. `None` exactly where none may. The core is the same, whatever the answer.
    pub fn next_drawn(&mut self, draw: u64) -> Result<Option<Event>, NoMemory>
        ensures core { core_of self.new ≡ core_of self.old }
        ensures some { IfOk result (λ found. IfSome found (λ event. Can (core_of self.new) (event_of event))) }
        ensures drawn { IfOk result (λ found. IfSome found (λ event. drawn_from (enabled (core_of self.new)) draw ≡ Some (event_of event))) }
        ensures none { result ≡ Ok None → (event : CoreEvent) → Can (core_of self.new) event → ⊥ }
        ensures ready { self.new.ready ≡ None }
    {
        self.refresh()?;
        if self.world.is_over() {
            return Ok(None);
        }
        drawn(self.alloc, &self.world, &self.tree, draw)
    }
}
