// The world with what its host has read, and what is ready for an event.
ghost use Rattle.std.specs.Prelude.{◌≡◌, ◌≤◌, IfErr, IfOk, IsTrue, None, OnErr};
ghost use Rattle.frang_base.specs.declared.limits.TheConstants.{SEGMENTS_MAX};
ghost use Rattle.frang_outside.specs.declared.act.Put.{Put};
ghost use Rattle.frang_outside.specs.Outside.{Follows};
ghost use Rattle.core_definitions.specs.Calls.{MakePut, call_of};
ghost use Rattle.core_definitions.specs.Cores.{first_core};
ghost use Rattle.core_definitions.specs.Effects.{after};
ghost use Rattle.core_definitions.specs.Events as core;
ghost use Rattle.core_definitions.specs.Guards.{Can};
ghost use Rattle.core_definitions.specs.Settings.{setting_of};
ghost use Rattle.hall_runs.specs.Asking.{Asks, event_of, heard_of};
ghost use Rattle.petal_disk.specs.Arriving.{ArriveOutcome};
ghost use Rattle.script_places.specs.Placed.{ascends};
ghost use Rattle.world_state.specs.Arrivals.{Arrives};
ghost use Rattle.frang_world.specs.Refusals.{Refuses};
ghost use Rattle.frang_world.specs.States.{IsNoArrival, IsReadyFor, core_of};

use crate::fault::StepFault;
use crate::steps::make;
use flight_laws::a_write_is_the_cores;
use frang_base::{NoMemory, Script};
use frang_outside::Outside;
use hall_runs::{Call, Event, Heard};
use host_tree::HostTree;
use petal_disk::{Arrived, Ticket};
use std::alloc::Global;
use std::marker::Model;
use world_ready::{Ready, ready};

/// The world of several servers with what the host has read and said of the tree, and what is ready for an event: seen as a value of which `core_of` is the core.
#[derive(Drop)]
pub struct World {
    pub(crate) alloc: Global,
    pub(crate) world: world_state::World,
    pub(crate) tree: HostTree,
    pub(crate) ready: Option<Ready>,
}

impl Model for World {
    ghost use Rattle.frang_world.specs.States.{IsKept, State};

    ghost Value = { State };

    ghost view = { λ w. record { world = w.world; tree = w.tree; ready = w.ready } };

    ghost invariant = { λ w. IsKept (record { world = w.world; tree = w.tree; ready = w.ready }) };
}

impl World {
    /// Nothing has happened yet. The numbers of the script's lines ascend. Its one refusal is want of memory.
    pub fn new(alloc: Global, script: Script, segments: u32, run: u32) -> Result<World, NoMemory>
        requires script { IsTrue (ascends script) }
        requires disk { segments ≤ SEGMENTS_MAX }
        ensures { IfOk result (λ w. core_of w ≡ first_core (setting_of script segments run)) }
    {
        let world = world_state::World::new(alloc, script, segments, run)?;
        let tree = HostTree::new(alloc, segments)?;
        Ok(World {
            alloc,
            world,
            tree,
            ready: None,
        })
    }
}

// ---- what is ready

// This is ready from now on, or nothing; what was ready before is given back.
pub(crate) fn put_ready(ready: &mut Option<Ready>, made: Option<Ready>)
    ensures { ready.new ≡ made }
{
    *ready = made;
}

// ---- events

impl World {
    /// Takes all memory of an event, and says what it asks of the outside. The core is the same, whatever the answer. `NotEnabled` comes only where the event may not happen. Want of memory
    /// comes also where the event couldn't be carried out (`ready` of `world_ready`), which doesn't happen in a run.
    pub fn ready(&mut self, event: &Event) -> Result<Call, StepFault>
        ensures core { core_of self.new ≡ core_of self.old }
        ensures refuses { IfErr result (Refuses (core_of self.old) event.now) }
        ensures can { IfOk result (λ call. Can (core_of self.old) (event_of event.now)) }
        ensures asks { IfOk result (λ call. Asks (core_of self.old) (event_of event.now) call) }
        ensures ready { IfOk result (λ call. IsReadyFor self.new (event_of event.now)) }
        ensures err { OnErr result (self.new.ready ≡ None) }
    {
        put_ready(&mut self.ready, None);
        match ready(self.alloc, &mut self.world, &mut self.tree, event)? {
            Some(made) => {
                put_ready(&mut self.ready, Some(made.ready));
                Ok(made.call)
            }
            None => Err(StepFault::NotEnabled { event: *event }),
        }
    }

    /// Makes the event for which something is ready, but an arrival, by what was heard: the core is then what the event makes of it. Nothing is ready then. It takes no memory.
    pub fn step(&mut self, event: &Event, heard: &Heard)
        requires ready { IsReadyFor self.old (event_of event.now) }
        requires other { IsNoArrival event.now }
        ensures core { core_of self.new ≡ after (core_of self.old) (event_of event.now) (heard_of heard.now) }
        ensures ready { self.new.ready ≡ None }
    {
        match self.ready.take() {
            Some(ready) => make(&mut self.world, &mut self.tree, ready, heard),
            None => unreachable!(),
        }
    }

    /// The write with this ticket, for whose arrival something is ready, arrives at the outside now, which is called once, and its answer is handed on. The core is then what the arrival makes
    /// of it, whichever block a failed write left; after want of memory it is as before. Nothing is ready then.
    pub fn arrive<O: Outside>(&mut self, ticket: Ticket, out: &mut O) -> Arrived
        requires { IsReadyFor self.old (core.Arrive ticket.0) }
        ensures counts { Follows (O.state out.old) (O.state out.new) }
        ensures outcome { (put : Put) → call_of (core_of self.old) (core.Arrive ticket.0) ≡ MakePut ticket.0 put → ArriveOutcome (O.state out.old) (O.state out.new) put result }
        ensures core { Arrives (core_of self.old) (core_of self.new) ticket.0 result }
        ensures ready { self.new.ready ≡ None }
    {
        a_write_is_the_cores();
        // The puts are those of the writes.
        let _count = self.world.flights().count();
        put_ready(&mut self.ready, None);
        self.world.arrive(ticket, out)
    }
}
