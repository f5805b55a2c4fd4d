// The whole list, and an event drawn from it.
ghost use Rattle.std.specs.Prelude.{◌≡◌, ◌%◌, IfOk, length, map};
ghost use Rattle.std.specs.List.{slice_get};
ghost use Rattle.std.specs.Option.{option_map};
ghost use Rattle.core_definitions.specs.Enabled.{after_tick, all_parties, before_tick, enabled};
ghost use Rattle.hall_runs.specs.Asking.{event_of};
ghost use Rattle.host_tree.specs.Reading.{HostReading};
ghost use Rattle.world_list.specs.Fresh.{IsFresh};
ghost use Rattle.world_list.specs.Going.{AreStages, IsGoing, IsTreeOf};
ghost use Rattle.world_list.specs.Listing.{events_of};
ghost use Rattle.world_list.specs.Over.{core_over};

use crate::clock::may_tick;
use crate::pushing::push_if;
use crate::rows::{push_ends, push_lines, push_recoveries, push_writes};
use crate::stages::all_stages;
use frang_base::NoMemory;
use hall_runs::Event;
use host_tree::HostTree;
use line_stages::Stage;
use std::alloc::Global;
use world_state::World;

// The events before Tick.
fn before_tick(
    alloc: Global,
    world: &World,
    stages: &[Option<Stage>],
) -> Result<Vec<Event>, NoMemory>
    requires going { IsGoing world.now }
    requires stages { AreStages world.now stages.now }
    ensures { IfOk result (λ list. (tree : HostReading) → events_of list.items ≡ before_tick (core_over world.now tree) (all_parties (core_over world.now tree))) }
{
    let mut list = Vec::new(alloc);
    push_lines(&mut list, alloc, world, stages)?;
    push_writes(&mut list, alloc, world, stages)?;
    Ok(list)
}

// Those behind it.
fn after_tick(
    alloc: Global,
    world: &World,
    stages: &[Option<Stage>],
    tree: &HostTree,
) -> Result<Vec<Event>, NoMemory>
    requires going { IsGoing world.now }
    requires stages { AreStages world.now stages.now }
    requires tree { IsTreeOf world.now tree.now }
    ensures { IfOk result (λ list. events_of list.items ≡ after_tick (core_over world.now tree.now) (all_parties (core_over world.now tree.now))) }
{
    let mut list = Vec::new(alloc);
    push_recoveries(&mut list, alloc, world, stages)?;
    push_ends(&mut list, alloc, world, stages, tree)?;
    Ok(list)
}

// All events of a world that isn't over, by the stages of its servers.
fn enabled_by(
    alloc: Global,
    world: &World,
    stages: &[Option<Stage>],
    tree: &HostTree,
) -> Result<Vec<Event>, NoMemory>
    requires going { IsGoing world.now }
    requires stages { AreStages world.now stages.now }
    requires tree { IsTreeOf world.now tree.now }
    ensures { IfOk result (λ list. events_of list.items ≡ enabled (core_over world.now tree.now)) }
{
    let mut list = before_tick(alloc, world, stages)?;
    let behind = after_tick(alloc, world, stages, tree)?;
    let ticks = may_tick(world, &list, &behind);
    push_if(&mut list, ticks, Event::Tick)?;
    list.extend_from_slice(&behind)?;
    Ok(list)
}

// All events of a world that isn't over.
fn enabled_going(alloc: Global, world: &World, tree: &HostTree) -> Result<Vec<Event>, NoMemory>
    requires going { IsGoing world.now }
    requires tree { IsTreeOf world.now tree.now }
    ensures { IfOk result (λ list. events_of list.items ≡ enabled (core_over world.now tree.now)) }
{
    let stages = all_stages(alloc, world)?;
    enabled_by(alloc, world, &stages, tree)
}

/// All events that may happen, each once, in the order of the core's table; none where the world is over. What is kept beside its parties and the tree is up to date. Its one refusal is
/// want of memory.
pub fn enabled(alloc: Global, world: &World, tree: &HostTree) -> Result<Vec<Event>, NoMemory>
    requires disk { tree.now.segments ≡ world.now.parties.segments }
    requires fresh { IsFresh world.now tree.now }
    ensures { IfOk result (λ list. map event_of list.items ≡ enabled (core_over world.now tree.now)) }
{
    if world.is_over() {
        return Ok(Vec::new(alloc));
    }
    enabled_going(alloc, world, tree)
}

// The event at the place of a draw.
fn drawn_from(list: &[Event], draw: u64) -> Option<Event>
    ensures { option_map event_of result ≡ slice_get (events_of list.now) (draw % length (events_of list.now)) }
{
    if list.is_empty() {
        return None;
    }
    Some(list[(draw % list.len() as u64) as usize])
}

/// The event at the place of a draw among those that may happen, the draw divided by their number with its rest as the place: `None` exactly where nothing may happen. What is kept beside
/// the world's parties and the tree is up to date. Its one refusal is want of memory.
pub fn drawn(
    alloc: Global,
    world: &World,
    tree: &HostTree,
    draw: u64,
) -> Result<Option<Event>, NoMemory>
    requires disk { tree.now.segments ≡ world.now.parties.segments }
    requires fresh { IsFresh world.now tree.now }
    ensures { IfOk result (λ event. option_map event_of event ≡ slice_get (enabled (core_over world.now tree.now)) (draw % length (enabled (core_over world.now tree.now)))) }
{
    let list = enabled(alloc, world, tree)?;
    Ok(drawn_from(&list, draw))
}
