// What is made ready for the host's lines and the end: HostLine, Close, Read, Show, End.
ghost use Rattle.std.specs.Prelude.{◌≡◌, IfOk, true};
ghost use Rattle.core_definitions.specs.EndGuards.{is_tree_read};
ghost use Rattle.core_definitions.specs.Events as core;
ghost use Rattle.world_state.specs.States.{core_at};
ghost use Rattle.world_next.specs.Over.{core_over};
ghost use Rattle.world_ready.specs.Making.{IsMade, IsMadeOf};
ghost use Rattle.world_ready.specs.Trees.{IsSaidInTime, IsTextAt, SameReading};

use crate::kinds::{Made, Ready};
use crate::texts::{answer_text, text_of};
use frang_base::{NoMemory, Reply, Said, Sector, ServerId, Text};
use hall_runs::Call;
use host_tree::HostTree;
use std::alloc::Global;
use world_state::World;

/// HostLine: that it is said.
pub(crate) fn ready_host_line(
    alloc: Global,
    world: &World,
    number: u32,
) -> Result<Option<Made>, NoMemory>
    ensures { IfOk result (IsMadeOf (core_at world.now) world.now (core.HostLine number)) }
{
    if !world.may_host(number) {
        return Ok(None);
    }
    let text = answer_text(alloc, ServerId::HOST, number, Reply::Ok)?;
    Ok(Some(Made {
        ready: Ready::HostLine(number),
        call: Call::Say(text),
    }))
}

/// Close: nothing is needed.
pub(crate) fn ready_close(world: &World, a: ServerId) -> Option<Made>
    ensures { IsMadeOf (core_at world.now) world.now (core.Close a.0) result }
{
    if !world.may_close(a) {
        return None;
    }
    Some(Made {
        ready: Ready::Close(a),
        call: Call::Nothing,
    })
}

// ---- the tree

/// Read: room for the sector.
pub(crate) fn ready_read(
    world: &World,
    tree: &mut HostTree,
    sector: Sector,
) -> Result<Option<Made>, NoMemory>
    requires disk { tree.old.segments ≡ world.now.parties.segments }
    ensures reading { SameReading tree.old tree.new }
    ensures made { IfOk result (IsMade (core_at world.now) world.now tree.new (core.Read sector.0)) }
{
    if !world.is_at_rest() {
        return Ok(None);
    }
    if !tree.needs(sector) {
        return Ok(None);
    }
    tree.reserve()?;
    Ok(Some(Made {
        ready: Ready::Read(sector),
        call: Call::Get(ServerId::HOST, sector),
    }))
}

// Whether the tree is read: the world is at rest and no sector is needed any more. Then its next line is made.
fn has_next(world: &World, tree: &mut HostTree) -> Result<bool, NoMemory>
    requires disk { tree.old.segments ≡ world.now.parties.segments }
    ensures reading { SameReading tree.old tree.new }
    ensures read { IfOk result (λ is. is ≡ is_tree_read (core_over world.now tree.old)) }
    ensures made { IfOk result (λ is. is ≡ true → tree.new.is_made ≡ true) }
{
    if !world.is_at_rest() {
        return Ok(false);
    }
    if !tree.is_read() {
        return Ok(false);
    }
    tree.make_line()?;
    Ok(true)
}

// The line of the tree at a place, if it is its next, as a text.
fn said_at(alloc: Global, tree: &HostTree, place: u32) -> Result<Option<Text>, NoMemory>
    requires { tree.now.is_made ≡ true }
    ensures { IfOk result (λ text. IsTextAt tree.now place text) }
{
    if tree.shown() != place {
        return Ok(None);
    }
    match tree.line() {
        Some(line) => {
            let text = text_of(alloc, line)?;
            Ok(Some(text))
        }
        None => Ok(None),
    }
}

/// Show: the line, as it is said.
pub(crate) fn ready_show(
    alloc: Global,
    world: &World,
    tree: &mut HostTree,
    place: u32,
) -> Result<Option<Made>, NoMemory>
    requires disk { tree.old.segments ≡ world.now.parties.segments }
    ensures reading { SameReading tree.old tree.new }
    ensures made { IfOk result (IsMade (core_at world.now) world.now tree.new (core.Show place)) }
{
    if !has_next(world, tree)? {
        return Ok(None);
    }
    match said_at(alloc, tree, place)? {
        Some(text) => Ok(Some(Made {
            ready: Ready::Show(place),
            call: Call::Say(text),
        })),
        None => Ok(None),
    }
}

/// End: that it is said.
pub(crate) fn ready_end(
    alloc: Global,
    world: &World,
    tree: &mut HostTree,
) -> Result<Option<Made>, NoMemory>
    requires disk { tree.old.segments ≡ world.now.parties.segments }
    requires said { IsSaidInTime tree.old }
    ensures reading { SameReading tree.old tree.new }
    ensures made { IfOk result (IsMade (core_at world.now) world.now tree.new core.End) }
{
    if !has_next(world, tree)? {
        return Ok(None);
    }
    match tree.line() {
        Some(_) => Ok(None),
        None => {
            let text = text_of(alloc, &Said::End)?;
            Ok(Some(Made {
                ready: Ready::End,
                call: Call::Say(text),
            }))
        }
    }
}
