// The events of the host's lines and of the end: HostLine, Close, Read, Show, End.
ghost use Rattle.std.specs.Prelude.{◌≡◌, ◌==◌, ◌&&◌, OnOk, length, nat_lt};
ghost use Rattle.core_definitions.specs.Cores.{tree_lines};
ghost use Rattle.core_definitions.specs.EndGuards.{is_tree_read};
ghost use Rattle.world_list.specs.Going.{IsTreeOf};
ghost use Rattle.world_list.specs.Listing.{Adds, AddsOf};
ghost use Rattle.world_list.specs.Over.{core_over};
ghost use Rattle.world_list.specs.Rows.{end_events, host_events, party_events, read_events, show_events};
ghost use Rattle.world_list.specs.declared.row.Row.TheVariants as rows;

use crate::pushing::push_if;
use crate::reads::push_all_reads;
use frang_base::{NoMemory, ServerId};
use hall_runs::Event;
use host_tree::HostTree;
use world_state::World;

/// HostLine.
pub(crate) fn push_host_line(list: &mut Vec<Event>, world: &World) -> Result<(), NoMemory>
    ensures { OnOk result (AddsOf list.old.items list.new.items (host_events world.now)) }
{
    match world.next_line(ServerId::HOST) {
        Some(line) => push_if(
            list,
            world.may_host(line.number),
            Event::HostLine(line.number),
        ),
        None => Ok(()),
    }
}

/// Close, of one party.
pub(crate) fn push_close(list: &mut Vec<Event>, world: &World, a: ServerId) -> Result<(), NoMemory>
    ensures { OnOk result (AddsOf list.old.items list.new.items (party_events world.now rows.Closes a.0)) }
{
    push_if(list, world.may_close(a), Event::Close(a))
}

// ---- the tree

/// Read.
pub(crate) fn push_reads(
    list: &mut Vec<Event>,
    world: &World,
    tree: &HostTree,
) -> Result<(), NoMemory>
    requires { IsTreeOf world.now tree.now }
    ensures { OnOk result (Adds list.old.items list.new.items (read_events world.now tree.now)) }
{
    if world.is_at_rest() {
        push_all_reads(list, tree.needed())
    } else {
        Ok(())
    }
}

// Whether the tree is read.
fn is_tree_read(world: &World, tree: &HostTree) -> bool
    requires { IsTreeOf world.now tree.now }
    ensures { result ≡ is_tree_read (core_over world.now tree.now) }
{
    world.is_at_rest() && tree.is_read()
}

// Whether a line of the tree is to be said.
fn may_show(world: &World, tree: &HostTree) -> bool
    requires { IsTreeOf world.now tree.now }
    ensures { result ≡ (is_tree_read (core_over world.now tree.now) && nat_lt tree.now.shown (length (tree_lines (core_over world.now tree.now)))) }
{
    is_tree_read(world, tree) && tree.line().is_some()
}

// Whether all are said.
fn may_end(world: &World, tree: &HostTree) -> bool
    requires { IsTreeOf world.now tree.now }
    ensures { result ≡ (is_tree_read (core_over world.now tree.now) && tree.now.shown == length (tree_lines (core_over world.now tree.now))) }
{
    is_tree_read(world, tree) && tree.line().is_none()
}

/// Show.
pub(crate) fn push_show(
    list: &mut Vec<Event>,
    world: &World,
    tree: &HostTree,
) -> Result<(), NoMemory>
    requires { IsTreeOf world.now tree.now }
    ensures { OnOk result (Adds list.old.items list.new.items (show_events world.now tree.now)) }
{
    push_if(list, may_show(world, tree), Event::Show(tree.shown()))
}

/// End.
pub(crate) fn push_end(
    list: &mut Vec<Event>,
    world: &World,
    tree: &HostTree,
) -> Result<(), NoMemory>
    requires { IsTreeOf world.now tree.now }
    ensures { OnOk result (Adds list.old.items list.new.items (end_events world.now tree.now)) }
{
    push_if(list, may_end(world, tree), Event::End)
}
