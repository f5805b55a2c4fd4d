// Nodes that are made: files, directories and links.
ghost use Rattle.std.specs.Prelude.{◌++◌, ℕ, List, IfOk};
ghost use Rattle.disk_definitions.specs.Naming.{kind_of};
ghost use Rattle.disk_definitions.specs.Store.{stored};
ghost use Rattle.disk_definitions.specs.Changes.{new_node};
ghost use Rattle.disk_definitions.specs.Plans as plans;
ghost use Rattle.tree_definitions.specs.declared.node.Node.{Node};
ghost use Rattle.disk_definitions.specs.Ask.{bind};
ghost use Rattle.disk_definitions.specs.Walks.{AtGap};
ghost use Rattle.disk_definitions.specs.NamePlans.{making, making_in, plan_made};
ghost use Rattle.dir_lookup.specs.Hands.{over, seen};
ghost use Rattle.dir_lookup.specs.Spots.{spot_of};
ghost use Rattle.plan_steps.specs.Ends.{Comes};
ghost use Rattle.plan_steps.specs.Looking.{Looks, UnlessNoMemory};
ghost use Rattle.plan_steps.specs.Nodes.{IsDirectory, node_of};
ghost use Rattle.plan_steps.specs.Rooms.{IsRoomOf, room_in};
ghost use Rattle.plan_steps.specs.Spots.{IsStanding};
ghost use Rattle.plan_steps.specs.Outcomes.{Does};
ghost use Rattle.op_dir.specs.Places.{FindsNodeRoom, FindsPlace, IsPlaceOf};

use bitmap_alloc::pick_inode;
use dir_lookup::{Hand, Looked, NumberedInode, Spot, inode_at};
use disk_definitions::Inode;
use frang_base::{Name, NoMemory, Path, Reply};
use plan_steps::{
    NewNode, Outcome, Room, Stop, clear_room, enter, entry_for, find_room, is_full, look_at_held,
    new_node, nothing_left, walked,
};
use std::alloc::Global;

// What a new node gets: its inode, and room for its name.
#[derive(Clone, Copy)]
struct Place {
    inode: u32,
    room: Room,
}

/// The operation `birth` makes this node at a path.
pub fn make(
    alloc: Global,
    hand: &Hand,
    birth: u64,
    node: &NewNode,
    path: &Path,
    looked: &mut Looked,
) -> Result<Outcome, Stop>
    ensures comes { Comes (over (plan_made (seen hand.now) birth (node_of node.now) path.now) hand.now) result }
    ensures looks { UnlessNoMemory result (Looks hand.now.sectors.now.entries hand.now.held.now looked.old looked.new (plan_made (seen hand.now) birth (node_of node.now) path.now)) }
{
    let spot = walked(hand.sectors, path, looked)?;
    make_at(alloc, hand, birth, node, &spot, looked)
}

// The node is made where the path leads.
fn make_at(
    alloc: Global,
    hand: &Hand,
    birth: u64,
    node: &NewNode,
    spot: &Spot,
    looked: &mut Looked,
) -> Result<Outcome, Stop>
    requires { IsStanding spot.now }
    ensures comes { (dirs : List ℕ) → Comes (over (making (seen hand.now) birth (node_of node.now) dirs (spot_of spot.now)) hand.now) result }
    ensures looks { (dirs : List ℕ) → UnlessNoMemory result (Looks hand.now.sectors.now.entries hand.now.held.now looked.old looked.new (making (seen hand.now) birth (node_of node.now) dirs (spot_of spot.now))) }
{
    match spot {
        Spot::AtGap { directory, name } => {
            let place = place_for(hand, &directory.inode, looked)?;
            Ok(made(alloc, directory, name, &place, birth, node)?)
        }
        Spot::AtRoot => Err(Stop::Refused(Reply::Exist)),
        Spot::AtName { .. } => Err(Stop::Refused(Reply::Exist)),
        Spot::Lost(refusal) => Err(Stop::Refused(refusal.reply())),
    }
}

// A free inode and room for a name in the directory.
fn place_for(hand: &Hand, directory: &Inode, looked: &mut Looked) -> Result<Place, Stop>
    requires { IsDirectory directory.now }
    ensures finds { FindsPlace hand.now (stored directory.now) result }
    ensures looks { (i birth : ℕ) (name : List ℕ) (node : Node) (dirs : List ℕ) → Looks hand.now.sectors.now.entries hand.now.held.now looked.old looked.new (making (seen hand.now) birth node dirs (AtGap i (stored directory.now) name)) }
    ensures room { IfOk result (IsPlaceOf directory.now) }
{
    if is_full(directory) {
        return Err(Stop::Refused(Reply::DirFull));
    }
    look_at_held(hand.held, looked);
    match pick_inode(hand.held) {
        Some(inode) => {
            let room = room_for_node(hand, directory, inode, looked)?;
            Ok(Place { inode, room })
        }
        None => Err(nothing_left(hand, Reply::NoInode)),
    }
}

// Room in the directory for the name of the node that comes into this inode.
fn room_for_node(
    hand: &Hand,
    directory: &Inode,
    inode: u32,
    looked: &mut Looked,
) -> Result<Room, Stop>
    requires { IsDirectory directory.now }
    ensures finds { FindsNodeRoom hand.now (stored directory.now) inode result }
    ensures looks { (i birth : ℕ) (name : List ℕ) (node : Node) (dirs : List ℕ) → Looks hand.now.sectors.now.entries hand.now.held.now looked.old looked.new (bind (plans.find_room (seen hand.now) (stored directory.now)) (making_in (seen hand.now) i (stored directory.now) name birth node dirs inode)) }
    ensures room { IfOk result (IsRoomOf directory.now) }
{
    let found = find_room(hand, directory, looked)?;
    match found {
        Some(room) => {
            inode_at(hand.sectors, inode, looked)?;
            clear_room(hand, &room, looked)?;
            Ok(room)
        }
        None => Err(nothing_left(hand, Reply::NoDirBlock)),
    }
}

// The node comes into its inode, and the entry of its name into the room.
fn made(
    alloc: Global,
    directory: &NumberedInode,
    name: &Name,
    place: &Place,
    birth: u64,
    node: &NewNode,
) -> Result<Outcome, NoMemory>
    requires directory { IsDirectory directory.now.inode }
    requires room { IsRoomOf directory.now.inode place.now.room }
    ensures { Does (new_node place.now.inode birth (node_of node.now) ++ plans.enter directory.now.number (stored directory.now.inode) (record { name = name.now; inode = place.now.inode; kind = kind_of (node_of node.now) }) (room_in place.now.room)) result }
{
    let entry = entry_for(name, place.inode, node.kind());
    let mut edits = Vec::new(alloc);
    new_node(&mut edits, place.inode, birth, node)?;
    enter(&mut edits, directory, &entry, &place.room)?;
    Ok(Outcome {
        reply: Reply::Ok,
        edits,
    })
}
