// Second names of files and links.
ghost use Rattle.std.specs.Prelude.{◌≡◌, ◌++◌, ◌+◌, ◌<◌, ℕ, List, Some, nat_le};
ghost use Rattle.frang_base.specs.declared.limits.TheConstants.{LINKS_MAX};
ghost use Rattle.disk_definitions.specs.Store.{stored};
ghost use Rattle.disk_definitions.specs.Changes.{relink};
ghost use Rattle.disk_definitions.specs.Ask.{bind};
ghost use Rattle.disk_definitions.specs.Walks.{walk};
ghost use Rattle.disk_definitions.specs.Plans as plans;
ghost use Rattle.disk_definitions.specs.NamePlans.{linking, linking_node, linking_to, plan_linked};
ghost use Rattle.dir_lookup.specs.Hands.{over, seen};
ghost use Rattle.dir_lookup.specs.Spots.{spot_of};
ghost use Rattle.plan_steps.specs.Ends.{Comes};
ghost use Rattle.plan_steps.specs.Looking.{Looks, UnlessNoMemory};
ghost use Rattle.plan_steps.specs.Nodes.{IsDirectory};
ghost use Rattle.plan_steps.specs.Rooms.{IsRoomOf, room_in};
ghost use Rattle.plan_steps.specs.Spots.{IsStanding};
ghost use Rattle.plan_steps.specs.Outcomes.{Does};

use crate::named::is_directory;
use crate::room::room_for;
use dir_lookup::{Hand, Looked, NumberedInode, Spot};
use disk_definitions::Inode;
use frang_base::limits::LINKS_MAX;
use frang_base::{Name, NoMemory, Path, Reply};
use plan_steps::{Outcome, Room, Stop, enter, entry_for, inode_of, is_full, relink, walked};
use std::alloc::Global;

/// The node that a path names, which is no directory, gets a second name.
pub fn link_node(
    alloc: Global,
    hand: &Hand,
    path: &Path,
    to: &Path,
    looked: &mut Looked,
) -> Result<Outcome, Stop>
    ensures comes { Comes (over (plan_linked (seen hand.now) path.now to.now) hand.now) result }
    ensures looks { UnlessNoMemory result (Looks hand.now.sectors.now.entries hand.now.held.now looked.old looked.new (plan_linked (seen hand.now) path.now to.now)) }
{
    let spot = walked(hand.sectors, path, looked)?;
    link_at(alloc, hand, &spot, to, looked)
}

// The node gets it to which the path leads.
fn link_at(
    alloc: Global,
    hand: &Hand,
    spot: &Spot,
    to: &Path,
    looked: &mut Looked,
) -> Result<Outcome, Stop>
    ensures comes { (dirs : List ℕ) → Comes (over (linking (seen hand.now) to.now dirs (spot_of spot.now)) hand.now) result }
    ensures looks { (dirs : List ℕ) → UnlessNoMemory result (Looks hand.now.sectors.now.entries hand.now.held.now looked.old looked.new (linking (seen hand.now) to.now dirs (spot_of spot.now))) }
{
    match spot {
        Spot::AtName { found, .. } => {
            if is_directory(&found.entry) {
                return Err(Stop::Refused(Reply::IsDir));
            }
            link_inode(alloc, hand, found.entry.inode, to, looked)
        }
        Spot::AtRoot => Err(Stop::Refused(Reply::IsDir)),
        Spot::AtGap { .. } => Err(Stop::Refused(Reply::NoEnt)),
        Spot::Lost(refusal) => Err(Stop::Refused(refusal.reply())),
    }
}

// The node of inode `number` gets it.
fn link_inode(
    alloc: Global,
    hand: &Hand,
    number: u32,
    to: &Path,
    looked: &mut Looked,
) -> Result<Outcome, Stop>
    ensures comes { (dirs : List ℕ) → Comes (over (bind (walk to.now) (λ w. linking_to (seen hand.now) number (dirs ++ w.dirs) w.spot)) hand.now) result }
    ensures looks { (dirs : List ℕ) → UnlessNoMemory result (Looks hand.now.sectors.now.entries hand.now.held.now looked.old looked.new (bind (walk to.now) (λ w. linking_to (seen hand.now) number (dirs ++ w.dirs) w.spot))) }
{
    let spot = walked(hand.sectors, to, looked)?;
    link_to(alloc, hand, number, &spot, looked)
}

// It gets the name to which the second path leads.
fn link_to(
    alloc: Global,
    hand: &Hand,
    number: u32,
    spot: &Spot,
    looked: &mut Looked,
) -> Result<Outcome, Stop>
    requires { IsStanding spot.now }
    ensures comes { (dirs : List ℕ) → Comes (over (linking_to (seen hand.now) number dirs (spot_of spot.now)) hand.now) result }
    ensures looks { (dirs : List ℕ) → UnlessNoMemory result (Looks hand.now.sectors.now.entries hand.now.held.now looked.old looked.new (linking_to (seen hand.now) number dirs (spot_of spot.now))) }
{
    match spot {
        Spot::AtGap { directory, name } => {
            let inode = inode_of(hand.sectors, number, looked)?;
            link_in(
                alloc,
                hand,
                directory,
                name,
                &NumberedInode { number, inode },
                looked,
            )
        }
        Spot::AtRoot => Err(Stop::Refused(Reply::Exist)),
        Spot::AtName { .. } => Err(Stop::Refused(Reply::Exist)),
        Spot::Lost(refusal) => Err(Stop::Refused(refusal.reply())),
    }
}

// The node gets this name in the directory.
fn link_in(
    alloc: Global,
    hand: &Hand,
    directory: &NumberedInode,
    name: &Name,
    node: &NumberedInode,
    looked: &mut Looked,
) -> Result<Outcome, Stop>
    requires { IsDirectory directory.now.inode }
    ensures comes { (dirs : List ℕ) → Comes (over (linking_node (seen hand.now) directory.now.number (stored directory.now.inode) name.now node.now.number dirs (Some (stored node.now.inode))) hand.now) result }
    ensures looks { (dirs : List ℕ) → UnlessNoMemory result (Looks hand.now.sectors.now.entries hand.now.held.now looked.old looked.new (linking_node (seen hand.now) directory.now.number (stored directory.now.inode) name.now node.now.number dirs (Some (stored node.now.inode)))) }
{
    if has_all_links(&node.inode) {
        return Err(Stop::Refused(Reply::MLink));
    }
    if is_full(&directory.inode) {
        return Err(Stop::Refused(Reply::DirFull));
    }
    let room = room_for(hand, &directory.inode, looked)?;
    Ok(linked(alloc, directory, name, &room, node)?)
}

// The node has as many names as one may have.
fn has_all_links(node: &Inode) -> bool
    ensures { result ≡ nat_le LINKS_MAX (stored node.now).links }
{
    node.links >= LINKS_MAX
}

// The node has a link more, and the entry of its name comes into the room.
fn linked(
    alloc: Global,
    directory: &NumberedInode,
    name: &Name,
    room: &Room,
    node: &NumberedInode,
) -> Result<Outcome, NoMemory>
    requires directory { IsDirectory directory.now.inode }
    requires room { IsRoomOf directory.now.inode room.now }
    requires links { node.now.inode.links < LINKS_MAX }
    ensures { Does (relink node.now.number (stored node.now.inode) (node.now.inode.links + 1) ++ plans.enter directory.now.number (stored directory.now.inode) (record { name = name.now; inode = node.now.number; kind = node.now.inode.kind }) (room_in room.now)) result }
{
    let entry = entry_for(name, node.number, node.inode.kind);
    let mut edits = Vec::new(alloc);
    relink(&mut edits, node, node.inode.links + 1)?;
    enter(&mut edits, directory, &entry, room)?;
    Ok(Outcome {
        reply: Reply::Ok,
        edits,
    })
}
