// Names that are changed, or moved to another directory.
ghost use Rattle.std.specs.Prelude.{◌≡◌, ◌==◌, ◌++◌, ◌&&◌, ℕ, List, Some, None, not, if◌then◌else◌, nat_lt};
ghost use Rattle.frang_base.specs.declared.reply.Reply.TheVariants as reply;
ghost use Rattle.disk_definitions.specs.Store.{stored, entered};
ghost use Rattle.disk_definitions.specs.Changes.{replace_entry, take_entry};
ghost use Rattle.disk_definitions.specs.Ask.{bind};
ghost use Rattle.disk_definitions.specs.Walks.{walk};
ghost use Rattle.disk_definitions.specs.Plans as plans;
ghost use Rattle.disk_definitions.specs.NamePlans.{fewer as less, goes_through, moving_onto, moving_to, plan_renamed, renamed_entry, renaming, renaming_to, replacing_node};
ghost use Rattle.dir_lookup.specs.Hands.{over, seen};
ghost use Rattle.dir_lookup.specs.Spots.{spot_of};
ghost use Rattle.dir_lookup.specs.Stored.{IsUsed};
ghost use Rattle.plan_steps.specs.Ends.{Comes};
ghost use Rattle.plan_steps.specs.Looking.{Looks, UnlessNoMemory};
ghost use Rattle.plan_steps.specs.Nodes.{IsDirectory};
ghost use Rattle.plan_steps.specs.Rooms.{IsRoomOf, room_in};
ghost use Rattle.plan_steps.specs.Spots.{IsStanding};
ghost use Rattle.plan_steps.specs.Outcomes.{Does};
ghost use Rattle.op_dir.specs.Moving.{IsNamed, moving_of};

use crate::named::{Named, is_directory};
use crate::room::room_for;
use dir_lookup::{Hand, Looked, NumberedInode, Spot};
use disk_definitions::{DirEntry, Inode};
use frang_base::limits::KIND_DIRECTORY;
use frang_base::{Name, NoMemory, Path, Reply};
use plan_steps::{
    Outcome, Room, Stop, enter, entry_for, fewer, inode_of, is_full, replace_entry,
    segments_needed, take_entry, walk_passes, walked,
};
use std::alloc::Global;

/// The node that a path names gets another name in place of this one. A node that has that name loses it.
pub fn rename_node(
    alloc: Global,
    hand: &Hand,
    path: &Path,
    to: &Path,
    looked: &mut Looked,
) -> Result<Outcome, Stop>
    ensures comes { Comes (over (plan_renamed (seen hand.now) path.now to.now) hand.now) result }
    ensures looks { UnlessNoMemory result (Looks hand.now.sectors.now.entries hand.now.held.now looked.old looked.new (plan_renamed (seen hand.now) path.now to.now)) }
{
    if path.is_empty() {
        return Err(Stop::Refused(Reply::Inval));
    }
    if to.is_empty() {
        return Err(Stop::Refused(Reply::Inval));
    }
    let spot = walked(hand.sectors, path, looked)?;
    rename_at(alloc, hand, &spot, to, looked)
}

// The name is moved to which the path leads.
fn rename_at(
    alloc: Global,
    hand: &Hand,
    spot: &Spot,
    to: &Path,
    looked: &mut Looked,
) -> Result<Outcome, Stop>
    requires { IsStanding spot.now }
    ensures comes { (dirs : List ℕ) → Comes (over (renaming (seen hand.now) to.now dirs (spot_of spot.now)) hand.now) result }
    ensures looks { (dirs : List ℕ) → UnlessNoMemory result (Looks hand.now.sectors.now.entries hand.now.held.now looked.old looked.new (renaming (seen hand.now) to.now dirs (spot_of spot.now))) }
{
    match spot {
        Spot::AtName {
            directory,
            found,
            ..
        } => {
            let from = Named {
                directory: *directory,
                found: *found,
            };
            rename_named(alloc, hand, &from, to, looked)
        }
        Spot::AtRoot => Err(Stop::Refused(Reply::Inval)),
        Spot::AtGap { .. } => Err(Stop::Refused(Reply::NoEnt)),
        Spot::Lost(refusal) => Err(Stop::Refused(refusal.reply())),
    }
}

// This name is moved to the second path.
fn rename_named(
    alloc: Global,
    hand: &Hand,
    from: &Named,
    to: &Path,
    looked: &mut Looked,
) -> Result<Outcome, Stop>
    requires { IsNamed from.now }
    ensures comes { (dirs : List ℕ) → Comes (over (bind (walk to.now) (λ w. renaming_to (seen hand.now) (moving_of from.now) w.dirs (dirs ++ w.dirs) w.spot)) hand.now) result }
    ensures looks { (dirs : List ℕ) → UnlessNoMemory result (Looks hand.now.sectors.now.entries hand.now.held.now looked.old looked.new (bind (walk to.now) (λ w. renaming_to (seen hand.now) (moving_of from.now) w.dirs (dirs ++ w.dirs) w.spot))) }
{
    let (spot, passed) = walk_passes(hand.sectors, to, from.found.entry.inode, looked)?;
    let through = moves_through(&from.found.entry, passed);
    rename_to(alloc, hand, from, &spot, through, looked)
}

// A directory is moved, and the walk of its new name passed it.
fn moves_through(moved: &DirEntry, passed: bool) -> bool
    ensures { result ≡ (((entered moved.now).kind == 2) && passed) }
{
    is_directory(moved) && passed
}

// This name is moved to where the second path leads; `through` says that the walk of that passed the moved directory.
fn rename_to(
    alloc: Global,
    hand: &Hand,
    from: &Named,
    spot: &Spot,
    through: bool,
    looked: &mut Looked,
) -> Result<Outcome, Stop>
    requires from { IsNamed from.now }
    requires spot { IsStanding spot.now }
    ensures comes { (to_dirs dirs : List ℕ) → through ≡ goes_through (moving_of from.now) to_dirs → Comes (over (renaming_to (seen hand.now) (moving_of from.now) to_dirs dirs (spot_of spot.now)) hand.now) result }
    ensures looks { (to_dirs dirs : List ℕ) → through ≡ goes_through (moving_of from.now) to_dirs → UnlessNoMemory result (Looks hand.now.sectors.now.entries hand.now.held.now looked.old looked.new (renaming_to (seen hand.now) (moving_of from.now) to_dirs dirs (spot_of spot.now))) }
{
    match spot {
        Spot::AtName {
            directory,
            name,
            found,
        } => {
            if through {
                return Err(Stop::Refused(Reply::Inval));
            }
            let to = Named {
                directory: *directory,
                found: *found,
            };
            move_onto(alloc, hand, from, &to, name, looked)
        }
        Spot::AtGap { directory, name } => {
            if through {
                return Err(Stop::Refused(Reply::Inval));
            }
            move_to(alloc, hand, from, directory, name, looked)
        }
        Spot::AtRoot => Err(Stop::Refused(Reply::Inval)),
        Spot::Lost(refusal) => Err(Stop::Refused(refusal.reply())),
    }
}

// The name `from` becomes `name`, which is there, in the place `to`.
fn move_onto(
    alloc: Global,
    hand: &Hand,
    from: &Named,
    to: &Named,
    name: &Name,
    looked: &mut Looked,
) -> Result<Outcome, Stop>
    requires from { IsNamed from.now }
    requires to { IsNamed to.now }
    ensures comes { (dirs : List ℕ) → Comes (over (moving_onto (moving_of from.now) to.now.directory.number (stored to.now.directory.inode) name.now to.now.found.place (entered to.now.found.entry) dirs) hand.now) result }
    ensures looks { (dirs : List ℕ) → UnlessNoMemory result (Looks hand.now.sectors.now.entries hand.now.held.now looked.old looked.new (moving_onto (moving_of from.now) to.now.directory.number (stored to.now.directory.inode) name.now to.now.found.place (entered to.now.found.entry) dirs)) }
{
    let number = to.found.entry.inode;
    if number == from.found.entry.inode {
        return Ok(Outcome::unchanged(alloc, Reply::Ok));
    }
    match kinds_refused(&from.found.entry, &to.found.entry) {
        Some(reply) => Err(Stop::Refused(reply)),
        None => {
            let inode = inode_of(hand.sectors, number, looked)?;
            replace(
                alloc,
                hand,
                from,
                to,
                name,
                &NumberedInode { number, inode },
                looked,
            )
        }
    }
}

// A directory comes only onto a directory, and only a directory onto one.
fn kinds_refused(moved: &DirEntry, replaced: &DirEntry) -> Option<Reply>
    ensures { result ≡ (if (entered moved.now).kind == 2 && not ((entered replaced.now).kind == 2) then Some reply.NotDir else (if (entered replaced.now).kind == 2 && not ((entered moved.now).kind == 2) then Some reply.IsDir else None)) }
{
    match (is_directory(moved), is_directory(replaced)) {
        (true, false) => Some(Reply::NotDir),
        (false, true) => Some(Reply::IsDir),
        _ => None,
    }
}

// The name comes into the place of the node that has it, which loses it.
fn replace(
    alloc: Global,
    hand: &Hand,
    from: &Named,
    to: &Named,
    name: &Name,
    node: &NumberedInode,
    looked: &mut Looked,
) -> Result<Outcome, Stop>
    requires from { IsNamed from.now }
    requires to { IsNamed to.now }
    requires used { IsUsed node.now.inode }
    ensures comes { (dirs : List ℕ) → Comes (over (replacing_node (moving_of from.now) to.now.directory.number (stored to.now.directory.inode) name.now to.now.found.place node.now.number dirs (Some (stored node.now.inode))) hand.now) result }
    ensures looks { (dirs : List ℕ) → UnlessNoMemory result (Looks hand.now.sectors.now.entries hand.now.held.now looked.old looked.new (replacing_node (moving_of from.now) to.now.directory.number (stored to.now.directory.inode) name.now to.now.found.place node.now.number dirs (Some (stored node.now.inode)))) }
{
    if has_entries(&node.inode) {
        return Err(Stop::Refused(Reply::NotEmpty));
    }
    segments_needed(hand, node, looked)?;
    Ok(replaced(alloc, from, to, name, node)?)
}

// The node is a directory, and not empty.
fn has_entries(node: &Inode) -> bool
    ensures { result ≡ (((stored node.now).kind == 2) && nat_lt 0 (stored node.now).size) }
{
    node.kind == KIND_DIRECTORY && node.size > 0
}

// The edits of it.
fn replaced(
    alloc: Global,
    from: &Named,
    to: &Named,
    name: &Name,
    node: &NumberedInode,
) -> Result<Outcome, NoMemory>
    requires from { IsNamed from.now }
    requires to { IsNamed to.now }
    requires used { IsUsed node.now.inode }
    ensures { Does (take_entry from.now.directory.number (stored from.now.directory.inode) from.now.found.place ++ (replace_entry (stored to.now.directory.inode) to.now.found.place (renamed_entry (moving_of from.now) name.now) ++ less node.now.number (stored node.now.inode))) result }
{
    let entry = renamed(from, name);
    let mut edits = Vec::new(alloc);
    take_entry(&mut edits, &from.directory, from.found.place)?;
    replace_entry(&mut edits, &to.directory.inode, to.found.place, &entry)?;
    fewer(&mut edits, node)?;
    Ok(Outcome {
        reply: Reply::Ok,
        edits,
    })
}

// The entry under its new name.
fn renamed(from: &Named, name: &Name) -> DirEntry
    ensures { entered result ≡ renamed_entry (moving_of from.now) name.now }
{
    entry_for(name, from.found.entry.inode, from.found.entry.kind)
}

// The name `from` becomes `name`, which isn't there, in the directory `to`.
fn move_to(
    alloc: Global,
    hand: &Hand,
    from: &Named,
    to: &NumberedInode,
    name: &Name,
    looked: &mut Looked,
) -> Result<Outcome, Stop>
    requires from { IsNamed from.now }
    requires to { IsDirectory to.now.inode }
    ensures comes { (dirs : List ℕ) → Comes (over (moving_to (seen hand.now) (moving_of from.now) to.now.number (stored to.now.inode) name.now dirs) hand.now) result }
    ensures looks { (dirs : List ℕ) → UnlessNoMemory result (Looks hand.now.sectors.now.entries hand.now.held.now looked.old looked.new (moving_to (seen hand.now) (moving_of from.now) to.now.number (stored to.now.inode) name.now dirs)) }
{
    if to.number == from.directory.number {
        return Ok(moved_within(alloc, from, name)?);
    }
    if is_full(&to.inode) {
        return Err(Stop::Refused(Reply::DirFull));
    }
    let room = room_for(hand, &to.inode, looked)?;
    Ok(moved_between(alloc, from, to, name, &room)?)
}

// In its own directory the entry gets the name where it stands.
fn moved_within(alloc: Global, from: &Named, name: &Name) -> Result<Outcome, NoMemory>
    requires { IsNamed from.now }
    ensures { Does (replace_entry (stored from.now.directory.inode) from.now.found.place (renamed_entry (moving_of from.now) name.now)) result }
{
    let entry = renamed(from, name);
    let mut edits = Vec::new(alloc);
    replace_entry(&mut edits, &from.directory.inode, from.found.place, &entry)?;
    Ok(Outcome {
        reply: Reply::Ok,
        edits,
    })
}

// The other directory gets an entry, and then the first one loses its own.
fn moved_between(
    alloc: Global,
    from: &Named,
    to: &NumberedInode,
    name: &Name,
    room: &Room,
) -> Result<Outcome, NoMemory>
    requires from { IsNamed from.now }
    requires to { IsDirectory to.now.inode }
    requires room { IsRoomOf to.now.inode room.now }
    ensures { Does (plans.enter to.now.number (stored to.now.inode) (renamed_entry (moving_of from.now) name.now) (room_in room.now) ++ take_entry from.now.directory.number (stored from.now.directory.inode) from.now.found.place) result }
{
    let entry = renamed(from, name);
    let mut edits = Vec::new(alloc);
    enter(&mut edits, to, &entry, room)?;
    take_entry(&mut edits, &from.directory, from.found.place)?;
    Ok(Outcome {
        reply: Reply::Ok,
        edits,
    })
}
