// Names that are removed.
ghost use Rattle.std.specs.Prelude.{◌++◌, ℕ, List};
ghost use Rattle.disk_definitions.specs.Store.{stored};
ghost use Rattle.disk_definitions.specs.Changes.{take_entry};
ghost use Rattle.disk_definitions.specs.NamePlans as plans;
ghost use Rattle.dir_lookup.specs.Hands.{over};
ghost use Rattle.dir_lookup.specs.Spots.{spot_of};
ghost use Rattle.dir_lookup.specs.Stored.{IsUsed};
ghost use Rattle.plan_steps.specs.Ends.{Comes};
ghost use Rattle.plan_steps.specs.Looking.{Looks, UnlessNoMemory};
ghost use Rattle.plan_steps.specs.Spots.{IsStanding};
ghost use Rattle.plan_steps.specs.Outcomes.{Does};
ghost use Rattle.op_dir.specs.Moving.{IsNamed};

use crate::named::Named;
use dir_lookup::{Hand, Looked, NumberedInode, Spot};
use frang_base::limits::KIND_DIRECTORY;
use frang_base::{NoMemory, Path, Reply};
use plan_steps::{Outcome, Stop, fewer, inode_of, segments_needed, take_entry, walked};
use std::alloc::Global;

/// A name of a file or a link goes, and with its last name the node.
pub fn unlink(alloc: Global, hand: &Hand, path: &Path, looked: &mut Looked) -> Result<Outcome, Stop>
    ensures comes { Comes (over (plans.plan_unlinked path.now) hand.now) result }
    ensures looks { UnlessNoMemory result (Looks hand.now.sectors.now.entries hand.now.held.now looked.old looked.new (plans.plan_unlinked path.now)) }
{
    let spot = walked(hand.sectors, path, looked)?;
    unlink_at(alloc, hand, &spot, looked)
}

// The name goes to which the path leads.
fn unlink_at(alloc: Global, hand: &Hand, spot: &Spot, looked: &mut Looked) -> Result<Outcome, Stop>
    requires { IsStanding spot.now }
    ensures comes { (dirs : List ℕ) → Comes (over (plans.unlinking dirs (spot_of spot.now)) hand.now) result }
    ensures looks { (dirs : List ℕ) → UnlessNoMemory result (Looks hand.now.sectors.now.entries hand.now.held.now looked.old looked.new (plans.unlinking dirs (spot_of spot.now))) }
{
    match spot {
        Spot::AtName {
            directory,
            found,
            ..
        } => {
            let number = found.entry.inode;
            if found.entry.kind == KIND_DIRECTORY {
                return Err(Stop::Refused(Reply::IsDir));
            }
            let inode = inode_of(hand.sectors, number, looked)?;
            let from = Named {
                directory: *directory,
                found: *found,
            };
            remove(alloc, hand, &from, &NumberedInode { number, inode }, looked)
        }
        Spot::AtRoot => Err(Stop::Refused(Reply::IsDir)),
        Spot::AtGap { .. } => Err(Stop::Refused(Reply::NoEnt)),
        Spot::Lost(refusal) => Err(Stop::Refused(refusal.reply())),
    }
}

/// An empty directory goes with its name.
pub fn remove_directory(
    alloc: Global,
    hand: &Hand,
    path: &Path,
    looked: &mut Looked,
) -> Result<Outcome, Stop>
    ensures comes { Comes (over (plans.plan_dir_removed path.now) hand.now) result }
    ensures looks { UnlessNoMemory result (Looks hand.now.sectors.now.entries hand.now.held.now looked.old looked.new (plans.plan_dir_removed path.now)) }
{
    let spot = walked(hand.sectors, path, looked)?;
    remove_at(alloc, hand, &spot, looked)
}

// The directory goes to which the path leads.
fn remove_at(alloc: Global, hand: &Hand, spot: &Spot, looked: &mut Looked) -> Result<Outcome, Stop>
    requires { IsStanding spot.now }
    ensures comes { (dirs : List ℕ) → Comes (over (plans.removing dirs (spot_of spot.now)) hand.now) result }
    ensures looks { (dirs : List ℕ) → UnlessNoMemory result (Looks hand.now.sectors.now.entries hand.now.held.now looked.old looked.new (plans.removing dirs (spot_of spot.now))) }
{
    match spot {
        Spot::AtName {
            directory,
            found,
            ..
        } => {
            let number = found.entry.inode;
            if found.entry.kind != KIND_DIRECTORY {
                return Err(Stop::Refused(Reply::NotDir));
            }
            let inode = inode_of(hand.sectors, number, looked)?;
            if inode.size > 0 {
                return Err(Stop::Refused(Reply::NotEmpty));
            }
            let from = Named {
                directory: *directory,
                found: *found,
            };
            remove(alloc, hand, &from, &NumberedInode { number, inode }, looked)
        }
        Spot::AtRoot => Err(Stop::Refused(Reply::Inval)),
        Spot::AtGap { .. } => Err(Stop::Refused(Reply::NoEnt)),
        Spot::Lost(refusal) => Err(Stop::Refused(refusal.reply())),
    }
}

// The entry goes, and its node loses a link.
fn remove(
    alloc: Global,
    hand: &Hand,
    from: &Named,
    node: &NumberedInode,
    looked: &mut Looked,
) -> Result<Outcome, Stop>
    requires from { IsNamed from.now }
    requires used { IsUsed node.now.inode }
    ensures comes { (dirs : List ℕ) → Comes (over (plans.finish_over (plans.fewer_segments node.now.number (stored node.now.inode)) (plans.removed_by from.now.directory.number (stored from.now.directory.inode) from.now.found.place node.now.number (stored node.now.inode) dirs)) hand.now) result }
    ensures looks { (dirs : List ℕ) → UnlessNoMemory result (Looks hand.now.sectors.now.entries hand.now.held.now looked.old looked.new (plans.finish_over (plans.fewer_segments node.now.number (stored node.now.inode)) (plans.removed_by from.now.directory.number (stored from.now.directory.inode) from.now.found.place node.now.number (stored node.now.inode) dirs))) }
{
    segments_needed(hand, node, looked)?;
    Ok(removed(alloc, from, node)?)
}

// The edits of it.
fn removed(alloc: Global, from: &Named, node: &NumberedInode) -> Result<Outcome, NoMemory>
    requires from { IsNamed from.now }
    requires used { IsUsed node.now.inode }
    ensures { Does (take_entry from.now.directory.number (stored from.now.directory.inode) from.now.found.place ++ plans.fewer node.now.number (stored node.now.inode)) result }
{
    let mut edits = Vec::new(alloc);
    take_entry(&mut edits, &from.directory, from.found.place)?;
    fewer(&mut edits, node)?;
    Ok(Outcome {
        reply: Reply::Ok,
        edits,
    })
}
