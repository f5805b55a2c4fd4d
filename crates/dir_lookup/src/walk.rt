// The walk of a path over cached sectors.
ghost use Rattle.std.specs.Prelude.{◌≡◌, ◌≤◌, ◌||◌, ℕ, Some, List, []};
ghost use Rattle.frang_base.specs.declared.limits.TheConstants.{INODE_BLOCKS_MAX};
ghost use Rattle.disk_definitions.specs.Held.{Segments};
ghost use Rattle.disk_definitions.specs.Store.{stored};
ghost use Rattle.disk_definitions.specs.Ask.{Got, ReadInode, bind};
ghost use Rattle.disk_definitions.specs.Walks as walks;
ghost use Rattle.dir_lookup.specs.Looked.{Adds};
ghost use Rattle.dir_lookup.specs.Looks.{looks_of};
ghost use Rattle.dir_lookup.specs.Reading.{Reads};
ghost use Rattle.dir_lookup.specs.Spots.{has_inode, led_of, leads, looked_in, spot_of, walked_in};
ghost use Rattle.dir_lookup.specs.Passing.{PassesFrom};

use crate::{Looked, Need, NumberedInode, Refusal, Spot, first_named, inode_at};
use frang_base::Name;
use frang_base::limits::{KIND_DIRECTORY, ROOT_INODE};
use usable_sectors::Usable;

/// A name looked up in a directory of at most 16 blocks.
pub fn look_up(
    sectors: &Usable,
    directory: &NumberedInode,
    name: &Name,
    looked: &mut Looked,
) -> Result<Spot, Need>
    requires { directory.now.inode.blocks ≤ INODE_BLOCKS_MAX }
    ensures looks { (dirs : List ℕ) (held : Segments) → Adds looked.old looked.new (looks_of (walks.look_up dirs directory.now.number (stored directory.now.inode) name.now) sectors.now.entries held) }
    ensures reads { (dirs : List ℕ) → Reads (λ s. walked_in dirs directory.now.number (spot_of s)) (walks.look_up dirs directory.now.number (stored directory.now.inode) name.now) sectors.now.entries result }
{
    let found = first_named(sectors, &directory.inode, name, looked)?;
    let name = name.copy();
    match found {
        Some(found) => Ok(Spot::AtName {
            directory: *directory,
            name,
            found,
        }),
        None => Ok(Spot::AtGap {
            directory: *directory,
            name,
        }),
    }
}

/// A name below the node of an inode, which has to be a directory.
pub fn step(sectors: &Usable, number: u32, name: &Name, looked: &mut Looked) -> Result<Spot, Need>
    ensures looks { (dirs : List ℕ) (held : Segments) → Adds looked.old looked.new (looks_of (ReadInode number (walks.in_inode dirs number name.now)) sectors.now.entries held) }
    ensures reads { (dirs : List ℕ) → Reads (λ s. walked_in dirs number (spot_of s)) (ReadInode number (walks.in_inode dirs number name.now)) sectors.now.entries result }
{
    let found = inode_at(sectors, number, looked)?;
    match found {
        Some(inode) => below(sectors, &NumberedInode { number, inode }, name, looked),
        None => Ok(Spot::Lost(Refusal::NoEnt)),
    }
}

// A name below a node, which has to be a directory.
fn below(
    sectors: &Usable,
    node: &NumberedInode,
    name: &Name,
    looked: &mut Looked,
) -> Result<Spot, Need>
    requires { node.now.inode.blocks ≤ INODE_BLOCKS_MAX }
    ensures looks { (dirs : List ℕ) (held : Segments) → Adds looked.old looked.new (looks_of (walks.in_inode dirs node.now.number name.now (Some (stored node.now.inode))) sectors.now.entries held) }
    ensures reads { (dirs : List ℕ) → Reads (λ s. walked_in dirs node.now.number (spot_of s)) (walks.in_inode dirs node.now.number name.now (Some (stored node.now.inode))) sectors.now.entries result }
{
    if node.inode.kind == KIND_DIRECTORY {
        look_up(sectors, node, name, looked)
    } else {
        Ok(Spot::Lost(Refusal::NotDir))
    }
}

/// Where the walk of a path leads, from the root on.
pub fn walk_spot(sectors: &Usable, path: &[Name], looked: &mut Looked) -> Result<Spot, Need>
    ensures looks { (held : Segments) → Adds looked.old looked.new (looks_of (walks.walk path.now) sectors.now.entries held) }
    ensures reads { Reads spot_of (bind (walks.walk path.now) (λ w. Got w.spot)) sectors.now.entries result }
{
    // Which directories it passes is asked of none.
    let (spot, _) = walk_passing(sectors, path, ROOT_INODE, looked)?;
    Ok(spot)
}

/// Where the walk of a path leads, from the root on, and whether it looks up a name in the directory of this inode.
pub fn walk_passing(
    sectors: &Usable,
    path: &[Name],
    inode: u32,
    looked: &mut Looked,
) -> Result<(Spot, bool), Need>
    ensures looks { (held : Segments) → Adds looked.old looked.new (looks_of (walks.walk path.now) sectors.now.entries held) }
    ensures passes { (held : Segments) → PassesFrom sectors.now.entries held 0 path.now inode [] result }
{
    passes_from(sectors, ROOT_INODE, path, inode, looked)
}

// Where the walk of names leads, from an inode on, and whether it looks up a name in the directory of this inode.
fn passes_from(
    sectors: &Usable,
    from: u32,
    names: &[Name],
    inode: u32,
    looked: &mut Looked,
) -> Result<(Spot, bool), Need>
    ensures looks { (held : Segments) (dirs : List ℕ) → Adds looked.old looked.new (looks_of (walks.walk_from dirs from names.now) sectors.now.entries held) }
    ensures passes { (held : Segments) (dirs : List ℕ) → PassesFrom sectors.now.entries held from names.now inode dirs result }
{
    match names {
        [] => Ok((Spot::AtRoot, false)),
        [name] => {
            let spot = step(sectors, from, name, looked)?;
            let here = is_looked_in(&spot, from, inode);
            Ok((spot, here))
        }
        [name, rest @ ..] => {
            let spot = step(sectors, from, name, looked)?;
            let here = is_looked_in(&spot, from, inode);
            match onward(&spot) {
                Ok(next) => {
                    let (last, there) = passes_from(sectors, next, rest, inode, looked)?;
                    Ok((last, either(here, there)))
                }
                Err(refusal) => Ok((Spot::Lost(refusal), here)),
            }
        }
    }
}

fn either(here: bool, there: bool) -> bool
    ensures { result ≡ (here || there) }
{
    here || there
}

// The last name was looked up in the directory `from`, and it is this one.
fn is_looked_in(spot: &Spot, from: u32, inode: u32) -> bool
    ensures { result ≡ has_inode inode (looked_in from (spot_of spot.now)) }
{
    match spot {
        Spot::AtName { .. } => from == inode,
        Spot::AtGap { .. } => from == inode,
        Spot::AtRoot => false,
        Spot::Lost(_) => false,
    }
}

// The inode of the directory at which the walk goes on.
fn onward(spot: &Spot) -> Result<u32, Refusal>
    ensures { led_of result ≡ leads (spot_of spot.now) }
{
    match spot {
        Spot::AtRoot => Ok(ROOT_INODE),
        Spot::AtName { found, .. } if found.entry.kind == KIND_DIRECTORY => Ok(found.entry.inode),
        Spot::AtName { .. } => Err(Refusal::NotDir),
        Spot::AtGap { .. } => Err(Refusal::NoEnt),
        Spot::Lost(refusal) => Err(*refusal),
    }
}
