// The node that a path names.
ghost use Rattle.std.specs.Prelude.{◌≡◌, IfOk};
ghost use Rattle.disk_definitions.specs.Held.{Segments};
ghost use Rattle.dir_lookup.specs.Spots.{spot_of};
ghost use Rattle.dir_lookup.specs.Stored.{IsUsed};
ghost use Rattle.plan_steps.specs.Looking.{LooksAtInode, LooksAtTarget};
ghost use Rattle.plan_steps.specs.Targets.{FindsInode, FindsTarget, target_at, target_of};

use crate::stop::Stop;
use dir_lookup::{Looked, Refusal, Spot, inode_at, walk_spot};
use disk_definitions::Inode;
use frang_base::limits::{KIND_DIRECTORY, ROOT_INODE};
use frang_base::{Path, Reply};
use usable_sectors::Usable;

/// A node by its inode's number and its kind, as its entry has it.
#[derive(Clone, Copy, PartialEq, Eq)]
pub struct Target {
    pub inode: u32,
    pub kind: u8,
}

/// The node that a path names, or how the walk was refused. What the walk looked at comes to `looked`.
pub fn target_of(sectors: &Usable, path: &Path, looked: &mut Looked) -> Result<Target, Stop>
    ensures finds { (held : Segments) → FindsTarget sectors.now.entries held path.now result }
    ensures looks { (held : Segments) → LooksAtTarget sectors.now.entries held looked.old looked.new path.now result }
{
    let spot = walk_spot(sectors, path.as_slice(), looked)?;
    match target_at(&spot) {
        Ok(target) => Ok(target),
        Err(refusal) => Err(Stop::Refused(refusal.reply())),
    }
}

// The node of a spot.
fn target_at(spot: &Spot) -> Result<Target, Refusal>
    ensures { target_of result ≡ target_at (spot_of spot.now) }
{
    match spot {
        Spot::AtRoot => Ok(Target {
            inode: ROOT_INODE,
            kind: KIND_DIRECTORY,
        }),
        Spot::AtName { found, .. } => Ok(Target {
            inode: found.entry.inode,
            kind: found.entry.kind,
        }),
        Spot::AtGap { .. } => Err(Refusal::NoEnt),
        Spot::Lost(refusal) => Err(*refusal),
    }
}

/// The inode of a node that was reached. A free one is refused as a name that isn't there. Its sector comes to `looked`.
pub fn inode_of(sectors: &Usable, i: u32, looked: &mut Looked) -> Result<Inode, Stop>
    ensures finds { (held : Segments) → FindsInode sectors.now.entries held i result }
    ensures used { IfOk result IsUsed }
    ensures looks { (held : Segments) → LooksAtInode sectors.now.entries held looked.old looked.new i result }
{
    let found = inode_at(sectors, i, looked)?;
    match found {
        Some(inode) => Ok(inode),
        None => Err(Stop::Refused(Reply::NoEnt)),
    }
}
