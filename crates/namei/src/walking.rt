// The walk of a path.
ghost use Rattle.std.specs.Prelude.{◌≡◌};
ghost use Rattle.disk_definitions.specs.Held.{Segments};
ghost use Rattle.disk_definitions.specs.Ask.{Got, bind};
ghost use Rattle.disk_definitions.specs.Walks as walks;
ghost use Rattle.dir_lookup.specs.Reading.{read_of, reading};
ghost use Rattle.dir_lookup.specs.Spots.{spot_of};
ghost use Rattle.namei.specs.Leads.{LeadsOverDisks};
ghost use Rattle.namei.specs.Steps.{step_at, step_of};

use dir_lookup::{Looked, Need, Refusal, Spot, walk_spot};
use frang_base::{Path, Sector};
use usable_sectors::Usable;

/// Where a walk leads over the sectors that are cached.
#[derive(Clone, Copy, PartialEq, Eq)]
pub enum Step {
    /// This sector isn't cached, and is the first that the walk needs.
    Need(Sector),
    /// The path names the node of this inode.
    At { inode: u32 },
    /// A name isn't there.
    NoEnt,
    /// A node on the way is no directory.
    NotDir,
}

/// The walk of a path from the root, whose inode is 0. It takes no memory. Over every disk that stands for a tree and of which the sectors are, it
/// leads where the tree's walk does: `Need` names the first sector that it looks at and that isn't cached, `At` the inode of the node that the path
/// names, `NoEnt` and `NotDir` come exactly where the tree has them.
pub fn walk(path: &Path, sectors: &Usable, root: u32) -> Step
    requires { root ≡ 0 }
    ensures is { (held : Segments) → result ≡ step_of (reading (walks.walk path.now) sectors.now.entries held) }
    ensures leads { LeadsOverDisks path.now sectors.now.entries result }
{
    walked_step(path, sectors, root)
}

// The walk as the definitions have it.
fn walked_step(path: &Path, sectors: &Usable, root: u32) -> Step
    requires { root ≡ 0 }
    ensures { (held : Segments) → result ≡ step_of (reading (walks.walk path.now) sectors.now.entries held) }
{
    match spot_at(path, sectors) {
        Ok(spot) => step_at(&spot, root),
        Err(need) => Step::Need(need.0),
    }
}

// The spot to which it leads; what it looked at isn't asked for.
fn spot_at(path: &Path, sectors: &Usable) -> Result<Spot, Need>
    ensures { (held : Segments) → read_of spot_of result ≡ reading (bind (walks.walk path.now) (λ w. Got w.spot)) sectors.now.entries held }
{
    let mut looked = Looked::unasked();
    walk_spot(sectors, path.as_slice(), &mut looked)
}

// The node of a spot, or why there is none.
fn step_at(spot: &Spot, root: u32) -> Step
    requires { root ≡ 0 }
    ensures { result ≡ step_at (spot_of spot.now) }
{
    match spot {
        Spot::AtRoot => Step::At { inode: root },
        Spot::AtName { found, .. } => Step::At {
            inode: found.entry.inode,
        },
        Spot::AtGap { .. } => Step::NoEnt,
        Spot::Lost(Refusal::NoEnt) => Step::NoEnt,
        Spot::Lost(Refusal::NotDir) => Step::NotDir,
    }
}
