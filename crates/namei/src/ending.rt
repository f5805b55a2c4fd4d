// Where a walk through links ends, and the nodes on its way.
ghost use Rattle.std.specs.Prelude.{◌≡◌, ◌++◌, ◌∷◌, [], ℕ, IfOk, List, Option};
ghost use Rattle.disk_definitions.specs.Resolving as lines;
ghost use Rattle.dir_lookup.specs.Reading.{Gives};
ghost use Rattle.dir_lookup.specs.Spots.{reply_of};
ghost use Rattle.frang_base.specs.declared.reply.Reply.TheVariants as reply;
ghost use Rattle.namei.specs.Walks.{read_as};

use dir_lookup::Refusal;
use frang_base::{NoMemory, Path, Sector};

/// How a walk through links ends.
#[derive(Drop)]
pub enum PathEnd {
    /// At a path without links that leads to the same place, with the kind of the node that is there, as inodes and entries have it; `None` where the
    /// last name isn't there.
    At { path: Path, kind: Option<u8> },
    /// A name on the way isn't there, or a link's target is no path.
    NoEnt,
    /// A node on the way is no directory.
    NotDir,
    /// There is one link more than may be followed.
    Loop,
}

/// How a walk through links ends, and its trail.
#[derive(Drop)]
pub struct Resolution {
    pub end: PathEnd,
    /// The directories in which it looked a name up and the links that it followed, in order, by their inodes.
    pub trail: Vec<u32>,
}

/// What a walk through links comes to over the sectors that are cached.
#[derive(Drop)]
pub enum Walked {
    /// This sector isn't cached, and is the first that is needed.
    Need(Sector),
    /// It ends.
    Ends(Resolution),
}

// It leads to this path.
pub(crate) fn leads(path: Path, kind: Option<u8>, trail: Vec<u32>) -> Walked
    ensures { read_as result ≡ Gives (record { end = lines.Leads path kind; trail = trail.items }) }
{
    let end = PathEnd::At { path, kind };
    Walked::Ends(Resolution { end, trail })
}

// It is refused.
pub(crate) fn lost(refusal: Refusal, trail: Vec<u32>) -> Walked
    ensures { read_as result ≡ Gives (record { end = lines.Refused (reply_of refusal); trail = trail.items }) }
{
    let end = match refusal {
        Refusal::NoEnt => PathEnd::NoEnt,
        Refusal::NotDir => PathEnd::NotDir,
    };
    Walked::Ends(Resolution { end, trail })
}

// There is a link too many.
pub(crate) fn looped(trail: Vec<u32>) -> Walked
    ensures { read_as result ≡ Gives (record { end = lines.Refused reply.Loop; trail = trail.items }) }
{
    let end = PathEnd::Loop;
    Walked::Ends(Resolution { end, trail })
}

// The trail with a node more.
pub(crate) fn with_node(trail: Vec<u32>, inode: u32) -> Result<Vec<u32>, NoMemory>
    ensures { IfOk result (λ longer. longer.items ≡ trail.items ++ inode ∷ []) }
{
    let mut longer = trail;
    longer.push(inode)?;
    Ok(longer)
}
