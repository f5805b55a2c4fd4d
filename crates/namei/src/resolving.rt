// Where a path leads once symbolic links are followed.
ghost use Rattle.std.specs.Prelude.{◌≡◌, ◌++◌, ◌∷◌, [], IfOk, OnOk};
ghost use Rattle.disk_definitions.specs.Held.{Segments};
ghost use Rattle.disk_definitions.specs.Resolving as lines;
ghost use Rattle.dir_lookup.specs.Looked.{Adds};
ghost use Rattle.dir_lookup.specs.Looks.{looks_of};
ghost use Rattle.dir_lookup.specs.Reading.{reading};
ghost use Rattle.namei.specs.Resolutions.{resolved_as, end_as};
ghost use Rattle.namei.specs.Walks.{after, end_of, read_as};
ghost use Rattle.namei.specs.Resolves.{ResolvesOverDisks};

use crate::ending::{PathEnd, Walked, leads, looped, lost, with_node};
use crate::onward::{Next, next_at};
use crate::targets::{Way, way_at};
use dir_lookup::{Looked, Refusal};
use frang_base::limits::{KIND_DIRECTORY, LINKS_FOLLOWED_MAX, ROOT_INODE};
use frang_base::{Name, NoMemory, Path, Sector};
use std::alloc::Global;
use usable_sectors::Usable;

/// Where a path leads over the sectors that are cached, once links are followed.
#[derive(Drop)]
pub enum Resolved {
    /// This sector isn't cached, and is the first that is needed.
    Need(Sector),
    /// The path leads where this one leads, on whose way there is no link: every name of it but the last is a directory's.
    At(Path),
    /// A name on the way isn't there, or a link's target is no path.
    NoEnt,
    /// A node on the way is no directory.
    NotDir,
    /// There is one link more than may be followed.
    Loop,
}

/// Where a path leads from the root, whose inode is 0, once links are followed, the last name's too where `last` is true. Over every disk that stands
/// for a tree and of which the sectors are, it leads where the tree's walk does: `Need` names the first sector that it looks at and that isn't cached,
/// `At` the path to which the tree's walk leads, and `NoEnt`, `NotDir` and `Loop` come exactly where the tree has them. It takes time proportional to
/// the names that are walked, those of the links' targets included. Its one refusal is want of memory.
pub fn resolve(
    alloc: Global,
    path: &Path,
    last: bool,
    sectors: &Usable,
    root: u32,
) -> Result<Resolved, NoMemory>
    requires { root ≡ 0 }
    ensures is { (held : Segments) → IfOk result (λ r. r ≡ resolved_as (reading (lines.resolve last path.now) sectors.now.entries held)) }
    ensures leads { IfOk result (ResolvesOverDisks last path.now sectors.now.entries) }
{
    from_root(alloc, path, last, sectors, root)
}

// Where the walk from the root leads, as the definitions have it.
fn from_root(
    alloc: Global,
    path: &Path,
    last: bool,
    sectors: &Usable,
    root: u32,
) -> Result<Resolved, NoMemory>
    requires { root ≡ 0 }
    ensures { (held : Segments) → IfOk result (λ r. r ≡ resolved_as (reading (lines.resolve last path.now) sectors.now.entries held)) }
{
    let mut looked = Looked::unasked();
    let walked = walk_links(alloc, path, last, sectors, root, &mut looked)?;
    Ok(answer_of(walked))
}

// Where a walk leads, without its trail.
fn answer_of(walked: Walked) -> Resolved
    ensures { result ≡ resolved_as (read_as walked) }
{
    match walked {
        Walked::Need(sector) => Resolved::Need(sector),
        Walked::Ends(walk) => end_resolved(walk.end),
    }
}

fn end_resolved(end: PathEnd) -> Resolved
    ensures { result ≡ end_as (end_of end) }
{
    match end {
        PathEnd::At { path, .. } => Resolved::At(path),
        PathEnd::NoEnt => Resolved::NoEnt,
        PathEnd::NotDir => Resolved::NotDir,
        PathEnd::Loop => Resolved::Loop,
    }
}

/// The walk of a path from the root, whose inode is 0, links followed, the last name's too where `last` is true: how it ends, and its trail; or the first
/// sector that it looks at and that isn't cached. What it looked at comes to `looked`, before a sector that isn't cached too. Its one refusal is want of memory.
pub fn walk_links(
    alloc: Global,
    path: &Path,
    last: bool,
    sectors: &Usable,
    root: u32,
    looked: &mut Looked,
) -> Result<Walked, NoMemory>
    requires { root ≡ 0 }
    ensures looks { (held : Segments) → OnOk result (Adds looked.old looked.new (looks_of (lines.resolve last path.now) sectors.now.entries held)) }
    ensures leads { (held : Segments) → IfOk result (λ w. read_as w ≡ reading (lines.resolve last path.now) sectors.now.entries held) }
{
    let ground = Ground {
        alloc,
        sectors,
        last,
    };
    let above = Path::new(alloc);
    let names = path.as_slice();
    let trail = Vec::new(alloc);
    let left = LINKS_FOLLOWED_MAX;
    walk_on(&ground, left, root, above, names, trail, looked)
}

// What a walk goes over: the cached sectors, and whether the last name is followed.
#[derive(Clone, Copy)]
struct Ground<'a> {
    alloc: Global,
    sectors: &'a Usable<'a>,
    last: bool,
}

// A walk from a directory on, whose own path is `above`, with so many links left to follow, behind a trail.
fn walk_on(
    ground: &Ground,
    left: usize,
    dir: u32,
    above: Path,
    names: &[Name],
    trail: Vec<u32>,
    looked: &mut Looked,
) -> Result<Walked, NoMemory>
    ensures looks { (held : Segments) → OnOk result (Adds looked.old looked.new (looks_of (lines.resolve_from left ground.now.last dir above names.now) ground.now.sectors.now.entries held)) }
    ensures leads { (held : Segments) → IfOk result (λ w. read_as w ≡ after trail.items (reading (lines.resolve_from left ground.now.last dir above names.now) ground.now.sectors.now.entries held)) }
{
    let (name, rest) = match names {
        [] => return Ok(leads(above, Some(KIND_DIRECTORY), trail)),
        [name, rest @ ..] => (name, rest),
    };
    match next_at(ground.sectors, ground.last, dir, name, rest, looked) {
        Next::Need(sector) => Ok(Walked::Need(sector)),
        Next::Lost(refusal) => Ok(lost(refusal, trail)),
        Next::Stays(refusal) => Ok(lost(refusal, with_node(trail, dir)?)),
        Next::Ends(kind) => {
            let trail = with_node(trail, dir)?;
            Ok(leads(with_name(above, name)?, kind, trail))
        }
        Next::Into(inode) => {
            let trail = with_node(trail, dir)?;
            let above = with_name(above, name)?;
            walk_on(ground, left, inode, above, rest, trail, looked)
        }
        Next::Follows(link) => {
            let holder = with_node(trail, dir)?;
            if left == 0 {
                return Ok(looped(holder));
            }
            let trail = with_node(holder, link)?;
            match way_at(ground.alloc, ground.sectors, link, rest, looked)? {
                Way::Need(sector) => Ok(Walked::Need(sector)),
                Way::Nowhere => Ok(lost(Refusal::NoEnt, trail)),
                Way::FromRoot(way) => {
                    let root = Path::new(ground.alloc);
                    walk_on(
                        ground,
                        left - 1,
                        ROOT_INODE,
                        root,
                        way.as_slice(),
                        trail,
                        looked,
                    )
                }
                Way::FromHere(way) => {
                    walk_on(ground, left - 1, dir, above, way.as_slice(), trail, looked)
                }
            }
        }
    }
}

// The path with one name more.
fn with_name(path: Path, name: &Name) -> Result<Path, NoMemory>
    ensures { IfOk result (λ longer. longer ≡ path ++ name.now ∷ []) }
{
    let mut longer = path;
    longer.push(name.copy())?;
    Ok(longer)
}
