// The walks of a line, and the operation that comes of them.
ghost use Rattle.std.specs.Prelude.{◌≡◌, ◌++◌, IfOk, OnOk, true};
ghost use Rattle.disk_definitions.specs.Held.{Segments};
ghost use Rattle.disk_definitions.specs.Lines as lines;
ghost use Rattle.tree_definitions.specs.Perform.{Stops as DoesStop, goes};
ghost use Rattle.dir_lookup.specs.Looked.{Adds};
ghost use Rattle.dir_lookup.specs.Looks.{looks_of};
ghost use Rattle.dir_lookup.specs.Reading.{Gives, reading};
ghost use Rattle.file_tree.specs.Walks.{with_path, with_paths};
ghost use Rattle.namei.specs.Walks.{end_of};
ghost use Rattle.line_plan.specs.Lines.{AreWalks, IsLed, line_as, resolved_by};

use dir_lookup::Looked;
use file_tree::{with_path, with_paths};
use frang_base::limits::{KIND_DIRECTORY, ROOT_INODE};
use frang_base::{NoMemory, Op, Path, Reply, Sector};
use namei::{PathEnd, Resolution, Walked, walk_links};
use std::alloc::Global;
use usable_sectors::Usable;

/// An operation over paths without links, or how a walk was refused.
#[derive(Drop)]
pub enum Step {
    Goes(Op),
    Stops(Reply),
}

/// What an operation comes to, and the directories and links that its walks went through, in order, by their inodes.
#[derive(Drop)]
pub struct Resolved {
    pub step: Step,
    pub trail: Vec<u32>,
}

/// What the walks of a line come to over the sectors that are cached.
#[derive(Drop)]
pub enum Line {
    /// This sector isn't cached, and is the first that is needed.
    Need(Sector),
    Comes(Resolved),
}

/// What a line comes to once links are followed: the walks of its paths in the order of its refusals. What they looked at comes to `looked`, before a sector
/// that isn't cached too. Its one refusal is want of memory.
pub fn resolve_line(
    alloc: Global,
    op: &Op,
    sectors: &Usable,
    looked: &mut Looked,
) -> Result<Line, NoMemory>
    ensures looks { (held : Segments) → OnOk result (Adds looked.old looked.new (looks_of (lines.resolved op.now) sectors.now.entries held)) }
    ensures comes { (held : Segments) → IfOk result (λ line. line_as line ≡ reading (lines.resolved op.now) sectors.now.entries held) }
{
    match walks_of(op) {
        Walks::Nothing => as_it_stands(alloc, op),
        Walks::One { path, last } => over_path(alloc, op, path, last, sectors, looked),
        Walks::Two { path, to, dirs } => over_paths(alloc, op, dirs, path, to, sectors, looked),
    }
}

// The walks of an operation.
#[derive(Clone, Copy)]
enum Walks<'a> {
    Nothing,
    // Of one path, whose last name is followed or not.
    One {
        path: &'a Path,
        last: bool,
    },
    // Of one path, and of another where the first leads to a node, a directory where these count.
    Two {
        path: &'a Path,
        to: &'a Path,
        dirs: bool,
    },
}

// The walks that it has; a rename has none from or to the root.
fn walks_of(op: &Op) -> Walks<'_>
    ensures { AreWalks op.now result }
{
    match op {
        Op::Create { path } => Walks::One { path, last: false },
        Op::Mkdir { path } => Walks::One { path, last: false },
        Op::Symlink { path, .. } => Walks::One { path, last: false },
        Op::Unlink { path } => Walks::One { path, last: false },
        Op::Rmdir { path } => Walks::One { path, last: false },
        Op::Stat { path } => Walks::One { path, last: false },
        Op::Readlink { path } => Walks::One { path, last: false },
        Op::Write { path, .. } => Walks::One { path, last: true },
        Op::Fill { path, .. } => Walks::One { path, last: true },
        Op::Truncate { path, .. } => Walks::One { path, last: true },
        Op::Read { path, .. } => Walks::One { path, last: true },
        Op::List { path } => Walks::One { path, last: true },
        Op::Time { path } => Walks::One { path, last: true },
        Op::Link { path, to } => Walks::Two {
            path,
            to,
            dirs: false,
        },
        Op::Rename { path, to } => walks_of_rename(path, to),
        Op::Sync => Walks::Nothing,
        Op::Mount => Walks::Nothing,
        Op::Unmount => Walks::Nothing,
        Op::Crash => Walks::Nothing,
        Op::CrashAt { .. } => Walks::Nothing,
        Op::CutAt { .. } => Walks::Nothing,
        Op::Stall => Walks::Nothing,
    }
}

fn walks_of_rename<'a>(path: &'a Path, to: &'a Path) -> Walks<'a>
    ensures { AreWalks (Op.Rename path.now to.now) result }
{
    if path.is_empty() {
        return Walks::Nothing;
    }
    if to.is_empty() {
        return Walks::Nothing;
    }
    Walks::Two {
        path,
        to,
        dirs: true,
    }
}

// An operation as it stands.
fn as_it_stands(alloc: Global, op: &Op) -> Result<Line, NoMemory>
    ensures { IfOk result (λ line. line_as line ≡ Gives (goes op.now)) }
{
    let step = Step::Goes(op.try_copy()?);
    let trail = Vec::new(alloc);
    Ok(Line::Comes(Resolved { step, trail }))
}

// An operation over one path.
fn over_path(
    alloc: Global,
    op: &Op,
    path: &Path,
    last: bool,
    sectors: &Usable,
    looked: &mut Looked,
) -> Result<Line, NoMemory>
    ensures looks { (held : Segments) → OnOk result (Adds looked.old looked.new (looks_of (lines.over_path last path.now (λ p. with_path op.now p)) sectors.now.entries held)) }
    ensures comes { (held : Segments) → IfOk result (λ line. line_as line ≡ reading (lines.over_path last path.now (λ p. with_path op.now p)) sectors.now.entries held) }
{
    let walked = walk_links(alloc, path, last, sectors, ROOT_INODE, looked)?;
    match walked {
        Walked::Need(sector) => Ok(Line::Need(sector)),
        Walked::Ends(walk) => {
            let resolved = by_walk(op, walk)?;
            Ok(Line::Comes(resolved))
        }
    }
}

// The path to which a walk leads, or the reply of its refusal.
fn led(end: PathEnd) -> Result<Path, Reply>
    ensures { IsLed (end_of end) result }
{
    match end {
        PathEnd::At { path, .. } => Ok(path),
        PathEnd::NoEnt => Err(Reply::NoEnt),
        PathEnd::NotDir => Err(Reply::NotDir),
        PathEnd::Loop => Err(Reply::Loop),
    }
}

// An operation of one path, over what a walk leads to.
fn by_walk(op: &Op, walk: Resolution) -> Result<Resolved, NoMemory>
    ensures { IfOk result (λ r. resolved_by r ≡ record { step = lines.step_of (end_of walk.end) (λ p. with_path op.now p); trail = walk.trail.items }) }
{
    let Resolution { end, trail } = walk;
    let step = match led(end) {
        Ok(path) => Step::Goes(with_path(op, path)?),
        Err(reply) => Step::Stops(reply),
    };
    Ok(Resolved { step, trail })
}

// The walks of a link or a rename: of its second path only where the first one found a node, a directory where these count.
fn over_paths(
    alloc: Global,
    op: &Op,
    dirs: bool,
    path: &Path,
    to: &Path,
    sectors: &Usable,
    looked: &mut Looked,
) -> Result<Line, NoMemory>
    ensures looks { (held : Segments) → OnOk result (Adds looked.old looked.new (looks_of (lines.over_paths dirs path.now to.now (λ p q. with_paths op.now p q)) sectors.now.entries held)) }
    ensures comes { (held : Segments) → IfOk result (λ line. line_as line ≡ reading (lines.over_paths dirs path.now to.now (λ p q. with_paths op.now p q)) sectors.now.entries held) }
{
    let walked = walk_links(alloc, path, false, sectors, ROOT_INODE, looked)?;
    match walked {
        Walked::Need(sector) => Ok(Line::Need(sector)),
        Walked::Ends(walk) => over_second(alloc, op, dirs, walk, to, sectors, looked),
    }
}

// The second of them, by where the first one ended.
fn over_second(
    alloc: Global,
    op: &Op,
    dirs: bool,
    walk: Resolution,
    to: &Path,
    sectors: &Usable,
    looked: &mut Looked,
) -> Result<Line, NoMemory>
    ensures looks { (held : Segments) → OnOk result (Adds looked.old looked.new (looks_of (lines.by_first dirs to.now (λ p q. with_paths op.now p q) (end_of walk.end) walk.trail.items) sectors.now.entries held)) }
    ensures comes { (held : Segments) → IfOk result (λ line. line_as line ≡ reading (lines.by_first dirs to.now (λ p q. with_paths op.now p q) (end_of walk.end) walk.trail.items) sectors.now.entries held) }
{
    let Resolution { end, trail } = walk;
    match end {
        PathEnd::At { path, kind } => {
            if is_found(dirs, kind) {
                return to_second(alloc, op, path, trail, to, sectors, looked);
            }
            let step = Step::Goes(with_paths(op, path, to.try_copy()?));
            Ok(Line::Comes(Resolved { step, trail }))
        }
        PathEnd::NoEnt => Ok(stopped(Reply::NoEnt, trail)),
        PathEnd::NotDir => Ok(stopped(Reply::NotDir, trail)),
        PathEnd::Loop => Ok(stopped(Reply::Loop, trail)),
    }
}

// The refusal of a walk.
fn stopped(reply: Reply, trail: Vec<u32>) -> Line
    ensures { line_as result ≡ Gives (record { step = DoesStop reply; trail = trail.items }) }
{
    let step = Step::Stops(reply);
    Line::Comes(Resolved { step, trail })
}

// Whether a walk found a node, a directory only where these count.
fn is_found(dirs: bool, kind: Option<u8>) -> bool
    ensures { result ≡ lines.is_found dirs kind }
{
    match kind {
        Some(kind) => dirs || kind != KIND_DIRECTORY,
        None => false,
    }
}

// The walk of the second path, behind the trail of the first, which led to `first`.
fn to_second(
    alloc: Global,
    op: &Op,
    first: Path,
    trail: Vec<u32>,
    to: &Path,
    sectors: &Usable,
    looked: &mut Looked,
) -> Result<Line, NoMemory>
    ensures looks { (held : Segments) → OnOk result (Adds looked.old looked.new (looks_of (lines.by_second true trail.items to.now (λ q. with_paths op.now first q)) sectors.now.entries held)) }
    ensures comes { (held : Segments) → IfOk result (λ line. line_as line ≡ reading (lines.by_second true trail.items to.now (λ q. with_paths op.now first q)) sectors.now.entries held) }
{
    let walked = walk_links(alloc, to, false, sectors, ROOT_INODE, looked)?;
    match walked {
        Walked::Need(sector) => Ok(Line::Need(sector)),
        Walked::Ends(walk) => {
            let resolved = by_both(op, first, trail, walk)?;
            Ok(Line::Comes(resolved))
        }
    }
}

// An operation of two paths, over what its walks lead to.
fn by_both(op: &Op, first: Path, trail: Vec<u32>, walk: Resolution) -> Result<Resolved, NoMemory>
    ensures { IfOk result (λ r. resolved_by r ≡ record { step = lines.step_of (end_of walk.end) (λ q. with_paths op.now first q); trail = trail.items ++ walk.trail.items }) }
{
    let Resolution { end, trail: more } = walk;
    let mut trail = trail;
    extend(&mut trail, &more)?;
    let step = match led(end) {
        Ok(path) => Step::Goes(with_paths(op, first, path)),
        Err(reply) => Step::Stops(reply),
    };
    Ok(Resolved { step, trail })
}

// Inodes after the others.
fn extend(trail: &mut Vec<u32>, more: &[u32]) -> Result<(), NoMemory>
    ensures { OnOk result (trail.new.items ≡ trail.old.items ++ more.now) }
{
    for inode in more {
        trail.push(*inode)?;
    }
    Ok(())
}
