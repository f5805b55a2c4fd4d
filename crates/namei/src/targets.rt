// Where the targets of links lead.
ghost use Rattle.std.specs.Prelude.{◌≡◌, ◌++◌, ◌≤◌, ℕ, List, IfOk, OnOk, []};
ghost use Rattle.std.specs.Result.{result_ok};
ghost use Rattle.frang_base.specs.PathText.{path_of};
ghost use Rattle.tree_definitions.specs.Resolve.{is_absolute, target_text};
ghost use Rattle.disk_definitions.specs.Held.{Segments};
ghost use Rattle.disk_definitions.specs.Store.{stored};
ghost use Rattle.disk_definitions.specs.Ask.{Ask, ReadInode};
ghost use Rattle.disk_definitions.specs.Resolving as lines;
ghost use Rattle.dir_lookup.specs.Looks.{looks_of};
ghost use Rattle.dir_lookup.specs.Reading.{reading};
ghost use Rattle.dir_lookup.specs.Stored.{IsUsed};
ghost use Rattle.namei.specs.Looks.{LooksOn, way_looks};
ghost use Rattle.namei.specs.Walks.{way_as, way_from};

use dir_lookup::{Looked, inode_at};
use disk_definitions::Inode;
use frang_base::limits::KIND_LINK;
use frang_base::{Name, NoMemory, Path, PathFault, Sector, Text, parse_path};
use std::alloc::Global;
use usable_sectors::Usable;

// Where a link leads: a sector is needed first, its target is no path, or these names lead on from the root, or from the directory that
// holds the link.
#[derive(Drop)]
pub(crate) enum Way {
    Need(Sector),
    Nowhere,
    FromRoot(Path),
    FromHere(Path),
}

// The way of a link, before the names that are left.
pub(crate) fn way_at(
    alloc: Global,
    sectors: &Usable,
    link: u32,
    names: &[Name],
    looked: &mut Looked,
) -> Result<Way, NoMemory>
    ensures looks { (held : Segments) (next : ℕ → List (List ℕ) → List (List ℕ) → Ask lines.Resolution) (dir : ℕ) (above : List (List ℕ)) → IfOk result (λ way. LooksOn looked.old looked.new (looks_of (ReadInode link (lines.with_target (λ target. lines.at_target next (is_absolute target) (path_of (target_text target)) dir above names.now))) sectors.now.entries held) (way_looks way (λ names. looks_of (next 0 [] names) sectors.now.entries held) (λ names. looks_of (next dir above names) sectors.now.entries held))) }
    ensures leads { (held : Segments) (next : ℕ → List (List ℕ) → List (List ℕ) → Ask lines.Resolution) (dir : ℕ) (above : List (List ℕ)) → IfOk result (λ way. reading (ReadInode link (lines.with_target (λ target. lines.at_target next (is_absolute target) (path_of (target_text target)) dir above names.now))) sectors.now.entries held ≡ way_as way (λ names. reading (next 0 [] names) sectors.now.entries held) (λ names. reading (next dir above names) sectors.now.entries held)) }
{
    match inode_at(sectors, link, looked) {
        Ok(Some(inode)) => way_of(alloc, target_of(&inode), names),
        Ok(None) => Ok(Way::Nowhere),
        Err(need) => Ok(Way::Need(need.0)),
    }
}

// The target of a link; of any other node nothing.
fn target_of(inode: &Inode) -> &[u8]
    requires { IsUsed inode.now }
    ensures { result.now ≡ (stored inode.now).target }
{
    if inode.kind == KIND_LINK {
        &inode.target[..inode.size as usize]
    } else {
        &inode.target[..0]
    }
}

// The way that a target shows.
fn way_of(alloc: Global, target: &[u8], names: &[Name]) -> Result<Way, NoMemory>
    ensures { IfOk result (λ way. way ≡ way_from (is_absolute target.now) (path_of (target_text target.now)) names.now) }
{
    let mut way = match target_path(alloc, target)? {
        Some(way) => way,
        None => return Ok(Way::Nowhere),
    };
    append(&mut way, names)?;
    if is_absolute(target) {
        Ok(Way::FromRoot(way))
    } else {
        Ok(Way::FromHere(way))
    }
}

fn is_absolute(target: &[u8]) -> bool
    ensures { result ≡ is_absolute target.now }
{
    match target {
        [] => false,
        [first, ..] => *first == b'/',
    }
}

// The path of a target, which has `/` put before it where it has none. `None` where that is no path.
fn target_path(alloc: Global, target: &[u8]) -> Result<Option<Path>, NoMemory>
    ensures { IfOk result (λ path. path ≡ result_ok (path_of (target_text target.now))) }
{
    if is_absolute(target) {
        return path_or_none(alloc, target);
    }
    let mut text = Text::of(alloc, b"/")?;
    text.append(target)?;
    path_or_none(alloc, text.as_slice())
}

// The path of a text. `None` where it is none.
fn path_or_none(alloc: Global, text: &[u8]) -> Result<Option<Path>, NoMemory>
    ensures { IfOk result (λ path. path ≡ result_ok (path_of text.now)) }
{
    match parse_path(alloc, text) {
        Ok(path) => Ok(Some(path)),
        Err(PathFault::NoMemory) => Err(NoMemory),
        Err(PathFault::BadName | PathFault::TooLong | PathFault::TooDeep) => Ok(None),
    }
}

// Names after the others.
fn append(path: &mut Path, names: &[Name]) -> Result<(), NoMemory>
    ensures { OnOk result (path.new ≡ path.old ++ names.now) }
{
    for name in names {
        path.push(name.copy())?;
    }
    Ok(())
}
