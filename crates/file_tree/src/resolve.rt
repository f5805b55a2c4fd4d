// Where paths lead once symbolic links are followed.
ghost use Rattle.std.specs.Prelude.{◌≡◌, ◌++◌, ◌∷◌, [], ℕ, List, Some, IfOk, OnOk};
ghost use Rattle.frang_base.specs.PathText.{path_of};
ghost use Rattle.tree_definitions.specs.Entries.{entry_at};
ghost use Rattle.tree_definitions.specs.Tree.{node_at};
ghost use Rattle.tree_definitions.specs.Resolve.{At as LeadsTo, Resolution, is_absolute, target_text, at_entry, at_name, resolve_from, resolve};
ghost use Rattle.file_tree.specs.Walks.{next_by, end_of, resolution_of, path_or_none, passes_all, went};

use crate::Tree;
use crate::place::{ROOT, Refusal};
use frang_base::limits::LINKS_FOLLOWED_MAX;
use frang_base::{Name, NoMemory, Path, PathFault, Text, parse_path};
use std::alloc::Global;
use tree_definitions::{Entries, Node, Target};

// How a walk goes on from a name: it ends at a node or at none, goes into a directory, follows a link, or is refused.
#[derive(Drop)]
pub enum Next<'t> {
    Ends(Option<u64>),
    Into(u64),
    Follows(u64, &'t Target),
    Stays(Refusal),
}

/// A path without links that leads to the same place, with the node that is there, if there is one; or the refusal of a walk.
#[derive(Drop)]
pub enum WalkEnd {
    At { path: Path, found: Option<u64> },
    Refused(Refusal),
}

/// How a walk ends, and the directories in which it looked a name up and the links that it followed, in order.
#[derive(Drop)]
pub struct Walk {
    pub end: WalkEnd,
    pub trail: Vec<u64>,
}

// At a node, before the names that are left: a link that is the last one is followed only where that is asked.
fn at_entry<'t>(tree: &'t Tree, last: bool, birth: u64, names: &[Name]) -> Next<'t>
    ensures { (follow : ℕ → List ℕ → Resolution) (into : ℕ → Resolution) (here : List (List ℕ)) → at_entry last (follow birth) (into birth) here birth names.now (node_at tree.now birth) ≡ next_by result follow into here }
{
    match (names, tree.node(birth)) {
        ([], Some(Node::Link { target, .. })) => {
            if last {
                Next::Follows(birth, target)
            } else {
                Next::Ends(Some(birth))
            }
        }
        ([], Some(Node::Dir { .. } | Node::File { .. }) | None) => Next::Ends(Some(birth)),
        ([_, ..], Some(Node::Link { target, .. })) => Next::Follows(birth, target),
        ([_, ..], Some(Node::Dir { .. })) => Next::Into(birth),
        ([_, ..], Some(Node::File { .. })) => Next::Stays(Refusal::NotDir),
        ([_, ..], None) => Next::Stays(Refusal::NoEnt),
    }
}

// At a name of a directory, before the names that are left.
fn at_name<'t>(
    tree: &'t Tree,
    last: bool,
    entries: &Entries,
    name: &Name,
    names: &[Name],
) -> Next<'t>
    ensures { (follow : ℕ → List ℕ → Resolution) (into : ℕ → Resolution) (here : List (List ℕ)) → at_name tree.now last follow into here names.now (entry_at entries.now name.now) ≡ next_by result follow into here }
{
    match (names, entries.get(name)) {
        (_, Some(birth)) => at_entry(tree, last, birth, names),
        ([], None) => Next::Ends(None),
        ([_, ..], None) => Next::Stays(Refusal::NoEnt),
    }
}

fn is_absolute(target: &[u8]) -> bool
    ensures { result ≡ is_absolute target.now }
{
    match target {
        [] => false,
        [first, ..] => *first == b'/',
    }
}

// The path of a text. `None` where it is none.
fn path_or_none(alloc: Global, text: &[u8]) -> Result<Option<Path>, NoMemory>
    ensures { IfOk result (λ path. path ≡ path_or_none (path_of text.now)) }
{
    match parse_path(alloc, text) {
        Ok(path) => Ok(Some(path)),
        Err(PathFault::NoMemory) => Err(NoMemory),
        Err(PathFault::BadName | PathFault::TooLong | PathFault::TooDeep) => Ok(None),
    }
}

// The path of a target, which has `/` put before it where it has none. `None` where that is no path.
fn target_path(alloc: Global, target: &[u8]) -> Result<Option<Path>, NoMemory>
    ensures { IfOk result (λ path. path ≡ path_or_none (path_of (target_text target.now))) }
{
    if is_absolute(target) {
        return path_or_none(alloc, target);
    }
    let mut text = Text::of(alloc, b"/")?;
    text.append(target)?;
    path_or_none(alloc, text.as_slice())
}

// Names after the others.
fn append(path: &mut Path, names: &[Name]) -> Result<(), NoMemory>
    ensures { OnOk result (path.new ≡ path.old ++ names.now) }
{
    for name in names {
        path.push(name.copy())?;
    }
    Ok(())
}

// A path with these names after its own.
fn longer(path: Path, names: &[Name]) -> Result<Path, NoMemory>
    ensures { IfOk result (λ longer. longer ≡ path ++ names.now) }
{
    let mut path = path;
    append(&mut path, names)?;
    Ok(path)
}

// Another path, with one name more.
fn with_name(path: &Path, name: &Name) -> Result<Path, NoMemory>
    ensures { IfOk result (λ longer. longer ≡ path.now ++ name.now ∷ []) }
{
    let mut longer = path.try_copy()?;
    longer.push(name.copy())?;
    Ok(longer)
}

// A walk that has come to its end, at a directory.
fn ends_at(path: &Path, dir: u64) -> Result<WalkEnd, NoMemory>
    ensures { IfOk result (λ end. end_of end ≡ LeadsTo path.now (Some dir)) }
{
    let path = path.try_copy()?;
    Ok(WalkEnd::At {
        path,
        found: Some(dir),
    })
}

// A walk from a directory on, whose own path is `above`, with so many links left to follow. What it goes through is added to the trail.
fn walk_on(
    tree: &Tree,
    left: usize,
    last: bool,
    dir: u64,
    above: &Path,
    names: &[Name],
    trail: &mut Vec<u64>,
) -> Result<WalkEnd, NoMemory>
    ensures { IfOk result (λ end. went end trail.new.items ≡ passes_all trail.old.items (resolve_from left tree.now last dir above.now names.now)) }
{
    let (name, rest) = match names {
        [] => return ends_at(above, dir),
        [name, rest @ ..] => (name, rest),
    };
    let entries = match tree.node(dir) {
        Some(Node::Dir { entries, .. }) => entries,
        Some(Node::File { .. } | Node::Link { .. }) => return Ok(WalkEnd::Refused(Refusal::NotDir)),
        None => return Ok(WalkEnd::Refused(Refusal::NoEnt)),
    };
    trail.push(dir)?;
    match at_name(tree, last, entries, name, rest) {
        Next::Ends(found) => {
            let path = with_name(above, name)?;
            Ok(WalkEnd::At { path, found })
        }
        Next::Into(birth) => {
            let here = with_name(above, name)?;
            walk_on(tree, left, last, birth, &here, rest, trail)
        }
        Next::Follows(link, target) => {
            if left == 0 {
                return Ok(WalkEnd::Refused(Refusal::Loop));
            }
            trail.push(link)?;
            let inner = match target_path(tree.alloc(), target.as_slice())? {
                Some(inner) => inner,
                None => return Ok(WalkEnd::Refused(Refusal::NoEnt)),
            };
            let way = longer(inner, rest)?;
            if is_absolute(target.as_slice()) {
                let root = Path::new(tree.alloc());
                walk_on(tree, left - 1, last, ROOT, &root, way.as_slice(), trail)
            } else {
                walk_on(tree, left - 1, last, dir, above, way.as_slice(), trail)
            }
        }
        Next::Stays(refusal) => Ok(WalkEnd::Refused(refusal)),
    }
}

impl Tree {
    /// Where a path leads once links are followed, the last name's too where that is asked. It takes time proportional to the names that
    /// are walked, those of the links' targets included.
    pub fn resolve(&self, path: &[Name], last: bool) -> Result<Walk, NoMemory>
        ensures { IfOk result (λ walk. resolution_of walk ≡ resolve self.now last path.now) }
    {
        let mut trail = Vec::new(self.alloc());
        let root = Path::new(self.alloc());
        let end = walk_on(
            self,
            LINKS_FOLLOWED_MAX,
            last,
            ROOT,
            &root,
            path,
            &mut trail,
        )?;
        Ok(Walk { end, trail })
    }
}
