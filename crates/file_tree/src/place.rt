// Where the names of a path lead.
ghost use Rattle.std.specs.Prelude.{◌≡◌, ◌==◌, ℕ, Option, Some, List, IfOk};
ghost use Rattle.std.specs.List.{list_any};
ghost use Rattle.script_definitions.specs.SaidReading.{IsProperReply};
ghost use Rattle.tree_definitions.specs.Place.{place, place_in, place_from, walked_from};
ghost use Rattle.tree_definitions.specs.declared.cells.Cell.{Cell};
ghost use Rattle.tree_definitions.specs.declared.node.Node.{Node};
ghost use Rattle.tree_definitions.specs.declared.node.Node.TheVariants.{File};
ghost use Rattle.tree_definitions.specs.Tree.{node_at};
ghost use Rattle.tree_definitions.specs.Apply.{Plain, Applied, at_node, if_file, at_file};
ghost use Rattle.file_tree.specs.Places.{spot_of, reply_of, IsThere};
ghost use Rattle.file_tree.specs.Reached.{by_birth, by_file};
ghost use Rattle.file_tree.specs.Replies.{answer_of};

use crate::Tree;
use frang_base::{Name, Reply};
use tree_definitions::{Cells, Entries, Node};

/// The birth of the root.
pub const ROOT: u64 = 0;

/// Why there is no file or directory where one has to be.
#[derive(Clone, Copy)]
pub enum Refusal {
    NoEnt,
    NotDir,
    IsDir,
    Inval,
    Loop,
}

impl Refusal {
    /// The reply that says so.
    pub fn reply(self) -> Reply
        ensures is { result ≡ reply_of self }
        ensures plain { answer_of result ≡ Plain result }
        ensures proper { IsProperReply result }
    {
        match self {
            Refusal::NoEnt => Reply::NoEnt,
            Refusal::NotDir => Reply::NotDir,
            Refusal::IsDir => Reply::IsDir,
            Refusal::Inval => Reply::Inval,
            Refusal::Loop => Reply::Loop,
        }
    }
}

/// The root, a name that its directory has, one that it hasn't, or no directory for it.
#[derive(Drop)]
pub enum Place<'t, 'p> {
    Root,
    Taken {
        dir: u64,
        entries: &'t Entries,
        blocks: u32,
        name: &'p Name,
        birth: u64,
    },
    Free {
        dir: u64,
        entries: &'t Entries,
        blocks: u32,
        name: &'p Name,
    },
    Nowhere(Refusal),
}

fn place_in<'t, 'p>(tree: &'t Tree, dir: u64, name: &'p Name) -> Place<'t, 'p>
    ensures is { spot_of result ≡ place_in (node_at tree.now dir) dir name.now }
    ensures there { IsThere tree.now result }
{
    match tree.node(dir) {
        Some(Node::Dir { entries, blocks }) => match entries.get(name) {
            Some(birth) => Place::Taken {
                dir,
                entries,
                blocks: *blocks,
                name,
                birth,
            },
            None => Place::Free {
                dir,
                entries,
                blocks: *blocks,
                name,
            },
        },
        Some(Node::File { .. } | Node::Link { .. }) => Place::Nowhere(Refusal::NotDir),
        None => Place::Nowhere(Refusal::NoEnt),
    }
}

/// Where the names of a path lead, taken from the left, from a node on.
pub fn place_from<'t, 'p>(tree: &'t Tree, birth: u64, path: &'p [Name]) -> Place<'t, 'p>
    ensures is { spot_of result ≡ place_from tree.now birth path.now }
    ensures there { IsThere tree.now result }
{
    match path {
        [] => Place::Root,
        [name] => place_in(tree, birth, name),
        [name, rest @ ..] => match place_in(tree, birth, name) {
            Place::Root => place_from(tree, ROOT, rest),
            Place::Taken { birth, .. } => place_from(tree, birth, rest),
            Place::Free { .. } => Place::Nowhere(Refusal::NoEnt),
            Place::Nowhere(refusal) => Place::Nowhere(refusal),
        },
    }
}

/// Whether the walk of a path, from a node on, looks up a name in a directory.
pub fn passes(tree: &Tree, from: u64, path: &[Name], dir: u64) -> bool
    ensures { result ≡ list_any (λ b. b == dir) (walked_from tree.now from path.now) }
{
    match path {
        [] => false,
        [name, rest @ ..] => match place_in(tree, from, name) {
            Place::Root | Place::Nowhere(_) => false,
            Place::Taken { birth, .. } => from == dir || passes(tree, birth, rest, dir),
            Place::Free { .. } => from == dir,
        },
    }
}

/// The birth of the node at a path, or why there is none.
pub fn reached(tree: &Tree, path: &[Name]) -> Result<u64, Refusal>
    ensures { (next : ℕ → Option Node → Applied) → at_node tree.now (place tree.now path.now) next ≡ by_birth tree.now next result }
{
    match place_from(tree, ROOT, path) {
        Place::Root => Ok(ROOT),
        Place::Taken { birth, .. } => Ok(birth),
        Place::Free { .. } => Err(Refusal::NoEnt),
        Place::Nowhere(refusal) => Err(refusal),
    }
}

/// A file of the tree, with the time of its node.
#[derive(Drop)]
pub struct FileAt<'t> {
    pub birth: u64,
    pub cells: &'t Cells,
    pub links: u32,
    pub when: u64,
}

// A node that has to be a file.
fn file_of(tree: &Tree, birth: u64) -> Result<FileAt<'_>, Refusal>
    ensures is { (next : ℕ → List Cell → ℕ → ℕ → Applied) → if_file tree.now next birth (node_at tree.now birth) ≡ by_file tree.now next result }
    ensures there { IfOk result (λ file. node_at tree.now file.birth ≡ Some (File file.cells.now file.links file.when)) }
{
    match tree.node(birth) {
        Some(Node::File { cells, links, when }) => Ok(FileAt {
            birth,
            cells,
            links: *links,
            when: *when,
        }),
        Some(Node::Dir { .. }) => Err(Refusal::IsDir),
        Some(Node::Link { .. }) => Err(Refusal::Inval),
        None => Err(Refusal::NoEnt),
    }
}

/// The file at a path, or why there is none.
pub fn file_at<'t>(tree: &'t Tree, path: &[Name]) -> Result<FileAt<'t>, Refusal>
    ensures is { (next : ℕ → List Cell → ℕ → ℕ → Applied) → at_file tree.now (place tree.now path.now) next ≡ by_file tree.now next result }
    ensures there { IfOk result (λ file. node_at tree.now file.birth ≡ Some (File file.cells.now file.links file.when)) }
{
    match reached(tree, path) {
        Ok(birth) => file_of(tree, birth),
        Err(refusal) => Err(refusal),
    }
}
