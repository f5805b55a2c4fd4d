// What a path reaches, and what a read of it shows.
ghost use Rattle.std.specs.Prelude.{◌≡◌, ◌==◌, IfOk, IfErr};
ghost use Rattle.std.specs.List.{list_any};
ghost use Rattle.std.specs.Option.{option_map};
ghost use Rattle.tree_definitions.specs.Place.{place, walked};
ghost use Rattle.tree_definitions.specs.Apply.{Plain, Shows, at_file, shown};
ghost use Rattle.tree_definitions.specs.History.{file_of, file_at};
ghost use Rattle.tree_definitions.specs.Tree.{node_at};
ghost use Rattle.file_tree.specs.Reached.{birth_of, file_in};

use crate::Tree;
use crate::place::{self, FileAt, Place, ROOT, place_from};
use frang_base::{Name, Reply};
use tree_definitions::{Cell, Node};

// The file of a birth, if it is one.
fn file_of(tree: &Tree, birth: u64) -> Option<FileAt<'_>>
    ensures { option_map file_in result ≡ file_of birth (node_at tree.now birth) }
{
    match tree.node(birth) {
        Some(Node::File { cells, links, when }) => Some(FileAt {
            birth,
            cells,
            links: *links,
            when: *when,
        }),
        Some(Node::Dir { .. } | Node::Link { .. }) | None => None,
    }
}

impl Tree {
    /// The birth of the node that a path reaches. `None` where it reaches none.
    pub fn birth_at(&self, path: &[Name]) -> Option<u64>
        ensures { result ≡ birth_of (place self.now path.now) }
    {
        match place_from(self, ROOT, path) {
            Place::Root => Some(ROOT),
            Place::Taken { birth, .. } => Some(birth),
            Place::Free { .. } | Place::Nowhere(_) => None,
        }
    }

    /// The file of the last name of a path. `None` where there is none.
    pub fn file_at(&self, path: &[Name]) -> Option<FileAt<'_>>
        ensures { option_map file_in result ≡ file_at self.now (place self.now path.now) }
    {
        match place_from(self, ROOT, path) {
            Place::Taken { birth, .. } => file_of(self, birth),
            Place::Root | Place::Free { .. } | Place::Nowhere(_) => None,
        }
    }

    /// Whether the walk of a path looks up a name in a directory.
    pub fn passes(&self, path: &[Name], dir: u64) -> bool
        ensures { result ≡ list_any (λ b. b == dir) (walked self.now path.now) }
    {
        place::passes(self, ROOT, path, dir)
    }

    /// The cells that a read of a path shows, or the reply that refuses it.
    pub fn read_at(&self, path: &[Name], off: u32, len: u32) -> Result<&[Cell], Reply>
        ensures shows { IfOk result (λ cells. (at_file self.now (place self.now path.now) (λ b cells links at. shown self.now cells off len)).answer ≡ Shows cells.now) }
        ensures refused { IfErr result (λ reply. (at_file self.now (place self.now path.now) (λ b cells links at. shown self.now cells off len)).answer ≡ Plain reply) }
    {
        let file = match place::file_at(self, path) {
            Ok(file) => file,
            Err(refusal) => return Err(refusal.reply()),
        };
        if file.cells.len() < off as usize {
            return Err(Reply::BadOffset);
        }
        Ok(file.cells.shown(off as usize, len as usize))
    }
}
