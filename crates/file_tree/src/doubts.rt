// Cells of files that come into doubt.
ghost use Rattle.std.specs.Prelude.{◌≡◌};
ghost use Rattle.tree_definitions.specs.Tree.{node_at};
ghost use Rattle.tree_definitions.specs.History.{file_of, doubted_file};

use crate::Tree;
use tree_definitions::Node;

impl Tree {
    /// So many cells of a file from an offset on come into doubt; those past its end, and a birth that no file has, are passed over.
    pub fn doubt(&mut self, birth: u64, from: usize, count: usize)
        ensures { self.new ≡ doubted_file self.old (file_of birth (node_at self.old birth)) from count }
    {
        match self.node(birth) {
            Some(Node::File { .. }) => self.doubt_node(birth, from, count),
            Some(Node::Dir { .. } | Node::Link { .. }) | None => {}
        }
    }
}
