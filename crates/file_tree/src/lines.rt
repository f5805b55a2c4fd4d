// The lines of a tree, node by node.
ghost use Rattle.std.specs.Prelude.{◌≡◌, [], IfOk, IsSome};
ghost use Rattle.std.specs.Option.{option_copied};
ghost use Rattle.script_definitions.specs.SaidReading.{IsProperSaid};
ghost use Rattle.tree_definitions.specs.Tree.{FileTree};
ghost use Rattle.tree_definitions.specs.TreeLines.{tree_lines};
ghost use Rattle.tree_lines.specs.Waiting.{Says, lines_left, next_birth};
ghost use Rattle.file_tree.specs.Lined.{IsNext, shown_by, shown_in};
ghost use Rattle.file_tree.specs.Proper.{AreProper};

use crate::place::ROOT;
use frang_base::limits::{KIND_DIRECTORY, KIND_FILE, KIND_LINK};
use frang_base::{NoMemory, Said};
use std::alloc::Global;
use std::collections::BTreeMap;
use tree_definitions::{Entries, Node};
use tree_lines::LinesLeft;

// The next node. Those that aren't there have no lines.
fn next_node<'a>(left: &mut LinesLeft, nodes: &'a BTreeMap<u64, Node>) -> Option<&'a Node>
    ensures same { lines_left (shown_in nodes.now.entries) left.new ≡ lines_left (shown_in nodes.now.entries) left.old }
    ensures next { IsNext nodes.now.entries left.new (option_copied result) }
{
    while let Some(birth) = left.wanted() {
        match nodes.get(&birth) {
            Some(node) => return Some(node),
            None => left.pass(),
        }
    }
    None
}

// The line of the next node, which this is; `none` are no entries.
fn node_line(left: &mut LinesLeft, node: &Node, none: &Entries) -> Result<Said, NoMemory>
    requires some { IsSome (next_birth left.old.nodes) }
    requires none { none.now ≡ [] }
    ensures is { IfOk result (Says (shown_by node.now) left.old left.new) }
    ensures proper { IfOk result IsProperSaid }
{
    match node {
        Node::File { cells, links, .. } => left.show(KIND_FILE, cells.len() as u32, *links, none),
        Node::Link { target, .. } => left.show(KIND_LINK, target.len() as u32, 0, none),
        Node::Dir { entries, .. } => left.show(KIND_DIRECTORY, entries.len() as u32, 0, entries),
    }
}

/// The lines of nodes, from the root: each directory before its entries, entries in order of their bytes.
pub fn lines_of(alloc: Global, nodes: &BTreeMap<u64, Node>) -> Result<Vec<Said>, NoMemory>
    ensures is { IfOk result (λ lines. (tree : FileTree) → tree.nodes ≡ nodes.now.entries → lines.items ≡ tree_lines tree) }
    ensures proper { IfOk result (λ lines. AreProper lines.items) }
{
    let none = Entries::new(alloc);
    let mut lines = Vec::new(alloc);
    let mut left = LinesLeft::of(alloc, ROOT, nodes.len());
    while let Some(node) = next_node(&mut left, nodes) {
        let line = node_line(&mut left, node, &none)?;
        lines.push(line)?;
    }
    Ok(lines)
}
