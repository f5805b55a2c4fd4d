// Bytes that a read showed.
ghost use Rattle.std.specs.Prelude.{◌≡◌, OnOk, OnErr, IfSome, true, map};
ghost use Rattle.std.specs.Option.{option_copied};
ghost use Rattle.tree_definitions.specs.declared.cells.Cell.TheVariants.{Byte};
ghost use Rattle.tree_definitions.specs.Tree.{node_at};
ghost use Rattle.tree_definitions.specs.Place.{place};
ghost use Rattle.tree_definitions.specs.History.{cell_shows, cells_show, file_of, file_at};
ghost use Rattle.tree_edits.specs.Counts.{IsWithin};
ghost use Rattle.tree_edits.specs.Edits.{CanPut};
ghost use Rattle.file_tree.specs.Shown.{file_shows, node_time, shown_at};

use crate::Tree;
use crate::place::{Place, ROOT, place_from};
use frang_base::{Name, NoMemory};
use tree_definitions::{Cell, Node};
use tree_edits::Bytes;

// Whether a cell shows a byte: one in doubt shows any.
fn cell_shows(cell: Cell, byte: u8) -> bool
    ensures { result ≡ cell_shows cell byte }
{
    match cell {
        Cell::Byte(own) => own == byte,
        Cell::Doubtful => true,
    }
}

/// Whether cells show bytes, each its own: one in doubt shows any.
pub fn cells_show(cells: &[Cell], bytes: &[u8]) -> bool
    ensures { result ≡ cells_show cells.now bytes.now }
{
    let mut left = bytes;
    for cell in cells {
        match left {
            [byte, rest @ ..] => {
                if !cell_shows(*cell, *byte) {
                    return false;
                }
                left = rest;
            }
            [] => return false,
        }
    }
    left.is_empty()
}

// Whether the node of a birth is a file whose cells show bytes from an offset on.
fn file_shows(tree: &Tree, birth: u64, off: u32, len: u32, bytes: &[u8]) -> bool
    ensures is { result ≡ file_shows (file_of birth (node_at tree.now birth)) off len bytes.now }
    ensures fits { result ≡ true → IfSome (node_at tree.now birth) (CanPut off (map Byte bytes.now)) }
    ensures within { IsWithin tree.now }
{
    match tree.node(birth) {
        Some(Node::File { cells, .. }) => {
            off as usize <= cells.len()
                && cells_show(cells.shown(off as usize, len as usize), bytes)
        }
        Some(Node::Dir { .. } | Node::Link { .. }) | None => false,
    }
}

// The time of a node, 0 where it is no file.
fn time_of(node: Option<&Node>) -> u64
    ensures { result ≡ node_time (option_copied node.entry) }
{
    match node {
        Some(Node::File { when, .. }) => *when,
        Some(Node::Dir { .. } | Node::Link { .. }) | None => 0,
    }
}

// A read of a node that showed bytes: where a file's cells show them, they become them. After `NoMemory` the tree is as before.
fn show_at(tree: &mut Tree, birth: u64, off: u32, len: u32, bytes: &[u8]) -> Result<(), NoMemory>
    ensures ok { OnOk result (tree.new ≡ shown_at tree.old (file_of birth (node_at tree.old birth)) off len bytes.now) }
    ensures err { OnErr result (tree.new ≡ tree.old) }
{
    if file_shows(tree, birth, off, len, bytes) {
        let when = time_of(tree.node(birth));
        tree.put_bytes(birth, when, off as usize, &Bytes::Text(bytes))?;
    }
    Ok(())
}

impl Tree {
    /// Takes the bytes that a read of a path showed: where the path's file shows them from this offset on, at most so many, its cells
    /// become them, also those in doubt. Else the tree stays. After `NoMemory` the tree is as before.
    pub fn show(&mut self, path: &[Name], off: u32, len: u32, bytes: &[u8]) -> Result<(), NoMemory>
        ensures ok { OnOk result (self.new ≡ shown_at self.old (file_at self.old (place self.old path.now)) off len bytes.now) }
        ensures err { OnErr result (self.new ≡ self.old) }
    {
        match place_from(self, ROOT, path) {
            Place::Taken { birth, .. } => show_at(self, birth, off, len, bytes),
            Place::Root | Place::Free { .. } | Place::Nowhere(_) => Ok(()),
        }
    }
}
