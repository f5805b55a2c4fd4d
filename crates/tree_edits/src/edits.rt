// Changes of a node where it stands.
ghost use Rattle.std.specs.Prelude.{◌≡◌, ◌≤◌, ◌<◌, ◌+◌, ◌^◌, length, OnOk, OnErr};
ghost use Rattle.frang_base.specs.declared.limits.TheConstants.{FILE_BYTES_MAX};
ghost use Rattle.tree_definitions.specs.Apply.{overwritten};
ghost use Rattle.tree_edits.specs.Edits.{without_name, with_name, with_blocks, with_links, with_cells, with_first, with_doubt, CanPut, Names};
ghost use Rattle.tree_edits.specs.Written.{cells_of, size_of};

use frang_base::{Name, NoMemory};
use tree_definitions::{Cells, Node};

/// What is written into a file: bytes, or so many times the same byte.
#[derive(Clone, Copy)]
pub enum Bytes<'a> {
    Text(&'a [u8]),
    Same { len: u32, byte: u8 },
}

/// How many bytes are written.
pub fn count_of(bytes: &Bytes) -> usize
    ensures is { result ≡ size_of bytes.now }
    ensures small { result < 2 ^ 63 }
{
    match bytes {
        Bytes::Text(bytes) => bytes.len(),
        Bytes::Same { len, .. } => *len as usize,
    }
}

/// A directory loses a name.
pub fn drop_name(node: &mut Node, name: &Name)
    ensures { node.new ≡ without_name name.now node.old }
{
    match node {
        Node::Dir { entries, .. } => entries.remove(name),
        Node::File { .. } | Node::Link { .. } => {}
    }
}

/// A directory has this node at a name that is there.
pub fn set_name(node: &mut Node, name: &Name, birth: u64)
    requires { Names name.now node.old }
    ensures { node.new ≡ with_name name.now birth node.old }
{
    match node {
        Node::Dir { entries, .. } => entries.replace(name.copy(), birth),
        Node::File { .. } | Node::Link { .. } => {}
    }
}

/// A directory has so many blocks.
pub fn set_blocks(node: &mut Node, count: u32)
    ensures { node.new ≡ with_blocks count node.old }
{
    match node {
        Node::Dir { blocks, .. } => *blocks = count,
        Node::File { .. } | Node::Link { .. } => {}
    }
}

/// A node that is no directory has so many names.
pub fn set_links(node: &mut Node, count: u32)
    ensures { node.new ≡ with_links count node.old }
{
    match node {
        Node::File { links, .. } => *links = count,
        Node::Link { links, .. } => *links = count,
        Node::Dir { .. } => {}
    }
}

// Cells from an offset on become these bytes. After `NoMemory` they are as before.
fn write(cells: &mut Cells, off: usize, bytes: &Bytes) -> Result<(), NoMemory>
    requires there { off ≤ length cells.old }
    requires fits { off + length (cells_of bytes.now) ≤ FILE_BYTES_MAX }
    ensures ok { OnOk result (cells.new ≡ overwritten cells.old off (cells_of bytes.now)) }
    ensures err { OnErr result (cells.new ≡ cells.old) }
{
    match bytes {
        Bytes::Text(bytes) => cells.overwrite(off, bytes),
        Bytes::Same { len, byte } => cells.fill(off, *len as usize, *byte),
    }
}

/// Bytes are put into a file, at a time. After `NoMemory` it is as before.
pub fn put_bytes(node: &mut Node, at: u64, off: usize, bytes: &Bytes) -> Result<(), NoMemory>
    requires { CanPut off (cells_of bytes.now) node.old }
    ensures ok { OnOk result (node.new ≡ with_cells at off (cells_of bytes.now) node.old) }
    ensures err { OnErr result (node.new ≡ node.old) }
{
    match node {
        Node::File { cells, when, .. } => {
            write(cells, off, bytes)?;
            *when = at;
            Ok(())
        }
        Node::Dir { .. } | Node::Link { .. } => Ok(()),
    }
}

/// A file keeps its first bytes, at a time.
pub fn cut(node: &mut Node, at: u64, len: usize)
    ensures { node.new ≡ with_first at len node.old }
{
    match node {
        Node::File { cells, when, .. } => {
            cells.truncate(len);
            *when = at;
        }
        Node::Dir { .. } | Node::Link { .. } => {}
    }
}

/// So many cells of a file from an offset on come into doubt.
pub fn doubt(node: &mut Node, from: usize, count: usize)
    ensures { node.new ≡ with_doubt from count node.old }
{
    match node {
        Node::File { cells, .. } => cells.doubt(from, count),
        Node::Dir { .. } | Node::Link { .. } => {}
    }
}
