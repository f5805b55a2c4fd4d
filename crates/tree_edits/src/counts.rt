// What nodes take of the disk.
ghost use Rattle.std.specs.Prelude.{◌≡◌, ◌≤◌, true};
ghost use Rattle.tree_definitions.specs.Tree.{small_blocks_of, large_blocks_of, must_grow};

use frang_base::limits::{BLOCK_ENTRIES, INODE_BLOCKS_MAX, SMALL_BLOCK_BYTES, SMALL_BYTES_MAX};
use tree_definitions::{Entries, Node};

/// Blocks of the disk: small ones of files, small ones of directories, and large ones.
#[derive(Clone, Copy)]
pub struct Blocks {
    pub files: u64,
    pub dirs: u64,
    pub larges: u64,
}

/// The small blocks that the bytes of a file take.
pub fn small_blocks_of(size: usize) -> u64
    ensures is { result ≡ small_blocks_of size }
    ensures few { result ≤ INODE_BLOCKS_MAX }
{
    ((size as u64).min(SMALL_BYTES_MAX) + (SMALL_BLOCK_BYTES - 1)) / SMALL_BLOCK_BYTES
}

/// The large blocks that the bytes of a file take, at most one.
pub fn large_blocks_of(size: usize) -> u64
    ensures is { result ≡ large_blocks_of size }
    ensures few { result ≤ 1 }
{
    if size as u64 > SMALL_BYTES_MAX { 1 } else { 0 }
}

impl Blocks {
    ghost use Rattle.tree_edits.specs.Counts.{blocks_of, CanCount, Counts};

    /// No blocks.
    pub const NONE: Blocks = Blocks {
        files: 0,
        dirs: 0,
        larges: 0,
    };

    /// What a node takes.
    pub fn of(node: &Node) -> Blocks
        ensures { result ≡ blocks_of node.now }
    {
        match node {
            Node::Dir { blocks, .. } => Blocks {
                files: 0,
                dirs: u64::from(*blocks),
                larges: 0,
            },
            Node::File { cells, .. } => Blocks {
                files: small_blocks_of(cells.len()),
                dirs: 0,
                larges: large_blocks_of(cells.len()),
            },
            Node::Link { .. } => Blocks::NONE,
        }
    }

    /// These blocks with some in place of others.
    pub fn with(self, before: Blocks, after: Blocks) -> Blocks
        requires { CanCount self before after }
        ensures { Counts self before after result }
    {
        Blocks {
            files: self.files + after.files - before.files,
            dirs: self.dirs + after.dirs - before.dirs,
            larges: self.larges + after.larges - before.larges,
        }
    }
}

/// Whether one entry more takes a further block.
pub fn must_grow(entries: &Entries, blocks: u32) -> bool
    ensures is { result ≡ must_grow entries.now blocks }
    ensures few { result ≡ true → blocks ≤ INODE_BLOCKS_MAX }
{
    u64::from(BLOCK_ENTRIES) * u64::from(blocks) <= entries.len() as u64
}
