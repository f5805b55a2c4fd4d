// The tree of files.
ghost use Rattle.std.specs.Prelude.{◌^◌, min, sum_by, ◌≡◌, ◌≤◌, ◌+◌, ◌-◌, ◌*◌, IfOk, IfSome, IsSome, OnOk, OnErr, None, nat_lt};
ghost use Rattle.std.specs.Option.{option_copied};
ghost use Rattle.std.specs.Map.{values_of};
ghost use Rattle.tree_definitions.specs.Tree.{FileTree, fresh, node_at, with_node, without_node, count_of, dir_blocks, file_blocks, large_blocks, inodes_full, blocks_full, larges_full, lacks_block};
ghost use Rattle.tree_definitions.specs.TreeLines.{tree_lines};
ghost use Rattle.tree_edits.specs.Edits.{without_name, with_name, with_blocks, with_links, with_cells, with_first, with_doubt, edited, CanPut, Names};
ghost use Rattle.tree_edits.specs.Written.{cells_of};
ghost use Rattle.file_tree.specs.Proper.{HasTarget, HasTargets, AreProper};

use crate::lines::lines_of;
use crate::place::ROOT;
use frang_base::limits::{INODE_BLOCKS_MAX, SEGMENT_BLOCKS, SEGMENT_INODES, SEGMENTS_MAX};
use frang_base::{Name, NoMemory, Said, Text};
use std::alloc::Global;
use std::collections::BTreeMap;
use std::marker::Model;
use tree_definitions::{Entries, Node};
use tree_edits::{Blocks, Bytes, must_grow, nodes};

/// A file tree, seen as its number of segments and its nodes by birth. The root's birth is 0. It keeps count of the blocks that its
/// nodes take.
#[derive(Drop)]
pub struct Tree {
    alloc: Global,
    segments: u32,
    nodes: BTreeMap<u64, Node>,
    taken: Blocks,
}

impl Model for Tree {
    ghost use Rattle.tree_definitions.specs.Tree.{FileTree};
    ghost use Rattle.tree_edits.specs.Counts.{IsCounted};
    ghost use Rattle.file_tree.specs.Proper.{HasTargets};

    ghost Value = { FileTree };

    ghost view = { λ t. record { segments = t.segments; nodes = t.nodes.entries } };

    ghost invariant = { λ t. IsCounted t.taken (record { segments = t.segments; nodes = t.nodes.entries }) × HasTargets (record { segments = t.segments; nodes = t.nodes.entries }) };
}

// The small blocks of files.
fn files_taken(nodes: &BTreeMap<u64, Node>) -> u64
    ensures { result ≡ min (sum_by file_blocks (values_of nodes.now.entries)) (2 ^ 64 - 1) }
{
    let mut taken = 0u64;
    for node in nodes.values() {
        taken = taken.saturating_add(Blocks::of(node).files);
    }
    taken
}

// The small blocks of directories.
fn dirs_taken(nodes: &BTreeMap<u64, Node>) -> u64
    ensures { result ≡ min (sum_by dir_blocks (values_of nodes.now.entries)) (2 ^ 64 - 1) }
{
    let mut taken = 0u64;
    for node in nodes.values() {
        taken = taken.saturating_add(Blocks::of(node).dirs);
    }
    taken
}

// The large blocks.
fn larges_taken(nodes: &BTreeMap<u64, Node>) -> u64
    ensures { result ≡ min (sum_by large_blocks (values_of nodes.now.entries)) (2 ^ 64 - 1) }
{
    let mut taken = 0u64;
    for node in nodes.values() {
        taken = taken.saturating_add(Blocks::of(node).larges);
    }
    taken
}

impl Tree {
    ghost use Rattle.tree_edits.specs.Counts.{blocks_of, IsSwapped, IsWithin, HasRoom};

    /// The root alone, on a disk of so many segments.
    pub fn fresh(alloc: Global, segments: u32) -> Result<Tree, NoMemory>
        requires { segments ≤ SEGMENTS_MAX }
        ensures { IfOk result (λ t. t ≡ fresh segments) }
    {
        let mut nodes = BTreeMap::new(alloc);
        let root = Node::Dir {
            entries: Entries::new(alloc),
            blocks: 0,
        };
        nodes.insert(ROOT, root)?;
        Ok(Tree {
            alloc,
            segments,
            nodes,
            taken: Blocks::NONE,
        })
    }

    /// The tree of these nodes, on a disk of so many segments that has room for them.
    pub fn of(alloc: Global, segments: u32, nodes: BTreeMap<u64, Node>) -> Tree
        requires within { IsWithin (record { segments = segments; nodes = nodes.entries }) }
        requires targets { HasTargets (record { segments = segments; nodes = nodes.entries }) }
        ensures { result ≡ record { segments = segments; nodes = nodes.entries } }
    {
        let taken = Blocks {
            files: files_taken(&nodes),
            dirs: dirs_taken(&nodes),
            larges: larges_taken(&nodes),
        };
        Tree {
            alloc,
            segments,
            nodes,
            taken,
        }
    }

    /// The allocator of what is made.
    pub fn alloc(&self) -> Global {
        self.alloc
    }

    /// The nodes by their births.
    pub fn nodes(&self) -> &BTreeMap<u64, Node>
        ensures { result.now.entries ≡ self.now.nodes }
    {
        &self.nodes
    }

    /// The node of a birth. `None` exactly where no node has it.
    pub fn node(&self, birth: u64) -> Option<&Node>
        ensures is { option_copied result ≡ node_at self.now birth }
        ensures within { IsWithin self.now }
        ensures target { IfSome (node_at self.now birth) HasTarget }
    {
        self.nodes.get(&birth)
    }

    /// The small blocks of the directories.
    pub fn dir_blocks(&self) -> u32
        ensures { result ≡ count_of dir_blocks self.now }
    {
        self.taken.dirs as u32
    }

    /// Whether files with so many more small blocks would leave fewer than `m` to directories.
    pub(crate) fn lacks_file_blocks(&self, m: u32, more: u64) -> bool
        requires { more ≤ INODE_BLOCKS_MAX }
        ensures is { result ≡ nat_lt (SEGMENT_BLOCKS * self.now.segments - m) (count_of file_blocks self.now + more) }
        ensures within { IsWithin self.now }
    {
        let all = u64::from(SEGMENT_BLOCKS) * u64::from(self.segments);
        all.saturating_sub(u64::from(m)) < self.taken.files + more
    }

    /// Whether all inodes are in use.
    pub(crate) fn inodes_full(&self) -> bool
        ensures { result ≡ inodes_full self.now }
    {
        u64::from(SEGMENT_INODES) * u64::from(self.segments) <= self.nodes.len() as u64
    }

    /// Whether all large blocks are in use.
    pub(crate) fn larges_full(&self) -> bool
        ensures { result ≡ larges_full self.now }
    {
        u64::from(self.segments) <= self.taken.larges
    }

    /// Whether one entry more takes a further block, and there is none.
    pub(crate) fn lacks_block(&self, entries: &Entries, blocks: u32) -> bool
        ensures is { result ≡ lacks_block self.now entries.now blocks }
        ensures within { IsWithin self.now }
    {
        let full = self.blocks_full();
        must_grow(entries, blocks) && full
    }

    // Whether all small blocks are in use.
    #[tactic(auto, using(tree_edits::proofs::Counting::small_blocks_both))]
    fn blocks_full(&self) -> bool
        ensures is { result ≡ blocks_full self.now }
        ensures within { IsWithin self.now }
    {
        u64::from(SEGMENT_BLOCKS) * u64::from(self.segments) <= self.taken.dirs + self.taken.files
    }

    /// A birth gets this node, in place of one that it may have. `NoMemory` comes only where it has none, and leaves the tree as
    /// before.
    pub(crate) fn put(&mut self, birth: u64, node: Node) -> Result<(), NoMemory>
        requires room { HasRoom self.old birth (blocks_of node) }
        requires target { HasTarget node }
        ensures ok { OnOk result (self.new ≡ with_node self.old birth node) }
        ensures swapped { IsSwapped self.old.nodes birth self.new.nodes }
        ensures err { OnErr result (self.new ≡ self.old) }
        ensures absent { OnErr result (node_at self.old birth ≡ None) }
    {
        let before = nodes::blocks_in(&self.nodes, birth);
        nodes::put(&mut self.nodes, birth, node)?;
        let after = nodes::blocks_in(&self.nodes, birth);
        self.taken = self.taken.with(before, after);
        Ok(())
    }

    /// A birth that has a node gets this one. It takes no memory.
    pub(crate) fn replace(&mut self, birth: u64, node: Node)
        requires there { IsSome (node_at self.old birth) }
        requires room { HasRoom self.old birth (blocks_of node) }
        requires target { HasTarget node }
        ensures { self.new ≡ with_node self.old birth node }
    {
        match self.put(birth, node) {
            Ok(()) => {}
            Err(_) => unreachable!(),
        }
    }

    /// Frees the node of a birth, if there is one.
    pub(crate) fn remove(&mut self, birth: u64)
        ensures { self.new ≡ without_node self.old birth }
    {
        let before = nodes::blocks_in(&self.nodes, birth);
        nodes::remove(&mut self.nodes, birth);
        self.taken = self.taken.with(before, Blocks::NONE);
    }

    /// A directory loses a name.
    pub(crate) fn drop_name(&mut self, dir: u64, name: &Name)
        ensures is { self.new ≡ edited self.old dir (without_name name.now) }
        ensures within { IsWithin self.new }
    {
        nodes::drop_name(&mut self.nodes, dir, name);
    }

    /// A directory has this node at a name that is there.
    pub(crate) fn set_name(&mut self, dir: u64, name: &Name, birth: u64)
        requires { IfSome (node_at self.old dir) (Names name.now) }
        ensures { self.new ≡ edited self.old dir (with_name name.now birth) }
    {
        nodes::set_name(&mut self.nodes, dir, name, birth);
    }

    /// A directory has so many blocks.
    pub(crate) fn set_blocks(&mut self, dir: u64, count: u32)
        requires { IfSome (node_at self.old dir) (λ node. HasRoom self.old dir (blocks_of (with_blocks count node))) }
        ensures is { self.new ≡ edited self.old dir (with_blocks count) }
        ensures within { IsWithin self.new }
    {
        let before = nodes::blocks_in(&self.nodes, dir);
        nodes::set_blocks(&mut self.nodes, dir, count);
        let after = nodes::blocks_in(&self.nodes, dir);
        self.taken = self.taken.with(before, after);
    }

    /// A node that is no directory has so many names.
    pub(crate) fn set_links(&mut self, birth: u64, count: u32)
        ensures is { self.new ≡ edited self.old birth (with_links count) }
        ensures swapped { IsSwapped self.old.nodes birth self.new.nodes }
    {
        nodes::set_links(&mut self.nodes, birth, count);
    }

    /// Bytes are put into a file, at a time. After `NoMemory` the tree is as before.
    pub(crate) fn put_bytes(
        &mut self,
        birth: u64,
        when: u64,
        off: usize,
        bytes: &Bytes,
    ) -> Result<(), NoMemory>
        requires can { IfSome (node_at self.old birth) (CanPut off (cells_of bytes.now)) }
        requires room { IfSome (node_at self.old birth) (λ node. HasRoom self.old birth (blocks_of (with_cells when off (cells_of bytes.now) node))) }
        ensures ok { OnOk result (self.new ≡ edited self.old birth (with_cells when off (cells_of bytes.now))) }
        ensures err { OnErr result (self.new ≡ self.old) }
    {
        let before = nodes::blocks_in(&self.nodes, birth);
        nodes::put_bytes(&mut self.nodes, birth, when, off, bytes)?;
        let after = nodes::blocks_in(&self.nodes, birth);
        self.taken = self.taken.with(before, after);
        Ok(())
    }

    /// A file keeps its first bytes, at a time.
    pub(crate) fn cut(&mut self, birth: u64, when: u64, len: usize)
        ensures { self.new ≡ edited self.old birth (with_first when len) }
    {
        let before = nodes::blocks_in(&self.nodes, birth);
        nodes::cut(&mut self.nodes, birth, when, len);
        let after = nodes::blocks_in(&self.nodes, birth);
        self.taken = self.taken.with(before, after);
    }

    /// So many cells of a file from an offset on come into doubt.
    pub(crate) fn doubt_node(&mut self, birth: u64, from: usize, count: usize)
        ensures { self.new ≡ edited self.old birth (with_doubt from count) }
    {
        nodes::doubt(&mut self.nodes, birth, from, count);
    }

    /// The lines of the tree, from the root: each directory before its entries, entries in order of their bytes.
    pub fn lines(&self) -> Result<Vec<Said>, NoMemory>
        ensures is { IfOk result (λ lines. lines.items ≡ tree_lines self.now) }
        ensures proper { IfOk result (λ lines. AreProper lines.items) }
    {
        lines_of(self.alloc, &self.nodes)
    }

    /// Another tree, the same.
    pub fn try_copy(&self) -> Result<Tree, NoMemory>
        ensures { IfOk result (λ copy. copy ≡ self.now) }
    {
        Ok(Tree {
            alloc: self.alloc,
            segments: self.segments,
            nodes: self.nodes.clone()?,
            taken: self.taken,
        })
    }
}
