// Nodes that come, get another number of links, or go.
ghost use Rattle.std.specs.Prelude.{◌≡◌, ◌≤◌, length, take, ◌∷◌, ◌++◌, [], None, false, OnOk, slice_index};
ghost use Rattle.tree_definitions.specs.declared.node.Node.TheVariants as node;
ghost use Rattle.disk_definitions.specs.Edits.{SetInode, SetBit};
ghost use Rattle.disk_definitions.specs.Changes as changes;
ghost use Rattle.disk_definitions.specs.Naming.{inode_of, kind_of};
ghost use Rattle.disk_definitions.specs.NamePlans as plans;
ghost use Rattle.dir_lookup.specs.Stored.{IsUsed};
ghost use Rattle.plan_steps.specs.Edits.{edits_of};
ghost use Rattle.bitmap_block.specs.States.{state_number};
ghost use Rattle.disk_definitions.specs.Store.{use_by, stored};
ghost use Rattle.plan_steps.specs.Nodes.{node_of};

use crate::edit::{Edit, push};
use bitmap_block::BlockState;
use dir_lookup::NumberedInode;
use disk_definitions::Inode;
use frang_base::NoMemory;
use frang_base::limits::{KIND_DIRECTORY, KIND_FILE, KIND_LINK};
use tree_definitions::Target;

/// A node that comes: an empty file, an empty directory, or a link.
#[derive(Drop)]
pub enum NewNode {
    File,
    Directory,
    Link(Target),
}

impl NewNode {
    /// Its kind as inodes and entries have it.
    pub fn kind(&self) -> u8
        ensures { result ≡ kind_of (node_of self.now) }
    {
        match self {
            NewNode::File => KIND_FILE,
            NewNode::Directory => KIND_DIRECTORY,
            NewNode::Link(_) => KIND_LINK,
        }
    }
}

/// The node comes to stand in inode `number`, made by the operation `birth`.
pub fn new_node(
    edits: &mut Vec<Edit>,
    number: u32,
    birth: u64,
    node: &NewNode,
) -> Result<(), NoMemory>
    ensures ok { OnOk result (edits_of edits.new.items ≡ edits_of edits.old.items ++ changes.new_node number birth (node_of node.now)) }
{
    let inode = inode_for(birth, node);
    push(
        edits,
        Edit::Inode {
            number,
            inode: Some(inode),
            dated: false,
        },
    )?;
    mark(edits, number, true)
}

// The inode of a node that comes.
fn inode_for(birth: u64, node: &NewNode) -> Inode
    ensures { stored result ≡ inode_of birth (λ j. 0) 0 (node_of node.now) }
{
    match node {
        NewNode::File => bare(KIND_FILE, birth),
        NewNode::Directory => bare(KIND_DIRECTORY, birth),
        NewNode::Link(target) => link(birth, target),
    }
}

// The inode of an empty file or directory.
fn bare(kind: u8, birth: u64) -> Inode
    requires { kind ≤ 2 }
    ensures { stored result ≡ record { kind = kind; links = 1; size = 0; birth = birth; blocks = 0; small = λ j. 0; large = 0; when = 0; target = [] } }
{
    Inode {
        version: 0,
        kind,
        links: 1,
        blocks: 0,
        size: 0,
        birth,
        small: [0; 16],
        large: 0,
        when: 0,
        target: [0; 384],
    }
}

// The inode of a link.
fn link(birth: u64, target: &Target) -> Inode
    ensures { stored result ≡ inode_of birth (λ j. 0) 0 (node.Link target.now 1) }
{
    let bytes = padded(target);
    Inode {
        version: 0,
        kind: KIND_LINK,
        links: 1,
        blocks: 0,
        size: target.len() as u64,
        birth,
        small: [0; 16],
        large: 0,
        when: 0,
        target: bytes,
    }
}

// The bytes of the target, and zeros.
fn padded(target: &Target) -> [u8; 384]
    ensures { take (length target.now) result ≡ target.now }
{
    let mut bytes = [0; 384];
    bytes[..target.len()].copy_from_slice(target.as_slice());
    bytes
}

/// A node gets so many links.
pub fn relink(edits: &mut Vec<Edit>, node: &NumberedInode, links: u16) -> Result<(), NoMemory>
    ensures ok { OnOk result (edits_of edits.new.items ≡ edits_of edits.old.items ++ changes.relink node.now.number (stored node.now.inode) links) }
{
    let mut inode = node.inode;
    inode.links = links;
    push(
        edits,
        Edit::Inode {
            number: node.number,
            inode: Some(inode),
            dated: false,
        },
    )
}

/// A node loses a link; with its last one it goes, and its blocks are free.
pub fn fewer(edits: &mut Vec<Edit>, node: &NumberedInode) -> Result<(), NoMemory>
    requires { IsUsed node.now.inode }
    ensures ok { OnOk result (edits_of edits.new.items ≡ edits_of edits.old.items ++ plans.fewer node.now.number (stored node.now.inode)) }
{
    if is_last(&node.inode) {
        drop_node(edits, node)
    } else {
        relink(edits, node, node.inode.links.saturating_sub(1))
    }
}

// One link is left, or none.
pub(crate) fn is_last(inode: &Inode) -> bool
    ensures { result ≡ plans.is_last (stored inode.now) }
{
    inode.links <= 1
}

// The node goes, with its blocks.
fn drop_node(edits: &mut Vec<Edit>, node: &NumberedInode) -> Result<(), NoMemory>
    requires { IsUsed node.now.inode }
    ensures ok { OnOk result (edits_of edits.new.items ≡ edits_of edits.old.items ++ changes.drop_node node.now.number (stored node.now.inode)) }
{
    drop_blocks(edits, &node.inode)?;
    drop_large(edits, &node.inode)?;
    drop_inode(edits, node.number)
}

// The small blocks are free, the last first.
fn drop_blocks(edits: &mut Vec<Edit>, inode: &Inode) -> Result<(), NoMemory>
    requires { IsUsed inode.now }
    ensures ok { OnOk result (edits_of edits.new.items ≡ edits_of edits.old.items ++ changes.uses_to (slice_index inode.now.small) (changes.freed inode.now.kind) inode.now.blocks) }
{
    let state = state_freed(inode.kind);
    let mut left = usize::from(inode.blocks);
    while left > 0 {
        left -= 1;
        let block = inode.small[left];
        push(edits, Edit::Use { block, state })?;
    }
    Ok(())
}

// What the blocks of a node of this kind are used for when it goes.
fn state_freed(kind: u8) -> BlockState
    ensures { use_by (state_number result) ≡ changes.freed kind }
{
    if kind == KIND_DIRECTORY {
        BlockState::FormerDirectory
    } else {
        BlockState::Unused
    }
}

// The large block is free, where there is one.
fn drop_large(edits: &mut Vec<Edit>, inode: &Inode) -> Result<(), NoMemory>
    ensures ok { OnOk result (edits_of edits.new.items ≡ edits_of edits.old.items ++ changes.large_gone inode.now.large) }
{
    let large = inode.large;
    if large == 0 {
        return Ok(());
    }
    push(
        edits,
        Edit::Large {
            block: large - 1,
            used: false,
        },
    )
}

// The inode is free.
fn drop_inode(edits: &mut Vec<Edit>, number: u32) -> Result<(), NoMemory>
    ensures ok { OnOk result (edits_of edits.new.items ≡ edits_of edits.old.items ++ SetInode number None false ∷ SetBit number false ∷ []) }
{
    push(
        edits,
        Edit::Inode {
            number,
            inode: None,
            dated: false,
        },
    )?;
    mark(edits, number, false)
}

// Whether the bitmap has the inode in use.
fn mark(edits: &mut Vec<Edit>, number: u32, used: bool) -> Result<(), NoMemory>
    ensures ok { OnOk result (edits_of edits.new.items ≡ edits_of edits.old.items ++ SetBit number used ∷ []) }
{
    push(edits, Edit::Bit { number, used })
}
