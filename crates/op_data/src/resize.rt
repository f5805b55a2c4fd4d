// The inode of a file that is written, and the edits that take blocks for it.
ghost use Rattle.std.specs.Prelude.{◌≡◌, ◌≤◌, ◌<◌, ◌-◌, ◌++◌, IfOk, IfSome, OnOk, length, map, slice_index};
ghost use Rattle.frang_base.specs.declared.limits.TheConstants.{INODE_BLOCKS_MAX, SEGMENTS_MAX};
ghost use Rattle.disk_definitions.specs.Store.Use.{Bytes};
ghost use Rattle.disk_definitions.specs.Store.{stored};
ghost use Rattle.disk_definitions.specs.Edits.Edit.{SetUse};
ghost use Rattle.tree_definitions.specs.Tree.{small_blocks_of};
ghost use Rattle.disk_definitions.specs.FilePlans.{file_dated, large_after, large_taken, resized, small_after};
ghost use Rattle.plan_steps.specs.Edits.{edits_of};
ghost use Rattle.op_data.specs.Files.{IsFile};

use crate::shorter::blocks_of;
use bitmap_alloc::BlockState;
use disk_definitions::Inode;
use frang_base::NoMemory;
use frang_base::limits::{INODE_BLOCKS_MAX, SMALL_BYTES_MAX};
use plan_steps::{Edit, push};
use std::alloc::Global;

/// The blocks that a file gets beside its own.
#[derive(Clone, Copy)]
pub(crate) struct NewBlocks<'a> {
    /// The small blocks, which come behind those that it has.
    pub small: &'a [u32],
    /// The large block, where it gets one.
    pub large: Option<u32>,
}

/// The inode of a file that is written at the time `when`, with its size then and these blocks more.
pub(crate) fn resized(inode: &Inode, when: u64, size: u64, more: &NewBlocks) -> Inode
    requires file { IsFile inode.now }
    requires picks { small_blocks_of size - inode.now.blocks ≤ length more.now.small.now }
    requires large { IfSome more.now.large (λ g. g < SEGMENTS_MAX) }
    ensures { stored result ≡ resized (stored inode.now) when size more.now.small.now more.now.large }
{
    let blocks = blocks_of(size);
    Inode {
        size,
        blocks,
        small: small_after(inode, more.small, blocks),
        large: large_after(inode, more.large, size),
        when,
        ..*inode
    }
}

// Its small blocks.
fn small_after(inode: &Inode, picks: &[u32], blocks: u16) -> [u32; 16]
    requires picks { blocks - inode.now.blocks ≤ length picks.now }
    requires few { blocks ≤ INODE_BLOCKS_MAX }
    ensures { slice_index result ≡ small_after (stored inode.now) picks.now blocks }
{
    let mut small = [0; INODE_BLOCKS_MAX as usize];
    for n in 0..blocks {
        small[usize::from(n)] = small_at(inode, picks, blocks, n);
    }
    small
}

// Its small block `n`.
fn small_at(inode: &Inode, picks: &[u32], blocks: u16, n: u16) -> u32
    requires picks { blocks - inode.now.blocks ≤ length picks.now }
    requires few { blocks ≤ INODE_BLOCKS_MAX }
    requires n { n < blocks }
    ensures { result ≡ small_after (stored inode.now) picks.now blocks n }
{
    if n < inode.blocks {
        inode.small[usize::from(n)]
    } else {
        picks[usize::from(n - inode.blocks)]
    }
}

// Its large block plus 1, or 0.
fn large_after(inode: &Inode, large: Option<u32>, size: u64) -> u32
    requires { IfSome large (λ g. g < SEGMENTS_MAX) }
    ensures { result ≡ large_after (stored inode.now) large size }
{
    if size <= SMALL_BYTES_MAX {
        return 0;
    }
    match large {
        Some(block) => block + 1,
        None => inode.large,
    }
}

/// The edits of all but the bytes: the blocks are taken, and the file's inode is written.
pub(crate) fn taken(
    alloc: Global,
    number: u32,
    new: &Inode,
    more: &NewBlocks,
) -> Result<Vec<Edit>, NoMemory>
    ensures { IfOk result (λ v. edits_of v.items ≡ map (λ k. SetUse k Bytes) more.now.small.now ++ (large_taken more.now.large ++ file_dated number (stored new.now))) }
{
    let mut edits = Vec::new(alloc);
    add_picks(&mut edits, more.small)?;
    add_large(&mut edits, more.large)?;
    add_inode(&mut edits, number, new)?;
    Ok(edits)
}

// The small blocks hold bytes.
fn add_picks(edits: &mut Vec<Edit>, picks: &[u32]) -> Result<(), NoMemory>
    ensures { OnOk result (edits_of edits.new.items ≡ edits_of edits.old.items ++ map (λ k. SetUse k Bytes) picks.now) }
{
    for pick in picks {
        let block = *pick;
        let state = BlockState::FileBytes;
        push(edits, Edit::Use { block, state })?;
    }
    Ok(())
}

// The large block is in use.
fn add_large(edits: &mut Vec<Edit>, large: Option<u32>) -> Result<(), NoMemory>
    ensures { OnOk result (edits_of edits.new.items ≡ edits_of edits.old.items ++ large_taken large) }
{
    if let Some(block) = large {
        push(edits, Edit::Large { block, used: true })?;
    }
    Ok(())
}

/// The inode of a file that is written or cut. Its time goes into the change even where nothing else of it does.
pub(crate) fn add_inode(edits: &mut Vec<Edit>, number: u32, new: &Inode) -> Result<(), NoMemory>
    ensures { OnOk result (edits_of edits.new.items ≡ edits_of edits.old.items ++ file_dated number (stored new.now)) }
{
    let inode = Some(*new);
    let dated = true;
    push(
        edits,
        Edit::Inode {
            number,
            inode,
            dated,
        },
    )
}
