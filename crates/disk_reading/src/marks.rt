// What the bitmaps say of inodes and blocks, against what the inodes say.
ghost use Rattle.std.specs.Prelude.{◌≡◌, ◌≤◌, ◌<◌, ◌*◌, ◌/◌, ◌%◌, not, is_some};
ghost use Rattle.standing_laws.specs.Below.{all_below};
ghost use Rattle.disk_definitions.specs.Store as store;
ghost use Rattle.standing_laws.specs.Soundness as sound;
ghost use Rattle.sector_bytes.specs.Sectors.{sectors_of};
ghost use Rattle.disk_reading.specs.Seen.{store_in, use_of_state};
ghost use Rattle.disk_reading.specs.Tests as tests;

use crate::decoded_disk::DecodedDisk;
use crate::grammar::sectors_fit;
use crate::sectors::{bit_of, entry_at, has_kind, large_bit, use_of, used_inode};
use bitmap_block::BlockState;
use frang_base::limits::{
    BLOCK_ENTRIES, INODE_BLOCKS_MAX, KIND_DIRECTORY, ROOT_INODE, SEGMENT_BLOCKS, SEGMENT_INODES,
    SEGMENTS_MAX,
};

fn bit_agrees(disk: &DecodedDisk<'_>, segments: u32, i: u32) -> bool
    requires { segments ≤ SEGMENTS_MAX }
    ensures { result ≡ sound.bit_agrees (store_in segments disk.now) i }
{
    let used = used_inode(disk, segments, i).is_some();
    if bit_of(disk, segments, i) {
        used
    } else {
        !used
    }
}

/// The small block at an index of an inode, where it has one there.
pub fn block_at(disk: &DecodedDisk<'_>, segments: u32, t: u32) -> Option<u32>
    requires { segments ≤ SEGMENTS_MAX }
    ensures { result ≡ sound.block_at (store_in segments disk.now) t }
{
    let inode = used_inode(disk, segments, t / INODE_BLOCKS_MAX)?;
    let j = t % INODE_BLOCKS_MAX;
    if j < u32::from(inode.blocks) {
        Some(inode.small[j as usize])
    } else {
        None
    }
}

/// The large block of an inode, where it has one.
pub fn large_at(disk: &DecodedDisk<'_>, segments: u32, i: u32) -> Option<u32>
    requires { segments ≤ SEGMENTS_MAX }
    ensures { result ≡ sound.large_at (store_in segments disk.now) i }
{
    let inode = used_inode(disk, segments, i)?;
    if 0 < inode.large {
        Some(inode.large - 1)
    } else {
        None
    }
}

/// Whether a node of this kind uses a block of this state.
pub fn is_used_for(kind: u8, state: BlockState) -> bool
    ensures { result ≡ sound.is_used_for kind (use_of_state state) }
{
    match state {
        BlockState::Unused => false,
        BlockState::FormerDirectory => false,
        BlockState::FileBytes => kind != KIND_DIRECTORY,
        BlockState::Directory => kind == KIND_DIRECTORY,
    }
}

fn use_agrees(disk: &DecodedDisk<'_>, segments: u32, t: u32) -> bool
    requires { segments ≤ SEGMENTS_MAX }
    ensures { result ≡ sound.use_agrees (store_in segments disk.now) ((store_in segments disk.now).inode (t / INODE_BLOCKS_MAX)) (t % INODE_BLOCKS_MAX) }
{
    let Some(inode) = used_inode(disk, segments, t / INODE_BLOCKS_MAX) else {
        return true;
    };
    let j = t % INODE_BLOCKS_MAX;
    if j < u32::from(inode.blocks) {
        is_used_for(inode.kind, use_of(disk, segments, inode.small[j as usize]))
    } else {
        true
    }
}

/// Whether no node uses a block of this state.
pub fn is_unused(state: BlockState) -> bool
    ensures { result ≡ store.is_unused (use_of_state state) }
{
    match state {
        BlockState::Unused => true,
        BlockState::FormerDirectory => true,
        BlockState::FileBytes => false,
        BlockState::Directory => false,
    }
}

/// Whether no place of a small block has an entry.
#[tactic(auto, using(standing_laws::proofs::Bounded::all_more))]
pub fn has_no_entries(disk: &DecodedDisk<'_>, segments: u32, block: u32) -> bool
    requires { segments ≤ SEGMENTS_MAX }
    ensures { result ≡ all_below BLOCK_ENTRIES (λ p. not (is_some ((store_in segments disk.now).place block p))) }
{
    let mut all = true;
    for p in 0..BLOCK_ENTRIES {
        all = all && entry_at(disk, segments, block, p).is_none();
    }
    all
}

fn is_cleared(disk: &DecodedDisk<'_>, segments: u32, block: u32, state: BlockState) -> bool
    requires { segments ≤ SEGMENTS_MAX }
    ensures { result ≡ sound.is_cleared (store_in segments disk.now) block (use_of_state state) }
{
    match state {
        BlockState::FormerDirectory => has_no_entries(disk, segments, block),
        BlockState::Unused => true,
        BlockState::FileBytes => true,
        BlockState::Directory => true,
    }
}

fn is_marked(disk: &DecodedDisk<'_>, segments: u32, g: Option<u32>) -> bool
    requires { segments ≤ SEGMENTS_MAX }
    ensures { result ≡ sound.is_marked (store_in segments disk.now) g }
{
    match g {
        Some(g) => large_bit(disk, segments, g),
        None => true,
    }
}

#[tactic(auto, using(standing_laws::proofs::Bounded::all_more))]
fn bits_agree(disk: &DecodedDisk<'_>, segments: u32) -> bool
    requires { segments ≤ SEGMENTS_MAX }
    ensures { result ≡ all_below (SEGMENT_INODES * segments) (sound.bit_agrees (store_in segments disk.now)) }
{
    let mut all = true;
    for i in 0..SEGMENT_INODES * segments {
        all = all && bit_agrees(disk, segments, i);
    }
    all
}

#[tactic(auto, using(standing_laws::proofs::Bounded::all_more))]
fn uses_agree(disk: &DecodedDisk<'_>, segments: u32) -> bool
    requires { segments ≤ SEGMENTS_MAX }
    ensures { result ≡ all_below (SEGMENT_BLOCKS * segments) (λ t. sound.use_agrees (store_in segments disk.now) ((store_in segments disk.now).inode (t / INODE_BLOCKS_MAX)) (t % INODE_BLOCKS_MAX)) }
{
    let mut all = true;
    for t in 0..SEGMENT_BLOCKS * segments {
        all = all && use_agrees(disk, segments, t);
    }
    all
}

#[tactic(auto, using(standing_laws::proofs::Bounded::all_more))]
fn blocks_cleared(disk: &DecodedDisk<'_>, segments: u32) -> bool
    requires { segments ≤ SEGMENTS_MAX }
    ensures { result ≡ all_below (SEGMENT_BLOCKS * segments) (λ k. sound.is_cleared (store_in segments disk.now) k ((store_in segments disk.now).use_of k)) }
{
    let mut all = true;
    for block in 0..SEGMENT_BLOCKS * segments {
        all = all && is_cleared(disk, segments, block, use_of(disk, segments, block));
    }
    all
}

#[tactic(auto, using(standing_laws::proofs::Bounded::all_more))]
fn larges_marked(disk: &DecodedDisk<'_>, segments: u32) -> bool
    requires { segments ≤ SEGMENTS_MAX }
    ensures { result ≡ all_below (SEGMENT_INODES * segments) (λ i. sound.is_marked (store_in segments disk.now) (sound.large_at (store_in segments disk.now) i)) }
{
    let mut all = true;
    for i in 0..SEGMENT_INODES * segments {
        all = all && is_marked(disk, segments, large_at(disk, segments, i));
    }
    all
}

/// Whether the sectors are in their grammar, with versions up to `most`, and the bitmaps agree with the inodes.
pub(crate) fn marks_agree(disk: &DecodedDisk<'_>, most: u64, segments: u32) -> bool
    requires { segments ≤ SEGMENTS_MAX }
    ensures { result ≡ tests.marks_agree most segments (store_in segments disk.now) (sectors_of disk.now) }
{
    sectors_fit(disk, most, segments)
        && bits_agree(disk, segments)
        && uses_agree(disk, segments)
        && blocks_cleared(disk, segments)
        && larges_marked(disk, segments)
        && has_kind(disk, segments, ROOT_INODE, KIND_DIRECTORY)
}
