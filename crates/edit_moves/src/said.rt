// What the edits of a plan say of an inode or of a block, each the first edit that says something.
ghost use Rattle.std.specs.Prelude.{◌≡◌, ◌==◌, ◌+◌};
ghost use Rattle.std.specs.Option.{option_map};
ghost use Rattle.disk_definitions.specs.Store.{stored};
ghost use Rattle.disk_definitions.specs.Moves as covers;
ghost use Rattle.disk_definitions.specs.Moves.{first_said};
ghost use Rattle.plan_steps.specs.Edits.{edit_of, edits_of};
ghost use Rattle.edit_moves.specs.Moves.{use_as};

use bitmap_block::BlockState;
use disk_definitions::Inode;
use plan_steps::Edit;

/// The new bit of an inode.
pub(crate) fn bit_said(edits: &[Edit], inode: u32) -> Option<bool>
    ensures { result ≡ first_said (covers.bit_said inode) (edits_of edits.now) }
{
    for edit in edits {
        if let Some(used) = bit_in(edit, inode) {
            return Some(used);
        }
    }
    None
}

fn bit_in(edit: &Edit, inode: u32) -> Option<bool>
    ensures { result ≡ covers.bit_said inode (edit_of edit.now) }
{
    match edit {
        Edit::Bit { number, used } if inode == *number => Some(*used),
        _ => None,
    }
}

/// The new use of a small block.
pub(crate) fn use_said(edits: &[Edit], block: u32) -> Option<BlockState>
    ensures { option_map use_as result ≡ first_said (covers.use_said block) (edits_of edits.now) }
{
    for edit in edits {
        if let Some(state) = use_in(edit, block) {
            return Some(state);
        }
    }
    None
}

fn use_in(edit: &Edit, block: u32) -> Option<BlockState>
    ensures { option_map use_as result ≡ covers.use_said block (edit_of edit.now) }
{
    match edit {
        Edit::Use {
            block: other,
            state,
        } if block == *other => Some(*state),
        _ => None,
    }
}

/// The new bit of a large block.
pub(crate) fn large_said(edits: &[Edit], block: u32) -> Option<bool>
    ensures { result ≡ first_said (covers.large_said block) (edits_of edits.now) }
{
    for edit in edits {
        if let Some(used) = large_in(edit, block) {
            return Some(used);
        }
    }
    None
}

fn large_in(edit: &Edit, block: u32) -> Option<bool>
    ensures { result ≡ covers.large_said block (edit_of edit.now) }
{
    match edit {
        Edit::Large { block: other, used } if block == *other => Some(*used),
        _ => None,
    }
}

/// The first inode that is written with this small block.
pub(crate) fn taker_of(edits: &[Edit], block: u32) -> Option<u32>
    ensures { result ≡ first_said (covers.taker_said block) (edits_of edits.now) }
{
    for edit in edits {
        if let Some(inode) = taker_in(edit, block) {
            return Some(inode);
        }
    }
    None
}

fn taker_in(edit: &Edit, block: u32) -> Option<u32>
    ensures { result ≡ covers.taker_said block (edit_of edit.now) }
{
    match edit {
        Edit::Inode {
            number,
            inode: Some(inode),
            ..
        } => {
            if has_small(inode, block) {
                Some(*number)
            } else {
                None
            }
        }
        _ => None,
    }
}

/// Whether a small block is one of an inode's.
pub fn has_small(inode: &Inode, block: u32) -> bool
    ensures { result ≡ covers.is_small_of block (stored inode.now) }
{
    let mut left = inode.blocks;
    while left > 0 {
        left -= 1;
        if small_at(inode, left) == block {
            return true;
        }
    }
    false
}

// The small block of an inode at this index; past the end of the list it is 0.
fn small_at(inode: &Inode, index: u16) -> u32
    ensures { result ≡ (stored inode.now).small index }
{
    match inode.small.get(usize::from(index)) {
        Some(block) => *block,
        None => 0,
    }
}

/// The first inode that is written with this large block.
pub(crate) fn large_taker_of(edits: &[Edit], block: u32) -> Option<u32>
    ensures { result ≡ first_said (covers.large_taker_said block) (edits_of edits.now) }
{
    for edit in edits {
        if let Some(inode) = large_taker_in(edit, block) {
            return Some(inode);
        }
    }
    None
}

fn large_taker_in(edit: &Edit, block: u32) -> Option<u32>
    ensures { result ≡ covers.large_taker_said block (edit_of edit.now) }
{
    match edit {
        Edit::Inode {
            number,
            inode: Some(inode),
            ..
        } => {
            if has_large(inode, block) {
                Some(*number)
            } else {
                None
            }
        }
        _ => None,
    }
}

/// Whether a large block is an inode's, which keeps its number plus one.
pub fn has_large(inode: &Inode, block: u32) -> bool
    ensures { result ≡ ((stored inode.now).large == block + 1) }
{
    u64::from(inode.large) == u64::from(block) + 1
}
