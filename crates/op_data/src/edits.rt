// The sectors that what is written meets, one after another.
ghost use Rattle.std.specs.Prelude.{◌≡◌, ◌≤◌, ◌<◌, ◌+◌};
ghost use Rattle.frang_base.specs.declared.limits.TheConstants.{FILE_BYTES_MAX, LARGE_BLOCK_SECTORS, SMALL_SECTORS_MAX};
ghost use Rattle.disk_definitions.specs.Store.{stored};
ghost use Rattle.disk_definitions.specs.FilePlans.{end_of};
ghost use Rattle.op_data.specs.Writings.{FindsAround, WritesSector, WritesSectors, writing_of};

use crate::file::sector_bytes;
use crate::part::set_sector;
use crate::writing::Writing;
use dir_lookup::{Hand, Need};
use disk_definitions::Inode;
use frang_base::Block;
use frang_base::limits::SECTOR_BYTES;
use plan_steps::{Edit, Stop, push};
use sector_bytes::zero_block;

/// Adds the edits of the bytes. `old` is the inode as it is, and `new` as it will be.
pub(crate) fn add_sectors(
    edits: Vec<Edit>,
    hand: &Hand,
    writing: &Writing,
    old: &Inode,
    new: &Inode,
) -> Result<Vec<Edit>, Stop>
    requires { end_of (writing_of writing.now) ≤ FILE_BYTES_MAX }
    ensures { WritesSectors hand.now (writing_of writing.now) (stored old.now) (stored new.now) edits.items result }
{
    let mut edits = edits;
    let first = writing.off / SECTOR_BYTES as u32;
    for t in first..first + writing.sectors_met() as u32 {
        let edit = sector_edit(hand, writing, old, new, t)?;
        push(&mut edits, edit)?;
    }
    Ok(edits)
}

// The edit of sector `t`: the bytes around are those that are there, or zeros where none of them counts.
fn sector_edit(
    hand: &Hand,
    writing: &Writing,
    old: &Inode,
    new: &Inode,
    t: u32,
) -> Result<Edit, Need>
    requires { t < SMALL_SECTORS_MAX + LARGE_BLOCK_SECTORS }
    ensures { WritesSector hand.now (writing_of writing.now) (stored old.now) (stored new.now) t result }
{
    let around = bytes_around(hand, writing, old, t)?;
    Ok(set_sector(new, t, &writing.mixed(t, &around)))
}

// What stands in sector `t`, where some of it stays.
fn bytes_around(hand: &Hand, writing: &Writing, old: &Inode, t: u32) -> Result<Block, Need>
    requires { t < SMALL_SECTORS_MAX + LARGE_BLOCK_SECTORS }
    ensures { FindsAround hand.now (writing_of writing.now) (stored old.now) t result }
{
    if writing.keeps_bytes(old.size, t) {
        sector_bytes(hand, old, t)
    } else {
        Ok(zero_block())
    }
}
