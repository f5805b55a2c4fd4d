// Inodes from the bytes of their sectors.
ghost use Rattle.std.specs.Prelude.{◌≡◌, drop};
ghost use Rattle.disk_definitions.specs.Inodes.{inode_fields, inode_in, numbers_in};

use crate::grammar::fits;
use crate::writing::block_of;
use byteorder::{ByteOrder, LittleEndian};
use disk_definitions::Inode;
use frang_base::Block;
use frang_base::limits::{INODE_BLOCKS_MAX, TARGET_BYTES_MAX};

/// The inode whose sector the block is. `None` exactly where the block isn't the sector of an inode that fits.
pub fn decode(from: &Block) -> Option<Inode>
    ensures { result ≡ inode_in from.now }
{
    let value = fields(from);
    if !fits(&value) {
        return None;
    }
    (block_of(&value) == *from).then_some(value)
}

// What stands at the places of the fields.
fn fields(from: &Block) -> Inode
    ensures { result ≡ inode_fields from.now }
{
    Inode {
        version: LittleEndian::read_u64(from),
        kind: from[8],
        links: LittleEndian::read_u16(&from[10..]),
        blocks: LittleEndian::read_u16(&from[12..]),
        size: LittleEndian::read_u64(&from[16..]),
        birth: LittleEndian::read_u64(&from[24..]),
        small: read_small(from),
        large: LittleEndian::read_u32(&from[96..]),
        when: LittleEndian::read_u64(&from[100..]),
        target: read_target(from),
    }
}

const SMALL_BLOCKS: usize = INODE_BLOCKS_MAX as usize;

fn read_small(from: &Block) -> [u32; SMALL_BLOCKS]
    ensures { result ≡ numbers_in INODE_BLOCKS_MAX (drop 32 from.now) }
{
    let mut small = [0; SMALL_BLOCKS];
    LittleEndian::read_u32_into(&from[32..96], &mut small);
    small
}

fn read_target(from: &Block) -> [u8; TARGET_BYTES_MAX]
    ensures { result ≡ drop 128 from.now }
{
    let mut target = [0; TARGET_BYTES_MAX];
    target.copy_from_slice(&from[128..]);
    target
}
