// Inodes as the bytes of their sectors.
ghost use Rattle.std.specs.Prelude.{◌≡◌, take};
ghost use Rattle.disk_definitions.specs.Inodes.{inode_bytes};

use byteorder::{ByteOrder, LittleEndian};
use disk_definitions::Inode;
use frang_base::Block;
use frang_base::limits::SECTOR_BYTES;

// The bytes before the small blocks.
const HEAD_BYTES: usize = 32;

/// Makes the block the sector of an inode. What it held counts for nothing. Any inode has bytes; those of one in the grammar read back.
pub fn encode(value: &Inode, to: &mut Block)
    ensures { to.new ≡ inode_bytes value.now }
{
    to[..HEAD_BYTES].copy_from_slice(&head_bytes(value));
    LittleEndian::write_u32_into(&value.small, &mut to[32..96]);
    LittleEndian::write_u32(&mut to[96..], value.large);
    LittleEndian::write_u64(&mut to[100..], value.when);
    to[108..128].copy_from_slice(&[0; 20]);
    to[128..].copy_from_slice(&value.target);
}

/// The sector of an inode.
pub(crate) fn block_of(value: &Inode) -> Block
    ensures { result ≡ inode_bytes value.now }
{
    let mut block = [0; SECTOR_BYTES];
    encode(value, &mut block);
    block
}

// The bytes before the small blocks: version, kind, links, number of small blocks, size and birth.
fn head_bytes(value: &Inode) -> [u8; HEAD_BYTES]
    ensures { result ≡ take 32 (inode_bytes value.now) }
{
    let mut bytes = [0; HEAD_BYTES];
    LittleEndian::write_u64(&mut bytes[..8], value.version);
    bytes[8] = value.kind;
    LittleEndian::write_u16(&mut bytes[10..12], value.links);
    LittleEndian::write_u16(&mut bytes[12..14], value.blocks);
    LittleEndian::write_u64(&mut bytes[16..24], value.size);
    LittleEndian::write_u64(&mut bytes[24..], value.birth);
    bytes
}
