// A disk as bytes.
ghost use Rattle.std.specs.Prelude.{◌≡◌, ◌≤◌, ◌+◌, ◌*◌, ◌++◌, OnErr, OnOk, length};
ghost use Rattle.std.specs.Map.{values_of};
ghost use Rattle.std.specs.List.{flat_map};
ghost use Rattle.std.specs.Vec.{vec_capacity, vec_len};
ghost use Rattle.byteorder.specs.Endian.{little_bytes};
ghost use Rattle.sector_bytes.specs.Bytes.{are_zero};
ghost use Rattle.image_file.specs.Images.{image_entry, image_mark, image_text, sectors_written};
ghost use Rattle.image_file.specs.Entries.{written_blocks, Adds, HasRoom};

use crate::entry::is_zero;
use crate::format::{ENTRY_BYTES, HEADER_BYTES, MARK};
use byteorder::{ByteOrder, LittleEndian};
use disk_definitions::Disk;
use frang_base::{Block, NoMemory};
use sqlite_items::Boxed;
use std::collections::BTreeMap;

fn is_blank(block: &Boxed<Block>) -> bool
    ensures { result ≡ are_zero block.now }
{
    is_zero(block.get())
}

fn count_blocks(blocks: &BTreeMap<u64, Boxed<Block>>) -> u64
    ensures { result ≡ length (written_blocks (values_of blocks.now.entries)) }
{
    let mut count = 0u64;
    for block in blocks.values() {
        if !is_blank(block) {
            count += 1;
        }
    }
    count
}

// The number of sectors that aren't zero.
#[tactic(auto, using(crate::proofs::CountingWritten::count_of_blocks))]
fn count_written(disk: &Disk) -> u64
    ensures { result ≡ length (sectors_written disk.now) }
{
    count_blocks(disk.as_map())
}

// Takes the memory for an image of so many sectors.
fn reserve(count: u64, to: &mut Vec<u8>) -> Result<(), NoMemory>
    ensures items { to.new.items ≡ to.old.items }
    ensures room { OnOk result (HasRoom to.new (16 + 520 * count)) }
{
    let Some(len) = count
        .checked_mul(ENTRY_BYTES)
        .and_then(|entries| entries.checked_add(HEADER_BYTES))
    else {
        return Err(NoMemory);
    };
    to.reserve(len as usize)?;
    Ok(())
}

// Adds bytes for which there is room.
fn add(bytes: &[u8], to: &mut Vec<u8>)
    requires { HasRoom to.old (length bytes.now) }
    ensures { Adds to.old to.new bytes.now }
{
    match to.extend_from_slice(bytes) {
        Ok(()) => {}
        Err(_) => unreachable!(),
    }
}

fn add_number(number: u64, to: &mut Vec<u8>)
    requires { HasRoom to.old 8 }
    ensures { Adds to.old to.new (little_bytes 8 number) }
{
    let mut bytes = [0; 8];
    LittleEndian::write_u64(&mut bytes, number);
    add(&bytes, to);
}

fn add_header(count: u64, to: &mut Vec<u8>)
    requires { HasRoom to.old 16 }
    ensures { Adds to.old to.new (image_mark ++ little_bytes 8 count) }
{
    add(&MARK, to);
    add_number(count, to);
}

fn add_entry(sector: u64, block: &Boxed<Block>, to: &mut Vec<u8>)
    requires { HasRoom to.old 520 }
    ensures entry { Adds to.old to.new (image_entry (sector, block.now)) }
    ensures len { vec_len to.new ≡ vec_len to.old + 520 }
{
    add_number(sector, to);
    add(block.get(), to);
}

// Adds the entries of the sectors that aren't zero.
fn add_entries(disk: &Disk, to: &mut Vec<u8>)
    requires { HasRoom to.old (520 * length (sectors_written disk.now)) }
    ensures { to.new.items ≡ to.old.items ++ flat_map image_entry (sectors_written disk.now) }
{
    for (sector, block) in disk.as_map() {
        if !is_blank(block) {
            add_entry(*sector, block, to);
        }
    }
}

/// Adds the image of the disk: the header, and an entry for each sector that isn't zero, ascending. After `NoMemory` nothing was
/// added.
pub fn write_image(disk: &Disk, to: &mut Vec<u8>) -> Result<(), NoMemory>
    ensures ok { OnOk result (to.new.items ≡ to.old.items ++ image_text disk.now) }
    ensures err { OnErr result (to.new.items ≡ to.old.items) }
{
    let count = count_written(disk);
    reserve(count, to)?;
    add_header(count, to);
    add_entries(disk, to);
    Ok(())
}
