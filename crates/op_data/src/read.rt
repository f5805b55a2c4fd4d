// The plan of a read.
ghost use Rattle.std.specs.Prelude.{◌≡◌, ◌≤◌, ◌<◌, ◌+◌, ◌-◌, ◌*◌, ◌%◌, ℕ, List, length, take, drop, IfOk};
ghost use Rattle.frang_base.specs.declared.limits.TheConstants.{FILE_BYTES_MAX, LARGE_BLOCK_SECTORS, SECTOR_BYTES, SMALL_SECTORS_MAX};
ghost use Rattle.disk_definitions.specs.Store.{stored};
ghost use Rattle.disk_definitions.specs.FilePlans.{plan_read, sectors_met, showing};
ghost use Rattle.dir_lookup.specs.Hands.{over};
ghost use Rattle.plan_steps.specs.Ends.{Says};
ghost use Rattle.plan_steps.specs.Looking.{Looks};
ghost use Rattle.op_data.specs.Files.{ReadsSectors};

use crate::file::{file_of, sector_bytes};
use dir_lookup::{Hand, Looked};
use disk_definitions::Inode;
use frang_base::limits::SECTOR_BYTES;
use frang_base::{NoMemory, Path, Reply, Text};
use plan_steps::Stop;
use std::alloc::Global;

/// What a read shows of a file: at most `len` bytes from offset `off` on, and none past the end. `Refused` where the path or the offset
/// is refused; `Need` where a sector isn't cached. What it looked at comes to `looked`, but for file bytes.
pub(crate) fn read_file(
    alloc: Global,
    hand: &Hand,
    path: &Path,
    off: u32,
    len: u32,
    looked: &mut Looked,
) -> Result<Reply, Stop>
    ensures says { Says (over (plan_read path.now off len) hand.now) result }
    ensures looks { Looks hand.now.sectors.now.entries hand.now.held.now looked.old looked.new (plan_read path.now off len) }
{
    let file = file_of(hand, path, looked)?;
    show(alloc, hand, &file.inode, off, len)
}

// At most `len` bytes of the file from `off` on.
fn show(alloc: Global, hand: &Hand, inode: &Inode, off: u32, len: u32) -> Result<Reply, Stop>
    requires { inode.now.size ≤ FILE_BYTES_MAX }
    ensures { (i : ℕ) (touched : List ℕ) → Says (over (showing off len i touched (stored inode.now)) hand.now) result }
{
    let size = inode.size as u32;
    if off > size {
        return Err(Stop::Refused(Reply::BadOffset));
    }
    let count = len.min(size - off);
    let first = off / SECTOR_BYTES as u32;
    let end = first + sectors_met(off, count);
    let bytes = bytes_of(alloc, hand, inode, first, end)?;
    let shown = part_of(alloc, bytes.as_slice(), off % SECTOR_BYTES as u32, count)?;
    Ok(Reply::Shown(shown))
}

// So many of the bytes from a place on.
fn part_of(alloc: Global, bytes: &[u8], from: u32, count: u32) -> Result<Text, NoMemory>
    requires from { from < SECTOR_BYTES }
    requires count { count ≤ FILE_BYTES_MAX }
    requires within { 0 < count → from + count ≤ length bytes.now }
    ensures { IfOk result (λ text. text ≡ take count (drop from bytes.now)) }
{
    if count == 0 {
        return Ok(Text::new(alloc));
    }
    let end = from + count;
    Text::of(alloc, &bytes[from as usize..end as usize])
}

// How many sectors so many bytes from an offset on meet.
fn sectors_met(off: u32, len: u32) -> u32
    requires { off + len ≤ FILE_BYTES_MAX }
    ensures is { result ≡ sectors_met off len }
    ensures room { 0 < len → off % SECTOR_BYTES + len ≤ SECTOR_BYTES * result }
{
    if len == 0 {
        0
    } else {
        (off + len - 1) / SECTOR_BYTES as u32 + 1 - off / SECTOR_BYTES as u32
    }
}

// The bytes of the sectors of a file from one to before another.
fn bytes_of(alloc: Global, hand: &Hand, inode: &Inode, first: u32, end: u32) -> Result<Text, Stop>
    requires forth { first ≤ end }
    requires within { end ≤ SMALL_SECTORS_MAX + LARGE_BLOCK_SECTORS }
    ensures reads { ReadsSectors hand.now (stored inode.now) first (end - first) result }
    ensures length { IfOk result (λ bytes. length bytes ≡ SECTOR_BYTES * (end - first)) }
{
    let mut bytes = Text::new(alloc);
    for t in first..end {
        let block = sector_bytes(hand, inode, t)?;
        bytes.append(&block)?;
    }
    Ok(bytes)
}
