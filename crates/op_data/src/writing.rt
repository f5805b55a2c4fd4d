// What is written, and where.
ghost use Rattle.std.specs.Prelude.{◌≡◌, ◌<◌, ◌+◌, ◌^◌, slice_index};
ghost use Rattle.frang_base.specs.declared.limits.TheConstants.{LARGE_BLOCK_SECTORS, SMALL_SECTORS_MAX};
ghost use Rattle.disk_definitions.specs.FilePlans.{byte_over, end_of, keeps_bytes, mixed, sectors_met};
ghost use Rattle.op_data.specs.Writings.{byte_of, writing_of};

use frang_base::Block;
use frang_base::limits::SECTOR_BYTES;
use tree_edits::{Bytes, count_of};

/// Bytes that are written from an offset of a file on.
#[derive(Clone, Copy)]
pub(crate) struct Writing<'a> {
    pub off: u32,
    /// The time at which they are written, which becomes the file's.
    pub when: u64,
    pub bytes: Bytes<'a>,
}

impl Writing<'_> {
    /// Where the bytes end.
    pub(crate) fn end(&self) -> u64
        ensures is { result ≡ end_of (writing_of self.now) }
        ensures small { result < 2 ^ 64 }
    {
        u64::from(self.off) + count_of(&self.bytes) as u64
    }

    /// How many sectors the bytes meet.
    pub(crate) fn sectors_met(&self) -> u64
        ensures { result ≡ sectors_met (writing_of self.now).off (writing_of self.now).len }
    {
        if count_of(&self.bytes) == 0 {
            0
        } else {
            let first = u64::from(self.off / SECTOR_BYTES as u32);
            (self.end() - 1) / SECTOR_BYTES as u64 + 1 - first
        }
    }

    /// Whether a byte below the old size in sector `t` isn't overwritten.
    pub(crate) fn keeps_bytes(&self, size: u64, t: u32) -> bool
        requires { t < SMALL_SECTORS_MAX + LARGE_BLOCK_SECTORS }
        ensures { result ≡ keeps_bytes (writing_of self.now) size t }
    {
        let from = u64::from(SECTOR_BYTES as u32 * t);
        let to = u64::from(SECTOR_BYTES as u32 * (t + 1));
        from < size.min(u64::from(self.off)) || self.end() < size.min(to)
    }

    // The new byte at a place of the file, or the old one.
    fn byte_over(&self, at: u64, old: u8) -> u8
        ensures { result ≡ byte_over (writing_of self.now) at old }
    {
        let off = u64::from(self.off);
        if off <= at && at < self.end() {
            byte_of(&self.bytes, at - off)
        } else {
            old
        }
    }

    /// The bytes of sector `t`, the new ones among the old ones.
    pub(crate) fn mixed(&self, t: u32, around: &Block) -> Block
        requires { t < SMALL_SECTORS_MAX + LARGE_BLOCK_SECTORS }
        ensures { slice_index result ≡ mixed (writing_of self.now) t (slice_index around.now) }
    {
        let mut block = *around;
        for r in 0..SECTOR_BYTES {
            let at = u64::from(SECTOR_BYTES as u32 * t) + r as u64;
            block[r] = self.byte_over(at, block[r]);
        }
        block
    }
}

// A byte of what is written, by its place in it; past the end of a text it is 0.
fn byte_of(bytes: &Bytes, i: u64) -> u8
    ensures { result ≡ byte_of bytes.now i }
{
    match bytes {
        Bytes::Text(bytes) => match bytes.get(i as usize) {
            Some(byte) => *byte,
            None => 0,
        },
        Bytes::Same { byte, .. } => *byte,
    }
}
