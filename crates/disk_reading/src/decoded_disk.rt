// A disk of which the bitmaps and inodes are decoded once.
ghost use Rattle.std.specs.Prelude.{◌≡◌, ◌≤◌, ◌<◌, None, length, slice_index_or, IfOk};
ghost use Rattle.sector_bytes.specs.Sectors.{sectors_of};
ghost use Rattle.disk_reading.specs.Kept.{AreInodes, AreSegments, inode_of, segment_of};

use disk_definitions::{Disk, Inode};
use frang_base::limits::{SEGMENT_INODES, SEGMENTS_MAX};
use frang_base::{Bitmap, Block, NoMemory, Sector};
use frang_layout::{Region, sector_of};
use std::alloc::Global;
use std::marker::Model;

/// A disk, seen as its sectors. What the first segments of its bitmap and their inodes say is kept, so that each is decoded once, however
/// often it is asked for.
#[derive(Drop)]
pub struct DecodedDisk<'a> {
    disk: &'a Disk,
    bitmaps: Vec<Option<Bitmap>>,
    inodes: Vec<Option<Inode>>,
}

impl<'a> Model for DecodedDisk<'a> {
    ghost use Rattle.std.specs.Prelude.{List, ℕ};
    ghost use Rattle.disk_reading.specs.Kept.{AreInodes, AreSegments};

    ghost Value = { List (ℕ × List ℕ) };

    ghost view = { λ d. d.disk.now };

    ghost invariant = { λ d. AreSegments d.disk.now d.bitmaps.items × AreInodes d.disk.now d.inodes.items };
}

// A segment of the bitmap, decoded.
#[tactic(auto, unfolding(crate::specs::Kept::segment_of))]
fn decode_segment(disk: &Disk, k: u32) -> Option<Bitmap>
    ensures { result ≡ segment_of disk.now k }
{
    bitmap_block::decode(&disk.get(sector_of(&Region::Segment(k))))
}

// An inode, decoded.
fn decode_inode(disk: &Disk, i: u32) -> Option<Inode>
    ensures { result ≡ inode_of disk.now i }
{
    inode_block::decode(&disk.get(sector_of(&Region::Inode(i))))
}

// The first segments of the bitmap, decoded.
fn decode_segments(alloc: Global, disk: &Disk, count: u32) -> Result<Vec<Option<Bitmap>>, NoMemory>
    ensures { IfOk result (λ v. AreSegments disk.now v.items) }
{
    let mut bitmaps = Vec::new(alloc);
    for k in 0..count {
        let bitmap = decode_segment(disk, k);
        bitmaps.push(bitmap)?;
    }
    Ok(bitmaps)
}

// The first inodes, decoded.
fn decode_inodes(alloc: Global, disk: &Disk, count: u32) -> Result<Vec<Option<Inode>>, NoMemory>
    ensures { IfOk result (λ v. AreInodes disk.now v.items) }
{
    let mut inodes = Vec::new(alloc);
    for i in 0..count {
        let inode = decode_inode(disk, i);
        inodes.push(inode)?;
    }
    Ok(inodes)
}

fn kept_segment(bitmaps: &[Option<Bitmap>], k: usize) -> Option<Bitmap>
    requires { k < length bitmaps.now }
    ensures { result ≡ slice_index_or bitmaps.now k None }
{
    bitmaps[k]
}

fn kept_inode(inodes: &[Option<Inode>], i: usize) -> Option<Inode>
    requires { i < length inodes.now }
    ensures { result ≡ slice_index_or inodes.now i None }
{
    inodes[i]
}

impl<'a> DecodedDisk<'a> {
    /// The disk, of which so many segments of the bitmap and their inodes are kept.
    pub fn of(alloc: Global, disk: &'a Disk, segments: u32) -> Result<DecodedDisk<'a>, NoMemory>
        requires { segments ≤ SEGMENTS_MAX }
        ensures { IfOk result (λ d. d ≡ disk.now) }
    {
        let bitmaps = decode_segments(alloc, disk, segments)?;
        let inodes = decode_inodes(alloc, disk, SEGMENT_INODES * segments)?;
        Ok(DecodedDisk {
            disk,
            bitmaps,
            inodes,
        })
    }

    /// The block of a sector: zeros where it wasn't set.
    pub fn get(&self, sector: Sector) -> Block
        ensures { result ≡ sectors_of self.now sector.0 }
    {
        self.disk.get(sector)
    }

    /// Segment `k` of the bitmap. `None` exactly where its sector isn't in its grammar.
    pub fn segment(&self, k: u32) -> Option<Bitmap>
        ensures { result ≡ segment_of self.now k }
    {
        if (k as usize) < self.bitmaps.len() {
            kept_segment(&self.bitmaps, k as usize)
        } else {
            decode_segment(self.disk, k)
        }
    }

    /// Inode `i`. `None` exactly where its sector isn't in its grammar.
    pub fn inode(&self, i: u32) -> Option<Inode>
        ensures { result ≡ inode_of self.now i }
    {
        if (i as usize) < self.inodes.len() {
            kept_inode(&self.inodes, i as usize)
        } else {
            decode_inode(self.disk, i)
        }
    }
}
