// Entries of images: which flaw they have.
ghost use Rattle.std.specs.Prelude.{◌≡◌, IfOk, MatchResult, None, Some};
ghost use Rattle.std.specs.Option.{option_map};
ghost use Rattle.image_file.specs.Images.{block_fits, block_flaw, entry_flaw, first_flaw, may_run_again};
ghost use Rattle.image_file.specs.Entries.{HasSegments, entry_of, next_entry};
ghost use Rattle.sector_bytes.specs.Bytes.{are_zero};
ghost use Rattle.disk_definitions.specs.Params.{param_in};

use crate::fault::ImageFlaw;
use byteorder::{ByteOrder, LittleEndian};
use disk_definitions::{Param, Region};
use frang_base::limits::SECTOR_BYTES;
use frang_base::{Block, Sector};
use frang_layout::region_of;

// A sector with its block.
#[derive(Clone, Copy)]
pub struct Entry<'a> {
    pub sector: u64,
    pub block: &'a Block,
}

// The entry at the first byte, and the bytes after it.
pub fn next_entry(bytes: &[u8]) -> Option<(Entry<'_>, &[u8])>
    ensures { option_map (λ found. (entry_of found.0, found.1.now)) result ≡ next_entry bytes.now }
{
    let (number, behind) = bytes.split_first_chunk::<8>()?;
    let (block, rest) = behind.split_first_chunk::<SECTOR_BYTES>()?;
    let sector = LittleEndian::read_u64(number);
    Some((Entry { sector, block }, rest))
}

pub fn is_zero(block: &Block) -> bool
    ensures { result ≡ are_zero block.now }
{
    block.iter().all(|byte| *byte == 0)
}

// Another run may follow the run of these parameters.
fn may_run_again(param: Option<Param>) -> bool
    ensures { result ≡ may_run_again param }
{
    match param {
        None => false,
        Some(param) => param.run < u32::MAX,
    }
}

fn block_fits(region: Region, block: &Block) -> bool
    ensures { result ≡ block_fits region block.now }
{
    match region {
        Region::Param => may_run_again(param_block::decode(block)),
        Region::Log { slot, .. } => log_record::sector_read(block, slot).is_some(),
        Region::Segment(_) => bitmap_block::decode(block).is_some(),
        Region::Inode(_) => inode_block::decode(block).is_some(),
        Region::Small { .. } | Region::Large { .. } => true,
    }
}

fn block_flaw(region: Option<Region>, block: &Block) -> Option<ImageFlaw>
    ensures { result ≡ block_flaw region block.now }
{
    let Some(region) = region else {
        return Some(ImageFlaw::NoRegion);
    };
    if is_zero(block) {
        return Some(ImageFlaw::OfZeros);
    }
    if block_fits(region, block) {
        None
    } else {
        Some(ImageFlaw::BadSector)
    }
}

// The flaw of an entry behind a sector, on a disk of so many segments.
pub fn entry_flaw(segments: u32, before: u64, entry: &Entry<'_>) -> Option<ImageFlaw>
    requires { HasSegments segments }
    ensures { result ≡ entry_flaw segments before (entry_of entry.now) }
{
    if entry.sector <= before {
        return Some(ImageFlaw::OutOfOrder);
    }
    block_flaw(region_of(Sector(entry.sector), segments), entry.block)
}

// The parameters that the first entry has, with 1 to 64 segments, or its flaw.
pub fn first_param(first: &Entry<'_>) -> Result<Param, ImageFlaw>
    ensures found { MatchResult result (λ param. (first_flaw (entry_of first.now) ≡ None) × (param_in first.now.block.now ≡ Some param)) (λ flaw. first_flaw (entry_of first.now) ≡ Some flaw) }
    ensures segments { IfOk result (λ param. HasSegments param.segments) }
{
    if first.sector != 0 {
        return Err(ImageFlaw::BadSector);
    }
    if is_zero(first.block) {
        return Err(ImageFlaw::OfZeros);
    }
    match param_block::decode(first.block) {
        Some(param) if param.run < u32::MAX => Ok(param),
        _ => Err(ImageFlaw::BadSector),
    }
}
