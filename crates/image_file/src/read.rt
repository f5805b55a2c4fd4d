// A disk from bytes.
ghost use Rattle.std.specs.Prelude.{◌≡◌, ◌<◌, ◌+◌, ◌^◌, ◌++◌, ◌∷◌, [], length, Err, OnErr, OnOk};
ghost use Rattle.std.specs.Option.{option_map};
ghost use Rattle.image_file.specs.Images.{entries_in, fault, image_in, sectors_in};
ghost use Rattle.image_file.specs.Answers.{Gives, GivesImage};
ghost use Rattle.image_file.specs.Entries.{behind, EndsBy, HasSegments, entry_of, header_of};
ghost use Rattle.image_file.specs.declared.refusal.Refusal.TheVariants as refusal;

use crate::entry::{Entry, entry_flaw, first_param, next_entry};
use crate::fault::{ImageFault, ImageFlaw};
use crate::format::{ENTRY_BYTES, HEADER_BYTES, MARK};
use crate::refusal::{ImageRead, Refusal};
use byteorder::{ByteOrder, LittleEndian};
use disk_definitions::Disk;
use frang_base::{NoMemory, Sector};
use std::alloc::Global;

fn refusal(at: u64, flaw: ImageFlaw) -> Refusal
    ensures { result ≡ refusal.Bad (fault at flaw) }
{
    Refusal::Bad(ImageFault { at, flaw })
}

// One sector more, behind the last.
fn add_last(disk: &mut Disk, _last: u64, entry: &Entry<'_>) -> Result<(), NoMemory>
    requires ends { EndsBy _last disk.old }
    requires greater { _last < entry.now.sector }
    ensures ok { OnOk result (disk.new ≡ disk.old ++ entry_of entry.now ∷ []) }
    ensures ends { OnOk result (EndsBy entry.now.sector disk.new) }
{
    disk.set(Sector(entry.sector), *entry.block)
}

// So many entries behind the first, which is on the disk.
#[tactic(auto, using(crate::proofs::ReadingEntries::cut_turn, crate::proofs::ReadingEntries::flaw_turn))]
fn read_entries(disk: Disk, segments: u32, count: u64, bytes: &[u8]) -> Result<Disk, Refusal>
    requires first { EndsBy 0 disk }
    requires segments { HasSegments segments }
    requires fits { 536 + length bytes.now < 2 ^ 64 }
    ensures { Gives (behind disk (entries_in segments 0 536 count bytes.now)) result }
{
    let mut disk = disk;
    let mut last = 0;
    let mut at = HEADER_BYTES + ENTRY_BYTES;
    let mut left = count;
    let mut rest = bytes;
    while left > 0 {
        let Some((entry, after)) = next_entry(rest) else {
            return Err(refusal(at, ImageFlaw::Cut));
        };
        if let Some(flaw) = entry_flaw(segments, last, &entry) {
            return Err(refusal(at, flaw));
        }
        add_last(&mut disk, last, &entry)?;
        last = entry.sector;
        at += ENTRY_BYTES;
        left -= 1;
        rest = after;
    }
    if rest.is_empty() {
        Ok(disk)
    } else {
        Err(refusal(at, ImageFlaw::BytesAfter))
    }
}

// So many entries behind the header.
#[tactic(auto, using(crate::proofs::ReadingEntries::first_turn, crate::proofs::ReadingEntries::first_flaw_turn))]
fn read_sectors(alloc: Global, count: u64, bytes: &[u8]) -> Result<Disk, Refusal>
    requires fits { 16 + length bytes.now < 2 ^ 64 }
    ensures { Gives (sectors_in count bytes.now) result }
{
    if count == 0 {
        let flaw = if bytes.is_empty() {
            ImageFlaw::BadSector
        } else {
            ImageFlaw::BytesAfter
        };
        return Err(refusal(HEADER_BYTES, flaw));
    }
    let Some((first, rest)) = next_entry(bytes) else {
        return Err(refusal(HEADER_BYTES, ImageFlaw::Cut));
    };
    let param = match first_param(&first) {
        Ok(param) => param,
        Err(flaw) => return Err(refusal(HEADER_BYTES, flaw)),
    };
    let mut disk = Disk::new(alloc);
    disk.set(Sector(first.sector), *first.block)?;
    read_entries(disk, param.segments, count - 1, rest)
}

// The mark, the count and the bytes after the header.
fn split_header(bytes: &[u8]) -> Option<(&[u8; 8], u64, &[u8])>
    ensures { option_map (λ h. (h.0.now, h.1, h.2.now)) result ≡ header_of bytes.now }
{
    let (mark, behind) = bytes.split_first_chunk::<8>()?;
    let (count, rest) = behind.split_first_chunk::<8>()?;
    Some((mark, LittleEndian::read_u64(count), rest))
}

fn read_header(alloc: Global, bytes: &[u8]) -> Result<Disk, Refusal>
    ensures { Gives (image_in bytes.now) result }
{
    let Some((mark, count, rest)) = split_header(bytes) else {
        return Err(refusal(0, ImageFlaw::Cut));
    };
    if *mark != MARK {
        return Err(refusal(0, ImageFlaw::OtherMark));
    }
    read_sectors(alloc, count, rest)
}

/// The disk whose image the bytes are: the sectors of the image, and else zeros. `Bad` comes exactly where they are the image of
/// none, with the first fault. What is read takes memory in proportion to the bytes.
pub fn read_image(alloc: Global, bytes: &[u8]) -> Result<Disk, ImageRead>
    ensures { GivesImage (image_in bytes.now) result }
{
    match read_header(alloc, bytes) {
        Ok(disk) => Ok(disk),
        Err(Refusal::Bad(fault)) => Err(ImageRead::Bad {
            at: fault.at,
            kind: fault.flaw.kind(),
        }),
        Err(Refusal::NoMemory) => Err(ImageRead::NoMemory),
    }
}
