// What is wrong with an image, in words.
ghost use Rattle.std.specs.Prelude.{◌≡◌, IfOk, string_bytes};
ghost use Rattle.image_commands.specs.Sentences.{bad_part_words, bad_sector_words, fault_sentence, flaw_with, flaw_words, part_words};

use disk_definitions::Region;
use frang_base::limits::SEGMENTS_MAX;
use frang_base::{NoMemory, Sector};
use frang_layout::region_of;
use image_file::ImageFlaw;
use std::alloc::Global;

// The place of an image's first entry, behind its header.
const FIRST_ENTRY: u64 = 16;

// The flaw whose kind has this number.
fn flaw_with(kind: u64) -> Option<ImageFlaw>
    ensures { result ≡ flaw_with kind }
{
    match kind {
        1 => Some(ImageFlaw::Cut),
        2 => Some(ImageFlaw::OtherMark),
        3 => Some(ImageFlaw::OutOfOrder),
        4 => Some(ImageFlaw::NoRegion),
        5 => Some(ImageFlaw::OfZeros),
        6 => Some(ImageFlaw::BytesAfter),
        7 => Some(ImageFlaw::BadSector),
        _ => None,
    }
}

// What a sector is of a disk.
fn part_words(sector: u64) -> &'static str
    ensures { result.now ≡ part_words sector }
{
    match region_of(Sector(sector), SEGMENTS_MAX) {
        Some(Region::Log { .. }) => "log slot",
        Some(Region::Segment(_)) => "bitmap",
        Some(Region::Inode(_)) => "inode",
        _ => "block",
    }
}

fn bad_part_words(alloc: Global, part: &str, sector: u64) -> Result<String, NoMemory>
    ensures { IfOk result (λ text. string_bytes text ≡ bad_part_words part.now sector) }
{
    Ok(format!(in alloc; "the {part} of sector {sector} isn't one")?)
}

// A sector that isn't in its grammar. The first one has to be that of the parameters.
fn bad_sector_words(alloc: Global, at: u64, sector: u64) -> Result<String, NoMemory>
    ensures { IfOk result (λ text. string_bytes text ≡ bad_sector_words at sector) }
{
    if at <= FIRST_ENTRY {
        return Ok(format!(in alloc;
            "the first sector isn't that of the parameters, or has none that a run may follow"
        )?);
    }
    bad_part_words(alloc, part_words(sector), sector)
}

fn flaw_words(alloc: Global, flaw: ImageFlaw, at: u64, sector: u64) -> Result<String, NoMemory>
    ensures { IfOk result (λ text. string_bytes text ≡ flaw_words flaw at sector) }
{
    let text = match flaw {
        ImageFlaw::Cut => format!(in alloc; "the bytes end inside the header or an entry")?,
        ImageFlaw::OtherMark => format!(in alloc; "the first 8 bytes aren't those of an image")?,
        ImageFlaw::OutOfOrder => {
            format!(in alloc; "sector {sector} isn't greater than the one before")?
        }
        ImageFlaw::NoRegion => format!(in alloc; "sector {sector} lies in no region")?,
        ImageFlaw::OfZeros => format!(in alloc; "sector {sector} is zeros")?,
        ImageFlaw::BytesAfter => format!(in alloc; "there are bytes after the last entry")?,
        ImageFlaw::BadSector => bad_sector_words(alloc, at, sector)?,
    };
    Ok(text)
}

/// What is wrong with an image, in words without a line feed, by the kind of its fault, 1 to 8, the place and the number there.
pub fn fault_sentence(alloc: Global, kind: u64, at: u64, sector: u64) -> Result<String, NoMemory>
    ensures { IfOk result (λ text. string_bytes text ≡ fault_sentence kind at sector) }
{
    match flaw_with(kind) {
        Some(flaw) => {
            let text = flaw_words(alloc, flaw, at, sector)?;
            let words = text.as_str();
            Ok(format!(in alloc; "{words}, at byte {at}")?)
        }
        None => Ok(format!(in alloc; "its replayed disk stands for no tree")?),
    }
}
