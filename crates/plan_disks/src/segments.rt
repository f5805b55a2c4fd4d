// Held segments of the bitmap.
ghost use Rattle.std.specs.Prelude.{IfOk};
ghost use Rattle.disk_definitions.specs.Held.{AreSegments};

use crate::settings::is_no_segment;
use frang_base::limits::SEGMENTS_MAX;
use frang_base::{Bitmap, Held, NoMemory};
use std::alloc::Global;
use test_tables::{has_word, lay};

/// A segment of the bitmap.
#[derive(Clone, Copy)]
pub struct Segment {
    pub number: u32,
    pub version: u64,
    /// Bit j is inode j of the segment, 1 in use.
    pub inodes: u64,
    /// The states of small blocks, four a byte, where no piece of `states` has them.
    pub others: u8,
    /// Pieces of states.
    pub states: &'static str,
    pub large: bool,
}

/// Segments by their names.
pub type Segments = &'static [(&'static str, Segment)];

/// Those of the segments whose names are words of the setting, held. Those past the most that a disk has are left out. A word that is neither a
/// segment's name nor read elsewhere is refused, and so is want of memory.
#[tactic(auto, using(crate::proofs::HeldSegments::none_low, crate::proofs::HeldSegments::one_more, crate::proofs::HeldSegments::are_segments))]
pub fn held_of(
    alloc: Global,
    segments: &[(&'static str, Segment)],
    setting: &str,
) -> Result<Held, NoMemory>
    ensures { IfOk result AreSegments }
{
    if !are_named(segments, setting) {
        return Err(NoMemory);
    }
    let mut held = Held::new(alloc);
    for (name, segment) in segments {
        let number = segment.number;
        if number < SEGMENTS_MAX && has_word(setting, name) {
            held.set(number, bitmap_of(segment)?)?;
        }
    }
    Ok(held)
}

// Each word of the setting is a segment's name, or no segment is meant by it.
fn are_named(segments: &[(&'static str, Segment)], setting: &str) -> bool {
    for word in setting.split_whitespace() {
        if !is_no_segment(word) && !is_name(segments, word) {
            return false;
        }
    }
    true
}

fn is_name(segments: &[(&'static str, Segment)], word: &str) -> bool {
    for (name, _) in segments {
        if *name == word {
            return true;
        }
    }
    false
}

fn bitmap_of(segment: &Segment) -> Result<Bitmap, NoMemory> {
    let mut states = [segment.others; 256];
    lay(&mut states, segment.states)?;
    Ok(Bitmap {
        version: segment.version,
        inodes: segment.inodes,
        states,
        large: segment.large,
    })
}
