// The bitmaps of a set's segments, and whether they are all of the disk's.
ghost use Rattle.std.specs.Prelude.{◌≡◌, IfOk, OnOk};
ghost use Rattle.std.specs.List.{filter_map, list_all};
ghost use Rattle.std.specs.List.Sorted.{IsStrictlySortedBy};
ghost use Rattle.std.specs.Map.{keys_of};
ghost use Rattle.std.specs.Option.{option_and_then};
ghost use Rattle.frang_base.specs.declared.lock.LockId.TheVariants.{Segment};
ghost use Rattle.lock_definitions.specs.Order.{lock_cmp};
ghost use Rattle.sector_bytes.specs.SectorMaps.{value_at};
ghost use Rattle.tree_definitions.specs.Numbers.{below};
ghost use Rattle.disk_definitions.specs.Bitmaps.{bitmap_in};
ghost use Rattle.set_definitions.specs.Sets.{has_lock, segments_in};
ghost use Rattle.core_definitions.specs.Lines as core;
ghost use Rattle.core_definitions.specs.Plans.{bitmap_at, sight_over};
ghost use Rattle.line_sight.specs.Adding.{with_bitmap};

use crate::missing::bitmap_sector;
use bitmap_block::decode;
use frang_base::{Bitmap, Held, LockId, Mode, NoMemory};
use lock_sets::LockSet;
use std::alloc::Global;
use usable_sectors::Usable;

/// What a line is planned over beside the usable sectors: the bitmaps of the segments in its set, and whether these are all segments of the disk.
#[derive(Drop)]
pub struct Sight {
    pub held: Held,
    pub all: bool,
}

// The bitmap of a segment, where it is among these sectors and is one.
fn bitmap(usable: &Usable, segment: u32) -> Option<Bitmap>
    ensures { result ≡ option_and_then bitmap_in (value_at usable.now.entries (core.bitmap_sector segment)) }
{
    match usable.get(bitmap_sector(segment)) {
        Some(block) => decode(block),
        None => None,
    }
}

// The bitmap of a segment, if there is one, is held too.
fn add(held: &mut Held, usable: &Usable, segment: u32) -> Result<(), NoMemory>
    ensures { OnOk result (held.new ≡ with_bitmap held.old (bitmap_at usable.now.entries segment)) }
{
    match bitmap(usable, segment) {
        Some(bitmap) => held.set(segment, bitmap),
        None => Ok(()),
    }
}

// The bitmaps of the segments among these locks.
fn held_by(alloc: Global, locks: &[(LockId, Mode)], usable: &Usable) -> Result<Held, NoMemory>
    requires { IsStrictlySortedBy lock_cmp (keys_of locks.now) }
    ensures { IfOk result (λ held. held ≡ filter_map (bitmap_at usable.now.entries) (segments_in locks.now)) }
{
    let mut held = Held::new(alloc);
    for need in locks {
        if let LockId::Segment(segment) = need.0 {
            add(&mut held, usable, segment)?;
        }
    }
    Ok(held)
}

// Whether a set has the lock of each of so many segments.
fn has_all(set: &LockSet, segments: u32) -> bool
    ensures { result ≡ list_all (λ segment. has_lock set.now (Segment segment)) (below segments) }
{
    for segment in 0..segments {
        if !set.has(LockId::Segment(segment)) {
            return false;
        }
    }
    true
}

/// What a line with this set is planned over, beside the usable sectors, on a disk of so many segments. Its one refusal is want of memory.
pub fn sight_of(
    alloc: Global,
    segments: u32,
    set: &LockSet,
    usable: &Usable,
) -> Result<Sight, NoMemory>
    ensures { IfOk result (λ sight. sight_over segments set.now usable.now.entries ≡ record { cached = usable.now.entries; held = sight.held; all = sight.all }) }
{
    Ok(Sight {
        held: held_by(alloc, set.as_slice(), usable)?,
        all: has_all(set, segments),
    })
}
