// The bitmaps of a set's segments that aren't cached.
ghost use Rattle.std.specs.Prelude.{◌≡◌, is_some, not};
ghost use Rattle.std.specs.List.{slice_get};
ghost use Rattle.std.specs.Map.{keys_of};
ghost use Rattle.std.specs.Option.{option_map};
ghost use Rattle.frang_base.specs.Functions.{member};
ghost use Rattle.frang_base.specs.declared.lock.LockId.TheVariants.{Segment};
ghost use Rattle.sector_bytes.specs.SectorMaps.{value_at};
ghost use Rattle.core_definitions.specs.Lines as core;
ghost use Rattle.core_definitions.specs.Lines.{missing_bitmaps};

use clerk_cache::Cache;
use frang_base::{LockId, Mode, Sector};
use frang_layout::{Region, sector_of};
use lock_sets::LockSet;

/// The sector of a segment's bitmap.
pub(crate) fn bitmap_sector(segment: u32) -> Sector
    ensures { result.0 ≡ core.bitmap_sector segment }
{
    sector_of(&Region::Segment(segment))
}

// Whether the bitmap of a segment isn't cached.
fn is_missing(cache: &Cache, segment: u32) -> bool
    ensures { result ≡ not (is_some (value_at cache.now.entries (core.bitmap_sector segment))) }
{
    cache.get(bitmap_sector(segment)).is_none()
}

// The first segment among these locks whose bitmap isn't cached.
fn first_among(locks: &[(LockId, Mode)], cache: &Cache) -> Option<u32>
    ensures { option_map (λ segment. (core.bitmap_sector segment, Segment segment)) result ≡ slice_get (missing_bitmaps locks.now cache.now.entries) 0 }
{
    for need in locks {
        if let LockId::Segment(segment) = need.0 {
            if is_missing(cache, segment) {
                return Some(segment);
            }
        }
    }
    None
}

/// The first segment of a set whose bitmap isn't cached; the bitmap is the next sector to fetch, under the segment's lock. `None` exactly where none lacks.
pub fn first_missing(set: &LockSet, cache: &Cache) -> Option<u32>
    ensures { option_map (λ segment. (core.bitmap_sector segment, Segment segment)) result ≡ slice_get (missing_bitmaps set.now cache.now.entries) 0 }
{
    first_among(set.as_slice(), cache)
}

// Whether the sector is the bitmap of a segment among these locks and isn't cached.
fn is_among(locks: &[(LockId, Mode)], cache: &Cache, sector: Sector) -> bool
    ensures { result ≡ member sector.0 (keys_of (missing_bitmaps locks.now cache.now.entries)) }
{
    for need in locks {
        if let LockId::Segment(segment) = need.0 {
            if is_missing(cache, segment) && bitmap_sector(segment).0 == sector.0 {
                return true;
            }
        }
    }
    false
}

/// Whether a sector is the bitmap of a segment of a set and isn't cached.
pub fn is_missing_at(set: &LockSet, cache: &Cache, sector: Sector) -> bool
    ensures { result ≡ member sector.0 (keys_of (missing_bitmaps set.now cache.now.entries)) }
{
    is_among(set.as_slice(), cache, sector)
}
