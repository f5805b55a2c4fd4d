// Laws of places on the disk.
ghost use Rattle.std.specs.Prelude.{◌≡◌, ◌≤◌, ◌<◌, ◌+◌, ◌*◌, ◌↔◌, ℕ, Some, None, IsTrue};
ghost use Rattle.frang_base.specs.declared.lock.LockId.{LockId};
ghost use Rattle.frang_base.specs.declared.lock.LockId.TheVariants as lock;
ghost use Rattle.disk_definitions.specs.declared.region.Region.{Region};
ghost use Rattle.disk_definitions.specs.declared.region.Region.TheVariants as region;
ghost use Rattle.disk_definitions.specs.Regions.{free_cover, is_in_range, region_of, sector_of};

use frang_base::limits::{SEGMENT_BLOCKS, SEGMENT_INODES, SEGMENTS_MAX};

/// A place in range is found at its sector, and what is found at a sector is a place in range that has this sector. So no two places
/// in range have one sector, and nothing is found exactly where no place in range has the sector.
pub fn sectors_and_places_agree()
    ensures found { (segments : ℕ) (r : Region) → segments ≤ SEGMENTS_MAX → IsTrue (is_in_range segments r) → region_of segments (sector_of r) ≡ Some r }
    ensures read { (segments sector : ℕ) (r : Region) → region_of segments sector ≡ Some r → (sector_of r ≡ sector) × IsTrue (is_in_range segments r) }
    ensures once { (segments : ℕ) (q r : Region) → segments ≤ SEGMENTS_MAX → IsTrue (is_in_range segments q) → IsTrue (is_in_range segments r) → sector_of q ≡ sector_of r → q ≡ r }
    ensures none { (segments sector : ℕ) → segments ≤ SEGMENTS_MAX → (region_of segments sector ≡ None) ↔ ((r : Region) → IsTrue (is_in_range segments r) → sector_of r ≡ sector → ⊥) }
{}

/// What covers a free sector in range is a segment of the disk. A segment covers its 64 inodes, the 8 sectors of its 1,024 small blocks
/// and the sectors of its one large block.
pub fn segments_cover_their_own()
    ensures within { (segments : ℕ) (r : Region) (l : LockId) → IsTrue (is_in_range segments r) → free_cover r ≡ Some l → (k : ℕ) × (l ≡ lock.Segment k) × (k < segments) }
    ensures inodes { (k j : ℕ) → j < SEGMENT_INODES → free_cover (region.Inode (k * SEGMENT_INODES + j)) ≡ Some (lock.Segment k) }
    ensures small { (k j part : ℕ) → j < SEGMENT_BLOCKS → free_cover (region.Small (k * SEGMENT_BLOCKS + j) part) ≡ Some (lock.Segment k) }
    ensures large { (k part : ℕ) → free_cover (region.Large k part) ≡ Some (lock.Segment k) }
{}
