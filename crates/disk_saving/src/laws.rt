// The law of places by their numbers.
ghost use Rattle.std.specs.Prelude.{◌≡◌, ◌≤◌, ◌<◌, ℕ, IsTrue};
ghost use Rattle.disk_definitions.specs.declared.region.Region.{Region};
ghost use Rattle.disk_definitions.specs.Regions.{is_in_range, sector_of};
ghost use Rattle.disk_saving.specs.Places.{place_at, place_count};

use frang_base::limits::SEGMENTS_MAX;

/// The places of a disk by their numbers are the places in range, each of them once, and their sectors ascend.
pub fn places_are_in_order()
    ensures ascending { (segments m n : ℕ) → segments ≤ SEGMENTS_MAX → m < n → sector_of (place_at segments m) < sector_of (place_at segments n) }
    ensures in_range { (segments n : ℕ) → n < place_count segments → IsTrue (is_in_range segments (place_at segments n)) }
    ensures all { (segments : ℕ) (r : Region) → IsTrue (is_in_range segments r) → (n : ℕ) × (n < place_count segments) × (place_at segments n ≡ r) }
{}
