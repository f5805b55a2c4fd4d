// Laws of the patches between two blocks.
ghost use Rattle.std.specs.Prelude.{◌≡◌, ◌↔◌, ◌≤◌, ◌<◌, ℕ, Bool, true, false, List, [], ◌++◌, take, drop, length, IsTrue};
ghost use Rattle.frang_base.specs.declared.change.Change.{Change};
ghost use Rattle.sector_bytes.specs.Changes.{changed};
ghost use Rattle.sector_bytes.specs.Blocks.{patched, spelling};
ghost use Rattle.sector_bytes.specs.Patches.{patches_of, patches_with, are_apart, are_new, are_new_or, is_patched};

use frang_base::limits::{SECTOR_BYTES, VERSION_BYTES};

/// Laid over the old block, the patches give the new one from byte 8 on. A change with them and with the version of the new block
/// makes the new block of the old one. There are none exactly where the blocks differ in nothing but the version.
pub fn patches_make_the_new_block()
    ensures laid { (old new : List ℕ) → length old ≡ SECTOR_BYTES → length new ≡ SECTOR_BYTES → patched (patches_of old new) old ≡ take VERSION_BYTES old ++ drop VERSION_BYTES new }
    ensures edited { (x : Change) (old new : List ℕ) → length old ≡ SECTOR_BYTES → length new ≡ SECTOR_BYTES → x.patches ≡ patches_of old new → spelling 7 x.version ≡ take VERSION_BYTES new → changed old x ≡ new }
    ensures none { (old new : List ℕ) → length old ≡ SECTOR_BYTES → length new ≡ SECTOR_BYTES → (patches_of old new ≡ []) ↔ (drop VERSION_BYTES old ≡ drop VERSION_BYTES new) }
{}

/// The patches lie in the bytes 8 to 511 and ascend, with at least one byte between them; each has a byte, and all of its bytes
/// differ from the old ones. With the law above, no byte between them differs: so they are the longest runs.
pub fn patches_are_the_longest_runs()
    ensures apart { (old new : List ℕ) → length old ≡ SECTOR_BYTES → IsTrue (are_apart VERSION_BYTES SECTOR_BYTES (patches_of old new)) }
    ensures changed { (old new : List ℕ) → length old ≡ SECTOR_BYTES → IsTrue (are_new old (patches_of old new)) }
{}

/// Whatever places are forced, the patches make the new block of the old one as those with none forced do. There are none exactly where
/// the blocks differ in nothing but the version and no place behind it is forced.
pub fn forced_patches_make_the_new_block()
    ensures laid { (forced : ℕ → Bool) (old new : List ℕ) → length old ≡ SECTOR_BYTES → length new ≡ SECTOR_BYTES → patched (patches_with forced old new) old ≡ take VERSION_BYTES old ++ drop VERSION_BYTES new }
    ensures edited { (forced : ℕ → Bool) (x : Change) (old new : List ℕ) → length old ≡ SECTOR_BYTES → length new ≡ SECTOR_BYTES → x.patches ≡ patches_with forced old new → spelling 7 x.version ≡ take VERSION_BYTES new → changed old x ≡ new }
    ensures none { (forced : ℕ → Bool) (old new : List ℕ) → length old ≡ SECTOR_BYTES → length new ≡ SECTOR_BYTES → (patches_with forced old new ≡ []) ↔ ((drop VERSION_BYTES old ≡ drop VERSION_BYTES new) × ((k : ℕ) → VERSION_BYTES ≤ k → k < SECTOR_BYTES → forced k ≡ false)) }
{}

/// The patches lie and ascend as those with none forced do. Each byte of theirs differs from the old one or stands at a forced place,
/// and each forced place behind the version is in one. With the law above, they are the longest runs of such bytes.
pub fn forced_patches_are_the_longest_runs()
    ensures apart { (forced : ℕ → Bool) (old new : List ℕ) → length old ≡ SECTOR_BYTES → IsTrue (are_apart VERSION_BYTES SECTOR_BYTES (patches_with forced old new)) }
    ensures changed { (forced : ℕ → Bool) (old new : List ℕ) → length old ≡ SECTOR_BYTES → IsTrue (are_new_or forced old (patches_with forced old new)) }
    ensures forced { (forced : ℕ → Bool) (old new : List ℕ) (k : ℕ) → length old ≡ SECTOR_BYTES → length new ≡ SECTOR_BYTES → VERSION_BYTES ≤ k → k < SECTOR_BYTES → forced k ≡ true → IsTrue (is_patched k (patches_with forced old new)) }
{}
