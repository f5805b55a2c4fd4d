// Laws of segments and their sectors.
ghost use Rattle.std.specs.Prelude.{◌≡◌, ℕ, List, Some};
ghost use Rattle.sector_bytes.specs.Changes.{changed};
ghost use Rattle.sector_bytes.specs.Blocks.{patched};
ghost use Rattle.frang_base.specs.declared.bitmap.Bitmap.{Bitmap};
ghost use Rattle.frang_base.specs.declared.change.Change.{Change};
ghost use Rattle.bitmap_block.specs.Fields.{FillsItsFields};
ghost use Rattle.disk_definitions.specs.Bitmaps.{bitmap_bytes, bitmap_in, IsBitmapSector};
ghost use Rattle.sector_bytes.specs.Patches.{patches_of};

/// What was written of a segment reads back, a block is the sector of what it is read as, what a block is the sector of it is read as,
/// and no block is the sector of two.
pub fn what_is_written_reads_back()
    ensures back { (x : Bitmap) → FillsItsFields x → bitmap_in (bitmap_bytes x) ≡ Some x }
    ensures read { (block : List ℕ) (x : Bitmap) → bitmap_in block ≡ Some x → IsBitmapSector block x }
    ensures found { (block : List ℕ) (x : Bitmap) → FillsItsFields x → IsBitmapSector block x → bitmap_in block ≡ Some x }
    ensures once { (block : List ℕ) (x y : Bitmap) → FillsItsFields x → FillsItsFields y → IsBitmapSector block x → IsBitmapSector block y → x ≡ y }
{}

/// Laid over the old segment's block, the patches give the new one's but for the version. A change with them and with the new version
/// makes the new one's block of the old one's.
pub fn patches_make_the_new_sector()
    ensures laid { (old new : Bitmap) → FillsItsFields old → FillsItsFields new → patched (patches_of (bitmap_bytes old) (bitmap_bytes new)) (bitmap_bytes old) ≡ bitmap_bytes (record new { version = old.version }) }
    ensures edited { (x : Change) (old new : Bitmap) → FillsItsFields old → FillsItsFields new → x.patches ≡ patches_of (bitmap_bytes old) (bitmap_bytes new) → x.version ≡ new.version → changed (bitmap_bytes old) x ≡ bitmap_bytes new }
{}
