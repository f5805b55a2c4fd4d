// Laws of the coder.
ghost use Rattle.std.specs.Prelude.{◌≡◌, List, ℕ, Some, IsTrue};
ghost use Rattle.sector_bytes.specs.Changes.{changed};
ghost use Rattle.sector_bytes.specs.Blocks.{patched};
ghost use Rattle.frang_base.specs.declared.change.Change.{Change};
ghost use Rattle.dir_block.specs.Fields.{FillsItsFields};
ghost use Rattle.disk_definitions.specs.Directories.{directory_bytes, directory_fits, directory_in, IsDirectorySector};
ghost use Rattle.sector_bytes.specs.Patches.{patches_of};
ghost use Rattle.disk_definitions.specs.declared.directory.DirSector.{DirSector};

/// What was written of a sector reads back, a block is the sector of what it is read as, what a block is the sector of it is read as,
/// and no block is the sector of two.
pub fn what_is_written_reads_back()
    ensures back { (x : DirSector) → FillsItsFields x → IsTrue (directory_fits x) → directory_in (directory_bytes x) ≡ Some x }
    ensures read { (block : List ℕ) (x : DirSector) → directory_in block ≡ Some x → IsDirectorySector block x }
    ensures found { (block : List ℕ) (x : DirSector) → FillsItsFields x → IsDirectorySector block x → directory_in block ≡ Some x }
    ensures once { (block : List ℕ) (x y : DirSector) → FillsItsFields x → FillsItsFields y → IsDirectorySector block x → IsDirectorySector block y → x ≡ y }
{}

/// Laid over the old sector's block, the patches give the new one's but for the version. A change with them and with the new version
/// makes the new one's block of the old one's.
pub fn patches_make_the_new_sector()
    ensures laid { (old new : DirSector) → FillsItsFields old → FillsItsFields new → patched (patches_of (directory_bytes old) (directory_bytes new)) (directory_bytes old) ≡ directory_bytes (record new { version = old.version }) }
    ensures edited { (x : Change) (old new : DirSector) → FillsItsFields old → FillsItsFields new → x.patches ≡ patches_of (directory_bytes old) (directory_bytes new) → x.version ≡ new.version → changed (directory_bytes old) x ≡ directory_bytes new }
{}
