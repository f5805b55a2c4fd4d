// Laws of the coders of records and of sectors.
ghost use Rattle.std.specs.Prelude.{◌≡◌, ◌<◌, ℕ, List, Some, IsTrue, slice_index};
ghost use Rattle.frang_base.specs.declared.limits.TheConstants.{LOG_SECTORS};
ghost use Rattle.disk_definitions.specs.Records.{record_bytes, record_fits, record_in, IsRecordBody};
ghost use Rattle.frang_base.specs.declared.change.Change.{Change};
ghost use Rattle.log_record.specs.Fields.{FillsItsFields};
ghost use Rattle.disk_definitions.specs.LogSectors.{log_sector_bytes, log_sector_fits, log_sector_in, IsLogSector};
ghost use Rattle.disk_definitions.specs.declared.log_sector.LogSector.{LogSector};

/// What was written of a sector reads back in its slot, a block in a slot is what it is read as, and at most one sector.
pub fn what_is_written_reads_back()
    ensures back { (slot : ℕ) (x : LogSector) → FillsItsFields x → IsTrue (log_sector_fits slot x) → log_sector_in slot (log_sector_bytes x) ≡ Some x }
    ensures read { (slot : ℕ) (block : List ℕ) (x : LogSector) → slot < LOG_SECTORS → log_sector_in slot block ≡ Some x → IsLogSector slot block x }
    ensures once { (slot : ℕ) (block : List ℕ) (x y : LogSector) → FillsItsFields x → FillsItsFields y → IsLogSector slot block x → IsLogSector slot block y → x ≡ y }
{}

/// The body of a record that may stand in a log reads back as its changes, bytes are the body of what they are read as, and of at most
/// one record.
pub fn records_read_back()
    ensures back { (changes : List Change) → IsTrue (record_fits changes) → record_in (record_bytes changes) ≡ Some changes }
    ensures read { (bytes : List ℕ) (changes : List Change) → ((k : ℕ) → slice_index bytes k < 256) → record_in bytes ≡ Some changes → IsRecordBody bytes changes }
    ensures once { (bytes : List ℕ) (xs ys : List Change) → IsRecordBody bytes xs → IsRecordBody bytes ys → xs ≡ ys }
{}
