//! What a good log reads as beside its journal. Each law is the contract of a public function.

ghost use Rattle.core_readings.specs.Readings.{JournalsReadAsRecords, ReadingsReplay};

/// A good log reads as records that are in place, which are those of earlier mounts and those that are given up, and behind them as the records that the theorem on sectors is to replay, but
/// for the empty ones.
pub fn journals_read_as_records()
    ensures { JournalsReadAsRecords }
{}

/// Such a reading replays as the records that are to be replayed, over each block that isn't older than the disk's.
pub fn readings_replay()
    ensures { ReadingsReplay }
{}
