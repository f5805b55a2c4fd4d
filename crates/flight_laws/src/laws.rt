// The code's writes in flight by the core's words.
ghost use Rattle.flight_laws.specs.Laws.{ABusySectorIsTheCores, ALandedWriteIsTheCores, AWriteIsTheCores, AnIssuedWriteIsTheCores, LostWritesAreTheCores, MovedWritesAreTheCores, TheMountsWritesAreTheCores, WritesLeftBehindAreTheCores, WritesUnderALockAreTheCores};

/// Whether a server has a write of its present mount in flight is what the core asks.
pub fn the_mounts_writes_are_the_cores()
    ensures asked { TheMountsWritesAreTheCores }
{}

/// Whether one in place under a lock is.
pub fn writes_under_a_lock_are_the_cores()
    ensures asked { WritesUnderALockAreTheCores }
{}

/// Whether a write of a sector is.
pub fn a_busy_sector_is_the_cores()
    ensures asked { ABusySectorIsTheCores }
{}

/// The write of a ticket is that of the core.
pub fn a_write_is_the_cores()
    ensures asked { AWriteIsTheCores }
{}

/// A write that is issued is one more of the core.
pub fn an_issued_write_is_the_cores()
    ensures made { AnIssuedWriteIsTheCores }
{}

/// A write that is gone is gone in the core.
pub fn a_landed_write_is_the_cores()
    ensures made { ALandedWriteIsTheCores }
{}

/// Writes that a server leaves behind are of an earlier mount in the core.
pub fn writes_left_behind_are_the_cores()
    ensures made { WritesLeftBehindAreTheCores }
{}

/// Writes that are lost are lost in the core.
pub fn lost_writes_are_the_cores()
    ensures made { LostWritesAreTheCores }
{}

/// Writes in place that come under other locks sector by sector are moved as the core's commit moves them.
pub fn moved_writes_are_the_cores()
    ensures made { MovedWritesAreTheCores }
{}
