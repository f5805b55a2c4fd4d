//! What an arrival in place rests on, beside what every event keeps. Each law is the contract of a public function.

ghost use Rattle.core_writes.specs.Acknowledged.{AcknowledgedFirst, AcknowledgedStay};

/// Where a server has a sector with a version dirty with the block that its own write has in flight, its log is acknowledged up to the sector's mark: at first nothing is in
/// flight, and every event of the theorem on sectors keeps it that may happen in a good world, as long as what is known of a log grows. So it may stand beside `Good` along
/// runs.
pub fn acknowledged_writes_stay_so()
    ensures first { AcknowledgedFirst }
    ensures stay { AcknowledgedStay }
{}
