//! The sets of lines under way, over every run. Each law is the contract of a public function with an empty body.

ghost use Rattle.core_facts.specs.LockSets.{SegmentsAreSole};

/// Over every run from an opening a line's set has the lock of a segment only sole: each join asks for it so.
pub fn segments_are_needed_sole()
    ensures sole { SegmentsAreSole }
{}
