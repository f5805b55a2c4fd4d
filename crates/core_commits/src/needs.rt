//! The sectors that lines need. Each law is the contract of a public function with an empty body.

ghost use Rattle.core_commits.specs.Needs.{NeededSectorsComeIn};

/// A sector that a line needs isn't cached, lies on the disk in no log, and its cover at hand, which its server holds, is its cover; and one of bytes was written. So its Fetch is an event.
pub fn needed_sectors_come_in()
    ensures come { NeededSectorsComeIn }
{}
