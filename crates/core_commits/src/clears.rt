//! What a Clear of the core is in the theorem on sectors. Each law is the contract of a public function with an empty body.

ghost use Rattle.core_commits.specs.Cleared.{ClearedBlocksAreFresh};
ghost use Rattle.core_commits.specs.Clears.{BlocksAreCleared, ClearsAreEvents};

/// A Clear of a block that nobody has and that never was a directory's, whose segment its server holds alone, is Clear of the eight sectors of the block, and leads quietly on. It rests on this
/// of the server's log: where all operations are acknowledged, so is the whole log.
pub fn clears_are_events()
    ensures cleared { BlocksAreCleared }
    ensures clear { ClearsAreEvents }
{}

/// The block that a line has cleared is one that nobody has and that never was a directory's, and its server holds its segment alone.
pub fn cleared_blocks_are_fresh()
    ensures fresh { ClearedBlocksAreFresh }
{}
