//! What a Fetch of the core is in the theorem on sectors. Each law is the contract of a public function with an empty body.

ghost use Rattle.core_commits.specs.Fetches.{FailedFetchesAreEvents, FetchesAreEvents, MountsFetchNone};

/// A Fetch of a sector that a line needs, under its cover, which is held, is Fetch or FetchBytes, by the side of the sector that counts, and leads quietly on.
pub fn fetches_are_events()
    ensures fetch { FetchesAreEvents }
{}

/// A Fetch whose get fails at a server that is up is Fail. A Fetch of a mount is none, whether it gets its slot or fails.
pub fn other_fetches_are_fail_or_none()
    ensures fail { FailedFetchesAreEvents }
    ensures mount { MountsFetchNone }
{}
