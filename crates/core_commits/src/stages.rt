//! What the stage of a line says of its plan. Each law is the contract of a public function with an empty body.

ghost use Rattle.core_commits.specs.Stages.{ClearingLinesHavePlans, FetchingLinesHavePlans, FinishedLinesHavePlans};

/// A line that is finished, has a block cleared or needs sectors is one over paths of a server that is up, and its set is held. Its plan, over what it may use of the cache, comes to this; what it
/// leaves or has cleared is under locks of the set, and so is the sector that it needs, if it isn't a bitmap.
pub fn stages_tell_their_plans()
    ensures finished { FinishedLinesHavePlans }
    ensures clearing { ClearingLinesHavePlans }
    ensures fetching { FetchingLinesHavePlans }
{}
