//! Last operations that are settled. Each law is the contract of a public function with an empty body.

ghost use Rattle.core_commit_steps.specs.Lasts.{LastsStaySettled, SettledLastsAreReached};

/// Where the last operation of each mounted server is settled, or its whole log is acknowledged, a log whose operations are acknowledged is so to its end: its last operation ends at its last number. And
/// quiet events that settle nothing, of which none ends a recovery, keep it, where a log that is acknowledged to its end stays so.
pub fn lasts_stay_settled()
    ensures reached { SettledLastsAreReached }
    ensures stay { LastsStaySettled }
{}
