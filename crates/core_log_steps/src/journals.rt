//! Which journals stand beside the next moment. Each law is the contract of a public function.

ghost use Rattle.core_log_steps.specs.Journals.{CommitsNameThese, LivesNameThese, LogArrivalsNameThese, LogIssuesNameThese, OtherArrivalsNameThese, OtherEventsNameThese, OtherIssuesNameThese, ReclaimsNameThese};

/// The journals of the next moment are those that the laws of steps name: of locks and lives, where a mount is answered; of issues and arrivals, where these are of a server's own log; of a
/// Commit, but for where its operation ends; and of an Again that reclaims, of which no law names journals yet.
pub fn steps_name_these_journals()
    ensures lives { LivesNameThese }
    ensures log_issues { LogIssuesNameThese }
    ensures issues { OtherIssuesNameThese }
    ensures log_arrivals { LogArrivalsNameThese }
    ensures arrivals { OtherArrivalsNameThese }
    ensures commits { CommitsNameThese }
    ensures reclaims { ReclaimsNameThese }
    ensures others { OtherEventsNameThese }
{}
