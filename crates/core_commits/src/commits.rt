//! Commits of the core as operations of the theorem on sectors. Each law is the contract of a public function with an empty body.

ghost use Rattle.core_commits.specs.Commits.{CommitsKeepCaches, CommitsKeepFlights, OutcomesMayBeDone, SectorsAreFetched};

/// Over the logical sectors an outcome that keeps the guards of plans may be done where its server holds the locks that it uses, has at hand what it changes and reads, and the zeros of what
/// it claims are acknowledged.
pub fn outcomes_may_be_done()
    ensures done { OutcomesMayBeDone }
{}

/// Sectors that aren't cached, under locks that are held, are fetched one after another.
pub fn claimed_sectors_are_fetched()
    ensures fetched { SectorsAreFetched }
{}

/// With the claimed sectors fetched and the operation done that a Commit is, caches and covers are those of the core afterwards, and so are the writes in flight. Of the writes in flight it
/// rests on this: the server of one in place of its present mount holds its cover alone.
pub fn commits_are_operations()
    ensures caches { CommitsKeepCaches }
    ensures flights { CommitsKeepFlights }
{}
