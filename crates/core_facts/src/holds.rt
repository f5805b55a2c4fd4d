//! Who has taken whose log, over every run. Each law is the contract of a public function with an empty body.

ghost use Rattle.core_facts.specs.Holds.{HoldsAreOfRecoveries, HoldsAreOnTheDead, HoldsLastAsLeases, WhoRecoversHolds};

/// Over every run from an opening a log that is taken is that of a server that is Dead, and it is taken until its taker's lease ends. A taker that is in a mount, or the host, recovers
/// it, so that who is clean has taken none; and a server that is Up, or the host, has taken the log that it recovers.
pub fn who_holds_a_log_recovers_it()
    ensures dead { HoldsAreOnTheDead }
    ensures recovery { HoldsAreOfRecoveries }
    ensures lease { HoldsLastAsLeases }
    ensures taken { WhoRecoversHolds }
{}
