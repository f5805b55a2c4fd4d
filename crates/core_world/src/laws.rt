// Events of the core as events of the world that is kept beside it. Each law is the contract of a public function with an empty body.
ghost use Rattle.core_world.specs.Events.{AsksAreEvents, DeathsAreEvents, FirstMomentsAreGood, FirstMomentsAreWorlds, GivesAreEvents, HostsAreOff, LeadsStayGood, RenewsAreEvents, TicksAreEvents};
ghost use Rattle.core_world.specs.Quiet.{QuietEventsLeaveLogs, QuietRunsGoOn};

use core_laws::who_rests_has_nothing;
use core_transcripts::{read_scripts_are_numbered, runs_have_their_faults};

/// Over a disk where the logs of the servers are zero the first moment of a run has a world: its sixteen servers are off, and the host, which is never mounted, has a lease. It keeps what
/// every event of the theorem on sectors keeps, and so does each world to which events of it lead.
pub fn first_moments_are_worlds()
    ensures first { FirstMomentsAreWorlds }
    ensures good { FirstMomentsAreGood }
    ensures stays { LeadsStayGood }
{}

/// A quiet event is no operation and clears nothing, what it issues lies in no log, and by it no log is known less; and one quiet run behind another is quiet. So what each such event
/// keeps stands beside a world along the laws below.
pub fn quiet_events_leave_logs()
    ensures leave { QuietEventsLeaveLogs }
    ensures on { QuietRunsGoOn }
{}

/// A Renew of the core is Renew, which may happen, is quiet, and leads to a world of the next moment with the same journals. So it is of each of the following.
pub fn renews_are_events()
    ensures renew { RenewsAreEvents }
{}

/// A Tick is Tick, and Renew of the host, which is never mounted in runs of scripts that were read.
pub fn ticks_are_events()
    ensures off { HostsAreOff }
    ensures tick { TicksAreEvents }
{
    who_rests_has_nothing();
    runs_have_their_faults();
    read_scripts_are_numbered();
}

/// An Ask is Take where the lock is granted, and none where the wish is noted.
pub fn asks_are_events()
    ensures ask { AsksAreEvents }
{}

/// Where the world keeps what every event of the theorem on sectors keeps, a Give is Give, or Lower where another server wishes the lock shared. It rests on the core
/// alone beside: a write in time of a server that is up is of its present mount.
pub fn gives_are_events()
    ensures give { GivesAreEvents }
{}

/// A death is Crash, and where what is in flight goes with the server, Fade of each of its writes.
pub fn deaths_are_events()
    ensures die { DeathsAreEvents }
{}
