//! The steps of the core that are none on the side of sectors. Each law is the contract of a public function with an empty body.

ghost use Rattle.core_lives.specs.Idle.{EntersKeepWorlds, FlushesKeepWorlds, HoldsKeepWorlds, IdleEventsKeepWorlds, KeptWorldsAreQuiet, NotesKeepWorlds, PeeksKeepWorlds, RelocksKeepWorlds};

/// A line that begins, is refused, arms or stalls its server, or whose set is made anew or grows; a slot that is read for a mount, or that isn't; a doom; the host's answers; what a
/// server wants at the end; and what the host reads and says of the tree: each world of the moment is one of the next.
pub fn idle_events_keep_worlds()
    ensures idle { IdleEventsKeepWorlds }
    ensures quiet { KeptWorldsAreQuiet }
{}

/// So it is at each step beside the events: a line that passes the gate, a server that is held or goes on, or wants everything written, a lock table with the same locks, a line
/// that is noted, and a get of the host, whether it fails or not.
pub fn steps_beside_the_events_keep_worlds()
    ensures enter { EntersKeepWorlds }
    ensures hold { HoldsKeepWorlds }
    ensures flush { FlushesKeepWorlds }
    ensures relock { RelocksKeepWorlds }
    ensures note { NotesKeepWorlds }
    ensures peek { PeeksKeepWorlds }
{}
