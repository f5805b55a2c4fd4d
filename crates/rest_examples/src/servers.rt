//! Servers at rest.

ghost use Rattle.rest_examples.specs.Servers.{FreshWorldsRest, RunsMeetRest};

/// Two servers over a fresh disk are lines of an empty history, none of them is dead, all are off, and nothing is dirty.
pub fn a_fresh_world_is_at_rest()
    ensures rests { FreshWorldsRest }
{}

/// At the end of a run of two servers, with a sync, a death and a recovery, all that is asked of servers that count as mounted holds, of one that is off too.
pub fn a_run_meets_what_rest_asks()
    ensures run { RunsMeetRest }
{}
