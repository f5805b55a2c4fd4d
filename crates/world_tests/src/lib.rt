//! Tests of the world of several servers as code: the places of its parties in a script, whole runs by the list of its events, the next event beside that list, and what parties know of
//! their locks. It holds nothing else, so that no crate with proofs is proved once more for its tests.
#![tactic(auto)]

#[cfg(test)]
mod driving;
#[cfg(test)]
mod known;
#[cfg(test)]
mod places;
#[cfg(test)]
mod runs;
