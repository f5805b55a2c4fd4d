//! Tests of the status board: what is refused, what is read where one thread does all, and a writer beside readers on threads.
//! It holds nothing else, so that the crate of the board isn't proved once more for its tests.
#![tactic(auto)]

#[cfg(test)]
mod alone;
#[cfg(test)]
mod beside;
