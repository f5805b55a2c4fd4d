//! The tests of the hall, over a first machine: the core of a script that is a `halt` alone. So what the hall asks of a machine can be met.
#![tactic(auto)]

mod halting;
#[cfg(test)]
mod runs;
#[cfg(test)]
mod watched;

pub use halting::Halting;
