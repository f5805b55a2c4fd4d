//! Tests of how far a server's line over paths has come and of the plans that are kept of it: lines over small disks, act by act, with all that is asked of the line behind each, worked out
//! by hand from the core's definition. It holds nothing else, so that no crate with proofs is proved once more for its tests.
#![tactic(auto)]

#[cfg(test)]
mod acts;
#[cfg(test)]
mod lines;
#[cfg(test)]
mod logs;
#[cfg(test)]
mod told;
#[cfg(test)]
mod words;
#[cfg(test)]
mod work;
