//! Tests of whole lines over small disks, links followed, of the sectors at which they look, of what their edits move from lock to lock, of the covers
//! of what they need, of the operations for which they have a block cleared, and of their locks, worked out by hand; of sets of locks, of the versions of
//! seen sectors, of lines planned for the core, and of what a line is planned over.
#![tactic(auto)]

#[cfg(test)]
mod asked;
#[cfg(test)]
mod lines;
#[cfg(test)]
mod locks;
#[cfg(test)]
mod needed;
#[cfg(test)]
mod planned;
#[cfg(test)]
mod seen;
#[cfg(test)]
mod sets;
#[cfg(test)]
mod sights;
