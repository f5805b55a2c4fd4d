//! The set of a line as code: locks with the modes in which they are needed, as a slice in order, with what joins it, what it lacks, what its server holds of it
//! and asks next; and the sectors that the line has seen, in the order in which they were first seen, with their versions, and how they stand against those that are
//! cached later, by name where one has moved. Each call is an equation with the word of `set_definitions` that the core of several servers has for it. What grows
//! can be made whole beside the old one, so that it changes at once or not at all. It stands on these definitions, the lock table and cached sectors.
#![tactic(auto)]

mod cached;
mod locks;
mod modes;
mod seen;
mod set;

pub use cached::CachedBlocks;
pub use locks::place_of;
pub use modes::{serves, with_mode};
pub use seen::{Comparison, Seen, SeenSectors, compare};
pub use set::LockSet;
pub use set_definitions::Moved;
