//! The sectors that one server has cached. Contracts see the cache of the definitions: a map from sectors to their blocks, each with the
//! lock that covers it and, where it is dirty, its mark, up to which number the log must stand before it may be written, and whether it is
//! one of file bytes; and beside it which dirty sectors stay wanted and of which sectors a write is in flight, flags that take no memory.
//! They promise that a lock's cover is dropped only clean, and exactly where nothing under it is dirty. The dirty sectors lie in orders of
//! their marks too, one for each reason to write them, and all sectors in order of their covers, so that the one that may be written next
//! and those under a lock are found at once. It stands on what is cached of sectors, on the map of sectors, on ordered maps and on the
//! order of writes.
#![tactic(auto)]

mod cache;
mod covered;
mod covered_mark;
mod keys;
mod laws;
mod state;
mod states;

pub use cache::{Cache, Dirty};
pub use laws::{a_change_leaves_its_sector_dirty, covers_are_dropped_clean};
