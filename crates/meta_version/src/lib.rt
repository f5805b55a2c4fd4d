//! Sectors with versions in memory: the version of a block, changes applied only where the block is older, and the map of sectors
//! that plans read. Contracts see the map as its entries, ascending by sector, beside a number of entries for which there is room,
//! and promise that what has room takes no memory. It stands on the base types and on the definitions of changes.
#![tactic(auto)]

mod block;
mod boxes;
mod lists;
mod plan;
mod sector_map;
mod sectors;
mod well_formed;

pub use block::{Applied, apply, version_of};
pub use lists::{ByteWrites, SectorList};
pub use plan::Plan;
pub use sector_map::SectorMap;
pub use sectors::Sectors;
pub use well_formed::is_change;
