//! Laws of what is made of a cache: covers that move and changes that are laid, one sector after another, are one change of each cached sector. They stand on
//! the definitions of caches and on maps of sectors.
#![tactic(auto)]

mod laws;

pub use laws::{changes_lie_sector_by_sector, covers_move_sector_by_sector};
