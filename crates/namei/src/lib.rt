//! The walks of a path over cached sectors. Of a walk without links the contract promises the inode that the path names, why there is none, or the
//! first sector that is needed and isn't cached; of one through links the path without links that leads to the same place, how the walk is refused, or
//! that sector, and the nodes on its way. It stands on the reading of cached sectors, and on the laws of lines over the disk of a tree.
#![tactic(auto)]

mod ending;
mod onward;
mod resolving;
mod targets;
mod walking;

pub use ending::{PathEnd, Resolution, Walked};
pub use resolving::{Resolved, resolve, walk_links};
pub use walking::{Step, walk};
