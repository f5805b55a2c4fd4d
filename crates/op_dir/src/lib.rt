//! The plans of the operations on names: create, mkdir, link, symlink, unlink, rmdir and rename. The contract promises what the plan of the
//! definitions comes to over the cached sectors and the held segments, and that over every disk that stands for a tree it answers as the tree does
//! and leads to a disk of the tree after the operation. It stands on the steps that plans share, on what edits write, and on the laws of plans over
//! disks.
#![tactic(auto)]

mod linking;
mod making;
mod named;
mod plan;
mod removing;
mod renaming;
mod room;

pub use linking::link_node;
pub use making::make;
pub use plan::{plan_dir, plan_names};
pub use removing::{remove_directory, unlink};
pub use renaming::rename_node;
