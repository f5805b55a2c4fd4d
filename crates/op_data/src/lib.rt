//! The plans of the operations on file bytes: write, fill, truncate and read. The contract promises what the plan of the definitions comes to over
//! the cached sectors and the held segments, and that over every disk that stands for a tree it answers as the tree does and leads to a disk of the
//! tree after the operation. It stands on the steps that plans share, on the picks of blocks, on what edits write, and on the laws of plans over disks.
#![tactic(auto)]

mod edits;
mod file;
mod part;
mod plan;
mod read;
mod resize;
mod room;
mod segments;
mod shorter;
mod truncate;
mod write;
mod writing;

pub use plan::{plan_bytes, plan_data};
