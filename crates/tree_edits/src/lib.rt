//! Nodes of the file tree changed where they stand, and what they take of the disk. Each contract promises the node, the nodes or
//! the counts that its definition gives, and that nothing changed after want of memory. It stands on the definitions of the tree.
#![tactic(auto)]

mod counts;
mod edits;
pub mod nodes;

pub use counts::{Blocks, large_blocks_of, must_grow, small_blocks_of};
pub use edits::{Bytes, count_of};
