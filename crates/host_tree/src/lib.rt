//! What the host reads of the tree at the end of a run, and the lines that it says of it: which sectors it still has to read, by those that it has
//! read, whatever these hold, and then the lines, one after the other, from a place that is kept. Contracts see what was read and how many lines are
//! said, as the core's definition has them, and each call as that definition's word on it. Reading and saying take no memory: `reserve` and
//! `make_line` take it before. It stands on the map of sectors, the decoders of inodes and of sectors of directories, the lines of a tree by what its
//! nodes show, and the definition of the core.
#![tactic(auto)]

mod directory;
mod next_line;
mod tree;
mod tree_sectors;
mod wanting;

pub use tree::HostTree;
