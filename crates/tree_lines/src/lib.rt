//! The lines of a tree, one after the other, from a place that is kept: the nodes that are left, those of the directories down to the
//! present one. Who has the nodes is asked for one at a time, so they may lie in memory, on a disk, or come in by and by. The contract promises
//! that the lines given are those of the definition, in order, each once, and that want of memory loses nothing but the call. It stands on
//! the definitions of trees.
#![tactic(auto)]

mod left;

pub use left::{Left, LinesLeft};
