//! What the set of a line is found by while it is held: the locks that a plan needs which is finished or has a block cleared, found by the inodes at which it looked,
//! its reply and its edits. The contracts promise what the definitions say of the same sectors and bitmaps, and that over a disk that stands for a tree the locks
//! are those of the line's own plan, with both locks of what it moves. The core of a server lets the set of a line grow by them. It stands on sets of locks, the
//! reading of cached sectors, the edits of plans, and the laws of the locks and moves of lines.
#![tactic(auto)]

mod edits;
mod locks;
mod nodes;

pub use locks::{locks_of_clear, locks_of_finish};
pub use nodes::nodes_in;
