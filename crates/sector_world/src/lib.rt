//! Servers over the sectors of one disk, with locks, leases, caches, private logs, writes in flight and recoveries, where any
//! server may stop at any moment. The contracts promise that caches agree, that the disk with its logs replayed is what was
//! done but for ends of some servers' work that nobody saw, that no sector with a version ever gets older, that all answers
//! are those of one tree, and that what is known of file bytes is on the disk. Below them stand the laws of the histories of single sectors: what a replay
//! by versions leaves, what a removal leaves, and which bytes of files have no doubt. It holds no code.
#![tactic(auto)]

mod histories;
mod world;

pub use histories::{doubtless_bytes, removed_unseen, replayed_sector};
pub use world::{every_event, every_run, every_tree, every_tree_event, example_runs};
