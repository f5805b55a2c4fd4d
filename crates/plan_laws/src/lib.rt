//! Laws of plans over what a disk says, where it is the picture of a tree:
//!
//! - **Meeting the tree**: a plan goes by what it looks at, a walk over sectors leads where the tree's does, and a finished plan, of names, of looks
//!   or of file bytes, answers as the tree has it, with edits whose disk is that of the tree after the operation.
//! - **Looks**: a plan looks only at inodes and blocks that the disk has; what is at hand of the sectors that it looks at decides what it comes to;
//!   it edits only what it looked at.
//! - **Traces**: what a plan looked at, in order, beside what it comes to with some sectors at hand.
//! - **Covers**: the locks of a plan cover what it looks at, what it edits, and the nodes that it touches and changes.
//! - **Moves**: by a plan's edits alone, which lock covers each sector after them.
//! - **Space**: where a plan lacks segments, wants a block cleared, or has no space.
//!
//! Each law is the contract of a public function with an empty body. The crates that plan over cached sectors, and the laws of lines and histories,
//! rest on them and cite the lemmas of `proofs/`. They stand on the definitions of disks and plans, and on the laws of trees.
#![tactic(auto)]

mod covers;
mod looks;
mod meeting;
mod moves;
mod space;
mod tracing;

pub use covers::{
    bytes_keep_off_directories, changed_nodes_are_held_alone, edits_are_covered,
    locks_cover_what_is_planned, looks_are_covered, walks_are_held,
};
pub use looks::{edits_are_looked_at, plans_look_inside, what_is_at_hand_decides};
pub use meeting::{
    files_stay_within_their_blocks, looks_are_planned_as_the_tree_has_them,
    names_are_planned_as_the_tree_has_them, plans_go_by_what_they_look_at,
    reads_are_planned_as_the_tree_has_them, truncates_are_planned_as_the_tree_has_them,
    walks_lead_as_the_tree_does, writes_are_planned_as_the_tree_has_them,
};
pub use moves::{
    bytes_are_owned, covers_follow_the_moves, directories_stay, moves_are_owned,
    plans_move_what_they_take_and_free,
};
pub use space::plans_take_exactly_what_is_there;
pub use tracing::{
    a_trace_goes_on_as_the_computation_does, a_trace_is_of_the_looks_before_the_first_missing_one,
};
