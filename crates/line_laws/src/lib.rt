//! Laws of plans and of lines, whose paths may lead through symbolic links, over a disk that stands for a tree:
//!
//! - **Plans on disks**: a plan over sectors and bitmaps of a disk needs the first sector that isn't at hand, or answers as the tree does, with
//!   changes that make a record, and the disk with these stands for the tree after the operation.
//! - **Lines**: a path leads over sectors where the tree's does, links followed; so an operation comes to the same, its plan meets what the tree
//!   performs, its locks cover what it looks at, edits, visits and changes, and its plan stands on the disk.
//! - **Moves**: what the edits of a finished line say of covers, locks, directories and bytes.
//! - **Shapes**: the same where the bytes of files are left out, and where a plan makes a record.
//! - **Going on**: over what a finished line leaves the next may be planned.
//! - **Traces**: what a line looked at, with sectors of a disk at hand, are its looks over the disk.
//! - **Covers**: the lock found by what is at hand for a sector at which a line looks is the true one.
//! - **Nodes**: which inodes nodes keep, take and give back, and under which locks.
//!
//! Each law is the contract of a public function with an empty body. They stand on the laws of plans, of records, of trees and of histories.
#![tactic(auto)]

mod covers;
mod lines;
mod moves;
mod nodes;
mod onward;
mod shapes;
mod standing;
mod traces;

pub use covers::{covers_at_hand_are_the_true_ones, lines_look_at_what_they_were_told_of};
pub use lines::{
    lines_are_planned_as_the_tree_performs, lines_stand_on_disks, locks_cover_lines,
    looks_of_lines_are_inside_and_covered, resolutions_lead_as_the_tree_does,
    resolved_paths_are_places,
};
pub use moves::{
    bytes_of_lines_are_owned, directories_stay_through_lines, lines_move_what_they_take_and_free,
    moves_of_lines_are_owned,
};
pub use nodes::{
    a_disk_tells_the_inodes_of_its_nodes, new_nodes_are_held_alone,
    nodes_that_stay_keep_their_inodes, room_takes_a_segment,
};
pub use onward::{
    edits_of_lines_may_be_made, lines_go_on, what_a_finished_line_leaves_can_be_planned_over,
};
pub use shapes::{
    a_disk_of_a_tree_is_one_of_its_shape, a_record_is_there_where_an_entry_may_be_lost,
};
pub use standing::plans_stand_on_the_disk;
pub use traces::lines_look_at_hand_as_over_the_disk;
