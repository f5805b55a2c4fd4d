//! Histories of lines: every run of servers over the sectors of a disk, whose operations are planned as lines are, is of one file tree, also where
//! recoveries removed operations. Each law is the contract of a public function with an empty body:
//!
//! - **Commits**: the plans of lines as plans over the sectors of the disk.
//! - **Fills**: what a line makes of the sectors of files.
//! - **Histories**: what the runs are of, and what follows along them.
//!
//! They stand on the plans of lines, on the laws of shapes, and on the theorem on sectors.
#![tactic(auto)]

mod commits;
mod fills;
mod histories;

pub use commits::{
    finished_lines_are_outcomes, line_plans_are_sound, lines_look_where_they_lie,
    lines_write_in_place, outcomes_are_of_plans, outcomes_own_what_they_write,
    plans_over_sectors_are_framed, plans_over_sectors_keep_guards,
};
pub use fills::{
    files_stay_filled_through_lines, lines_keep_or_write_sectors_of_files,
    lines_look_at_bytes_of_files, lines_write_pieces, lines_write_what_they_meet,
    parts_stay_or_are_written, what_lines_give_back_is_free,
};
pub use histories::{
    covers_kinds_and_free_sectors_follow, histories_are_of_one_tree, lines_keep_kinds,
    lines_meet_the_tree,
};
