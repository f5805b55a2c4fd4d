//! Laws of whole histories of lines with the bytes of files:
//!
//! - **Bytes**: along every legal history doubt is the same on both sides; lines keep the bytes of a tree's files, a recovery's marks keep cells
//!   known, and where cells are known a stop leaves the tree.
//! - **Stops**: what recoveries leave of a history that is told twice, as entries of the file tree and as what operations did to sectors; along it
//!   which cells are known, and so that replies are the tree's answers; and what the disk holds once all servers stop and all logs are replayed.
//! - **Fresh disks**: they meet the premises of the laws of histories, and a history of real plans over one.
//!
//! Each law is the contract of a public function with an empty body. They stand on the histories of lines and on the theorem on sectors; what is
//! asked of the core is named.
#![tactic(auto)]

mod at_stops;
mod byte_laws;
mod fresh;

pub use at_stops::{
    a_fresh_disk_begins, a_stop_leaves_the_told_tree, cells_are_known, doubt_covers_what_is_marked,
    doubt_stays_covered, entries_say_what_is_synced, events_keep_sight, histories_settle_alike,
    lines_tell_the_same, nothing_lost_is_touched, operations_see_their_locks,
    operations_show_what_is_known, operations_use_their_locks,
    recoveries_of_nothing_leave_what_stands, replies_are_answers, replies_stay_after_removals,
    stops_are_asked, stops_leave_the_tree_of_the_history, stops_leave_what_lines_tell,
    the_disk_stands_for_the_history, told_histories_are_legal,
};
pub use byte_laws::{
    a_stop_leaves_known_cells, a_stop_leaves_the_tree, doubt_is_the_same_along_lines,
    lines_keep_bytes, marks_keep_cells_known, told_numbers_do_the_same,
};
pub use fresh::{a_fresh_disk_begins_histories, two_servers_over_a_fresh_disk};
