//! Laws of what histories of lines keep, and that they are legal, on the side of the file tree:
//!
//! - **Kept**: no later entry of another server shows what a recovery removes, since nobody met its locks, and none made it sure. So no recovery removes what is
//!   seen or synced: in the history as it is at each moment, and in what a stop leaves.
//! - **Legal**: each entry is the tree's answer in what is left, and a number of directories' blocks that it tells is within its bounds.
//!
//! Each law is the contract of a public function with an empty body. They stand on the laws of stops and on the theorem on sectors.
#![tactic(auto)]

mod laws;

pub use laws::{
    closed_servers_keep_and_are_legal, deeds_hide_what_is_removed, histories_are_legal,
    numbers_may_be_told, recoveries_keep_what_is_known, what_lines_tell_is_kept,
};
