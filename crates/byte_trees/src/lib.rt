//! Laws of the bytes of a tree's files beside those that stand somewhere. The laws are the contracts of public functions with empty bodies:
//!
//! - **Trees**: cells that come into doubt; a tree with a byte for each cell, and what is answered in it; a disk that stands for the shape of a tree and has
//!   its bytes; and what edits leave of bytes.
//! - **Doubts**: where the theorem on sectors leaves a sector of file bytes in doubt, the rules on histories leave the sector of the file that lies there in
//!   doubt; and what is known of file bytes, one operation back.
//!
//! They stand on the rules on histories, on the meaning of disks and trees, on the laws of shapes and on the histories of sectors; what is asked of a history
//! that is told on both sides is said entry by entry. Beside them, worked histories of a few servers, computed on both sides: which cells of files a recovery
//! leaves in doubt and which tree it leaves; which sectors of file bytes come into doubt and what is known of the others.
#![tactic(auto)]

mod doubts;
mod trees;

pub use doubts::{doubt_is_the_same, what_was_known_before};
pub use trees::{
    a_disk_stands_with_its_bytes, a_part_in_doubt_has_no_bytes, answers_keep_what_stands,
    edited_bytes_stand,
};
