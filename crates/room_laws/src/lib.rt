//! Laws of room: what a finished line tells where it is refused for want of room, and how many blocks are or were a directory's after it. Each law is the contract
//! of a public function with an empty body. They hold for every line over the disk of a tree, and stand on the laws of plans and of lines.
#![tactic(auto)]

mod laws;

pub use laws::{
    answers_tell_their_number, directories_grow_with_the_tree, refused_lines_hold_all_segments,
};
