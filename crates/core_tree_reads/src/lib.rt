//! What the host reads and says of the tree at the end of a run, over every run of the core alone: from the first block read on nothing is put or begun, each block is the disk's, and the
//! lines said are those of the tree for which the disk stands; so the lines said in a run are a well-formed transcript, these included. Each law is the contract of a public function. It
//! stands on the definitions of the core, on its facts and transcripts, and on the law of what is read off a disk that stands for a tree.
#![tactic(auto)]

mod examples;
mod lines;
mod reads;
mod rest;

pub use examples::an_empty_script_reads_the_tree;
pub use lines::{runs_say_whole_transcripts, the_lines_said_are_the_trees};
pub use reads::{blocks_read_are_the_disks, the_lines_said_are_read};
pub use rest::{nothing_is_done_while_reading, trees_are_read_at_rest};
