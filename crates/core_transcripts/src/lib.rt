//! What the core says in its runs, and of which lines. Each law is the contract of a public function with no result:
//!
//! - **Records**: the lines said in a run are a well-formed transcript of its script, but for which lines the tree has.
//! - **Faults**: what the failed calls of a run account for.
//! - **Answers**: which lines of a script are answered, and in which order.
//! - **Scripts**: every script that was read meets what these laws ask of a script.
//!
//! They stand on the definitions of transcripts and of the core, on its laws, and on the grammar of scripts; nothing is asked of the disk.
#![tactic(auto)]

mod answers;
mod faults;
mod records;
mod scripts;

pub use answers::{
    answers_follow_the_script, each_line_is_answered_once, host_lines_are_answered_in_their_place,
    read_scripts_have_own_numbers,
};
pub use faults::{runs_are_within_their_faults, the_end_is_told};
pub use records::{records_are_transcripts, runs_have_their_faults};
pub use scripts::{read_scripts_are_numbered, read_scripts_are_transcribed};
