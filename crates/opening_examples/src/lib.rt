//! That what the laws of openings, and of whole transcripts, ask is met: a fresh disk is read again, so its image may be opened; and a run of an empty script over it says a whole transcript, and may begin as
//! the law over runs asks. It holds no code, and stands on those laws.
#![tactic(auto)]

mod disks;
mod runs;

pub use disks::{a_fresh_disk_is_read_again, zero_logs_have_an_end};
pub use runs::{an_empty_script_may_begin, an_empty_script_says_a_whole_transcript};
