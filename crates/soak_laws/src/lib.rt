//! Laws of the script of a soak: it meets what a run asks of its script. Each is the contract of a public function with an empty body. They stand on the script's
//! definition, and on what is asked of scripts by the places of their lines and by the transcripts of runs.
#![tactic(auto)]

mod script;

pub use script::{soak_scripts_are_numbered, soak_scripts_ascend};
