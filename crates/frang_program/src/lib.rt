//! The program as a function of the runtime: it makes the real files, the real outside and the open gate, and calls `frang` with the
//! words after the program's name. A contract promises the step from the call's status to the number with which the process ends
//! (`exit_code`); what the words and the files are, and what standard error takes, none says. Each program of the repository that
//! stands for `frang` is this call alone.
#![tactic(auto)]

mod explaining;
mod program;

pub use program::run_program;
