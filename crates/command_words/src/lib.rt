//! What the words of a command line ask, once they are sorted into a command's name, positional words and the values of options: a run of a
//! script, a soak, or a command on an image. Numbers are read by the grammar of numbers; every command of the program is named here, and done
//! elsewhere. What words mean, sorted or not, is defined here; `command_line` sorts them.
#![tactic(auto)]

mod boards;
mod commands;
mod orders;
mod words;

pub use boards::{BoardChoice, READS_MAX};
pub use commands::{Command, DiskChoice, ImageCommand, RunCommand, asked_with};
pub use words::GivenWords;
