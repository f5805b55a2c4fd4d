//! The words of a command line, read by `clap`: the command that they ask for, or `None` exactly where they are no command, but for want of
//! memory. It stands on what sorted words ask.
#![tactic(auto)]

mod command;
mod line;
mod matches;

pub use command::command_of;
