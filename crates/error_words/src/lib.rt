//! What is wrong, in words for whoever gave it: the word of a script's line at fault, and what of a command line is no command. They are for people alone: no promise speaks of them, and no
//! answer rests on them. It stands on the reader of scripts, on the base types and on the kit's own text.
#![tactic(auto)]

mod command;
mod line;
mod usage;

pub use command::{Wrong, what_is_wrong};
pub use line::word_at_fault;
