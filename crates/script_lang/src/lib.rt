//! The script language: it reads a script from bytes and prints one. Its contracts promise that reading gives the script of the
//! bytes by the grammar, or the first bad line with the kind of its first fault, and that printing gives the grammar's own text
//! for it. It stands on the base types and the definitions of scripts.
#![tactic(auto)]

mod arguments;
mod command;
mod print;
mod refusal;
mod script;
mod words;

pub use print::print_script;
pub use refusal::ReadFault;
pub use script::read_script;
pub use script_definitions::ScriptFault;
