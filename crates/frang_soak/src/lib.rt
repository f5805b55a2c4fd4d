//! The script of a soak: servers that each work in a directory of their own, by a generator of draws. The contract of the
//! script is its definition, exactly: every line with its number, its server and its operation. It stands on the types of
//! scripts alone.
#![tactic(auto)]

mod draws;
mod lines;
mod names;
mod operations;
mod script;

pub use script::soak_script;
