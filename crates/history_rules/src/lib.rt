//! Whether a history is legal and keeps what must be kept, as a program that is given one item after the other. An entry is done in the tree
//! itself, so that what one entry more costs doesn't grow with the tree. Each contract promises the value of its definition. It stands on the
//! trees of histories, and takes from there what recoveries remove.
#![tactic(auto)]

mod known;
mod settling;
mod stands;

pub use known::keeps_known;
pub use settling::Settling;
