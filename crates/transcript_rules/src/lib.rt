//! Which lines may be said after which, as a program that is given one line after the other, so that what one line more costs doesn't grow
//! with the lines before it. Its contract promises the value of the definition for every line. It stands on the definitions of transcripts.
#![tactic(auto)]

mod breach;
mod phases;
mod told;
mod waiting;

pub use breach::Breach;
pub use phases::{Debt, Party, Phase};
pub use told::Told;
