//! A status board of four numbers that one writer publishes and readers read without a lock of their caller's. Its contracts
//! promise that a publishing that would go back in a number is refused, that the reads of a reader never go back, nor behind
//! what a reader that it took in has read, and that each is zeros or one of the published, in their order. It stands on the
//! bottom layer, and on a cell of words under a rule.
#![tactic(auto)]

mod board;
mod figures;
mod rule;

pub use board::{Board, Reader, Writer, close, make};
pub use figures::{Back, Figures};
