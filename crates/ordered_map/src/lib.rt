//! A map whose keys are kept in order, and which keeps room: what `reserve` promised goes in without memory. Contracts see the list of
//! its entries, ascending by key, and for how many more there is room. The entries lie in chunks of some hundred, with blank chunks
//! beside them, so that a look-up takes time logarithmic in their number and an insertion moves at most one chunk's entries. It stands on
//! the lemmas on sorted entries.
#![tactic(auto)]

mod chunk;
mod chunks;
mod map;

pub use chunk::{Chunk, Edit};
pub use map::{OrderedMap, Place};
