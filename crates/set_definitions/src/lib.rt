//! What the set of a line is made of: locks with the modes in which they are needed, in order; what joins it, what it lacks, what its server holds of it and
//! asks next; the sectors that the line has seen, with their versions, and how they stand against those that are cached later; and which cached sectors it may
//! use. The core of several servers and the sets as code cite it. Nearly all of it is `specs/`: the code is what is told of a sector that has moved, and the law
//! that it is told of exactly where the comparison ends so. It stands on the base types, on the definitions of locks and on sectors that are cached.
#![tactic(auto)]

mod laws;
mod moved;

pub use laws::a_sector_is_named_where_one_has_moved;
pub use moved::Moved;
