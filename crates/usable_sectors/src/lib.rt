//! The cached sectors that a line may use: those whose cover is in its set of locks. It is a view of the cache, and copies nothing. Contracts see the sectors with their
//! blocks that the core of several servers has the line's plan made over. It stands on the cache and on sets of locks.
#![tactic(auto)]

mod usable;

pub use usable::Usable;
