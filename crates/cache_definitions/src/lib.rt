//! What a server has cached of sectors: of each its block, the lock that covers it and, where it is dirty, its dirt; what is asked of such a cache and made of
//! it; and the same with flags, as the cache in code is seen. The core of several servers and the cache as code cite it. Nearly all of it is `specs/`: the code
//! is the dirt, which the cache keeps, the law that some sector passes a test exactly where there is a first that does, and the law of what is left of a list.
//! It stands on the base types, on maps of sectors and on the order of locks.
#![tactic(auto)]

mod dirt;
mod laws;

pub use dirt::Dirt;
pub use laws::{some_sector_passes_where_a_first_does, what_is_left_is_not_among_them};
