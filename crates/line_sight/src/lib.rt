//! What a line over paths is planned over: the bitmaps of its set's segments that aren't cached yet, and, once they are, these bitmaps with whether they are all of the disk's. With the
//! usable sectors they are the sight that the core's definition plans a line over. It stands on the cache, on sets of locks, on the usable sectors and on bitmaps.
#![tactic(auto)]

mod missing;
mod sight;

pub use missing::{first_missing, is_missing_at};
pub use sight::{Sight, sight_of};
