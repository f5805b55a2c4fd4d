//! The two phases of a line's locks: its set is sorted, so that each server takes its locks in the one order; and once all are held, what its plans saw before is
//! compared with what is cached now, which says whether they still stand. Both are equations with the words of `set_definitions`. It stands on sets of locks and
//! on what was seen (`lock_sets`).
#![tactic(auto)]

mod comparing;
mod sorting;

pub use comparing::{cached_front, recheck};
pub use lock_sets::{Moved, Seen};
pub use sorting::sort_set;
