//! The steps of a line of the core as wholes: what the ties say of the next moment beside caches and writes in flight. Each law is the contract of a public function with an empty body:
//!
//! - **Cleared**: the zeros of cleared blocks, which are free, and pending until they are acknowledged.
//! - **Held**: the covers of writes in place, which their servers hold alone.
//! - **Marks**: where the marks of the sectors lie that are cleared, and of those of a Commit.
//! - **Numbers**: the numbers of operations, which are those of lines.
//!
//! They stand on the events of a line, and on what other events of the core keep.
#![tactic(auto)]

mod cleared;
mod held;
mod marks;
mod numbers;

pub use cleared::{lines_keep_what_is_cleared, what_is_claimed_is_clean};
pub use held::{lines_move_under_held_locks, writes_in_place_stay_held};
pub use marks::{clears_keep_ends, commits_keep_ends};
pub use numbers::{lines_under_way_are_numbered, numbers_stay_new};
