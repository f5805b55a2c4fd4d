//! Worked histories beside the laws on what is kept and what is legal: a moment that meets all that they ask, and six rules that would be wrong, each by a small
//! history that is computed. It holds no code, and stands on those laws.
#![tactic(auto)]

mod rows;

pub use rows::{
    a_moment_meets_what_is_asked, whom_nobody_meets, wrong_locks_are_seen,
    wrong_numbers_leave_more, wrong_unmounts_are_synced,
};
