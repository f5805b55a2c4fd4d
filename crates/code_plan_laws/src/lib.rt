//! The laws of plans as the code has them: what the definitions plan over cached sectors of a disk that stands for a tree, said of the plan that the
//! code hands out; and that over a fresh disk plans may be asked for, so that there is such a disk. Each is the contract of a public function with an
//! empty body. The crates that plan have them as clauses of their calls. It stands on the laws of plans over disks.
#![tactic(auto)]

mod code;
mod fresh;

pub use code::{
    what_is_changed_has_a_next_version, what_is_planned_is_exact, what_is_planned_stands,
};
pub use fresh::plans_may_be_asked;
