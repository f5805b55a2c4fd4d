//! Plans of the operations that only look: stat, list, readlink and time. The contract promises what the plan of the definitions comes to over
//! the cached sectors, and that it answers as the tree does over every disk that stands for one. It stands on the steps that plans share, and on
//! the laws of plans over disks.
#![tactic(auto)]

mod names;
mod plan;

pub use plan::{look, plan_look};
