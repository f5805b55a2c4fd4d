//! The file tree in memory: its operations, each answered and done in time about linear in what it touches, and its lines. Each
//! contract promises the answer and the tree of the definition, and that the tree is as before after want of memory. It stands on
//! the changes of nodes below.
#![tactic(auto)]

mod apply;
mod bytes;
mod doubts;
mod lines;
mod looks;
mod names;
mod perform;
mod place;
mod reach;
mod rename;
mod resolve;
mod shows;
mod tree;

pub use perform::{Resolved, Step, with_path, with_paths};
pub use place::{FileAt, Refusal};
pub use resolve::{Walk, WalkEnd};
pub use shows::cells_show;
pub use tree::Tree;
