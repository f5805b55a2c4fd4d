//! Laws of what histories of the file tree must keep, step by step: which nodes an entry touches, and that nothing that is seen or synced is removed where the
//! last step shows nothing of what a recovery removes. Each law is the contract of a public function with an empty body. They hold for all trees, entries and
//! lists, and stand on the laws of trees and histories.
#![tactic(auto)]

mod laws;

pub use laws::{touched_nodes_are_there, what_is_kept_stays_kept};
