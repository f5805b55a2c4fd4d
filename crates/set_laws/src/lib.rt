//! Laws of sets of locks. Locks that are made a set first join another set as they do one by one, and that set lacks one of them exactly where it lacks a lock of the set
//! that they make; so the set is all that has to be kept of them. Each law is the contract of a public function with an empty body. They stand on the definition of
//! sets and on what is known of entries in order.
#![tactic(auto)]

mod laws;

pub use laws::{a_set_is_lacked_as_its_locks_are, a_set_joins_as_its_locks_do};
