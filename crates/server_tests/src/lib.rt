//! Tests of a server of the core as code: its lives and answers, a commit, what it wants written, which write it may issue next and what its doom settles; and of the host's reading of
//! a small tree. Tables worked out by hand from the core's definition. It holds nothing else, so that no crate with proofs is proved once more for its tests.
#![tactic(auto)]

#[cfg(test)]
mod asked;
#[cfg(test)]
mod lives;
#[cfg(test)]
mod trees;
#[cfg(test)]
mod worker;
#[cfg(test)]
mod writes;
