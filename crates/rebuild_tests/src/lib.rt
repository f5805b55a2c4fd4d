//! Tests of a lock table that is rebuilt from lists, and of one that is guarded while servers are silent, over lists worked out by hand. It promises nothing by
//! itself.
#![tactic(auto)]

#[cfg(test)]
mod guarding;
#[cfg(test)]
mod rebuilding;
