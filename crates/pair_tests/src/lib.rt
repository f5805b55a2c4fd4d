//! Tests of two copies of a disk that answer as one, over outsides in memory and such that fail. It promises nothing by itself.
#![tactic(auto)]

#[cfg(test)]
mod copies;
#[cfg(test)]
mod short_of_memory;
