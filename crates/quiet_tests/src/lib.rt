//! Tests of the outside that keeps the lines said, over outsides in memory, and of a soak's report on lines worked out by hand. It promises nothing by itself.
#![tactic(auto)]

#[cfg(test)]
mod keeping;
#[cfg(test)]
mod reporting;
