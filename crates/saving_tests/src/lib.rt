//! Tests of saving a disk: its file against bytes worked out by hand from the formats, gets that fail at both ends of each region, and a write that fails. It promises nothing by itself.
#![tactic(auto)]

#[cfg(test)]
mod saves;
