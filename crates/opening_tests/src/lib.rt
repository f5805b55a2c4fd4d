//! Tests of the opening: its puts on a fresh disk against bytes worked out by hand from the formats, and each put failing in turn. It promises nothing by itself.
#![tactic(auto)]

#[cfg(test)]
mod fresh;
