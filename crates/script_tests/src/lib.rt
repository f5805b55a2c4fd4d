//! Tests of scripts that are read and printed, of said lines that are read and written, and of trees and histories as programs: what no contract
//! says, as that calls succeed while there is memory, and tables that were worked out by hand. It holds nothing else, so that no crate with proofs
//! is proved once more for its tests.
#![tactic(auto)]

#[cfg(test)]
mod forms;
#[cfg(test)]
mod parts;
#[cfg(test)]
mod recoveries;
#[cfg(test)]
mod said_lines;
#[cfg(test)]
mod script_sizes;
#[cfg(test)]
mod scripts;
