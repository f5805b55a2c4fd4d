//! Tests of the plans of operations over small disks that were worked out by hand: of operations on names and on file bytes, of looks, of walks with
//! links followed, of the picks of held segments, and of what edits write.
#![tactic(auto)]

#[cfg(test)]
mod bytes;
#[cfg(test)]
mod bytes_asked;
#[cfg(test)]
mod expected;
#[cfg(test)]
mod looks;
#[cfg(test)]
mod names;
#[cfg(test)]
mod names_asked;
#[cfg(test)]
mod names_written;
#[cfg(test)]
mod old_disk;
#[cfg(test)]
mod picks;
#[cfg(test)]
mod reads;
#[cfg(test)]
mod resolved;
#[cfg(test)]
mod writes;
#[cfg(test)]
mod written;
