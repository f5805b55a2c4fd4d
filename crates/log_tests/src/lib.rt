//! Tests of the layer of logs: sectors, bodies of records, logs, rings and replays, each worked out by hand. It holds nothing else.
#![tactic(auto)]

#[cfg(test)]
mod blocks;
#[cfg(test)]
mod bodies;
#[cfg(test)]
mod logs;
#[cfg(test)]
mod packed;
#[cfg(test)]
mod pieces;
#[cfg(test)]
mod recoveries;
#[cfg(test)]
mod replays;
#[cfg(test)]
mod rings;
#[cfg(test)]
mod sectors;
