//! Tests of what the servers keep in memory, beside plain structures that are searched from their front: 10,000 drawn calls of each, answered
//! alike, which leave both alike. It holds nothing else, so that no crate with proofs is proved once more for its tests.
#![tactic(auto)]

#[cfg(test)]
mod blocks;
#[cfg(test)]
mod draws;
#[cfg(test)]
mod plain_cache;
#[cfg(test)]
mod plain_flight;
#[cfg(test)]
mod plain_sectors;
#[cfg(test)]
mod plain_table;
