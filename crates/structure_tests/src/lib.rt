//! Tests of what the servers keep in memory: sectors with versions, the cache, what of it a line may use, the order of writes, locks and sets of them, seen
//! sectors, leases and writes in flight. It holds nothing else, so that no crate with proofs is proved once more for its tests.
#![tactic(auto)]

#[cfg(test)]
mod builders;
#[cfg(test)]
mod caches;
#[cfg(test)]
mod flights;
#[cfg(test)]
mod leases;
#[cfg(test)]
mod locks;
#[cfg(test)]
mod many_sectors;
#[cfg(test)]
mod phases;
#[cfg(test)]
mod usable;
#[cfg(test)]
mod versions;
