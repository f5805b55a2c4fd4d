// What a ring keeps of its records, and its refusals.
use frang_base::Sector;

/// A sector that a record of the ring names, with the version that the record gives it, and the number of the log's sector in which the
/// record begins.
#[derive(Clone, Copy, Debug)]
pub struct Named {
    pub sector: Sector,
    pub version: u64,
    pub first: u64,
}

/// Why a record isn't taken. The ring is as before.
#[derive(Clone, Copy, Debug)]
pub enum RingFault {
    /// The record needs more sectors than are free.
    Full {
        /// The sectors that the record newly begins.
        need: u32,
        /// 192 less the numbers that are not given up.
        free: u32,
    },
    NoMemory,
}

/// A sector that one of the reclaimable records names isn't known to stand on the disk in that version or a later one.
#[derive(Clone, Copy, Debug)]
pub struct Unwritten {
    pub sector: Sector,
}
