// What is told of a sector that has moved.
use frang_base::Sector;

/// A seen sector that is cached in another version, `found`, than the one that was seen, `saw`.
#[derive(Clone, Copy, Debug, PartialEq, Eq)]
pub struct Moved {
    pub sector: Sector,
    pub saw: u64,
    pub found: u64,
}
