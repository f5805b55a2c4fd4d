// The report of a check.
use frang_base::Sector;

/// A fault of a sector, of kind 1 to 9.
#[derive(Clone, Copy, PartialEq, Eq)]
pub struct Fault {
    pub sector: Sector,
    pub kind: u8,
}

/// How many nodes and blocks are reached on a disk, and its faults, ascending by sectors and kinds, each once. It stands for a tree exactly
/// where there are none.
#[derive(Drop)]
pub struct Report {
    pub segments: u32,
    pub dirs: u32,
    pub files: u32,
    pub links: u32,
    pub blocks: u32,
    pub larges: u32,
    pub faults: Vec<Fault>,
    pub stands: bool,
}
