// How a planned line ends.
use edit_moves::Move;
use frang_base::{Block, LockId, Redo, Reply, Sector};
use lock_sets::LockSet;
use meta_version::SectorList;

/// A line that is planned.
#[derive(Drop)]
pub struct Planned {
    /// The sectors with a version that the plan examined, in order, before the first that isn't cached.
    pub examined: Vec<Sector>,
    pub end: PlanEnd,
}

/// How the plan of a line ends.
#[derive(Drop)]
pub enum PlanEnd {
    /// A sector is needed and isn't cached, the first such; this lock covers it.
    Need { sector: Sector, cover: LockId },
    /// Nothing free was found in the held segments, and they aren't all.
    Segments,
    /// A small block has to be cleared first; these are the locks that the line is found to need.
    Clear { block: u32, locks: LockSet },
    /// All is done.
    Done(Finished),
}

/// What a finished line comes to.
#[derive(Drop)]
pub struct Finished {
    pub reply: Reply,
    /// The record of its changes, where it changes something.
    pub redo: Option<Redo>,
    /// The sectors of file bytes that it sets, in the order of its edits.
    pub bytes: Vec<BytesSet>,
    /// Each sector of the blocks of file bytes that it frees, ascending.
    pub freed: SectorList,
    /// The inodes and blocks that go from lock to lock, each once, with their new locks.
    pub moves: Vec<Move>,
    /// The locks that the line is found to need.
    pub locks: LockSet,
}

/// A sector of file bytes that a line sets, with its new bytes and the lock that covers it from then on.
#[derive(Drop)]
pub struct BytesSet {
    pub sector: Sector,
    pub block: Block,
    pub cover: LockId,
}
