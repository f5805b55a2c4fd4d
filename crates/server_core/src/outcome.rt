// What a finished line comes to.
use frang_base::{Block, LockId, Redo, Reply, Sector};
use meta_version::SectorList;

/// What a finished line comes to. Contracts say which outcome of the core it is.
#[derive(Drop)]
pub struct Outcome {
    pub reply: Reply,
    /// The record of its changes, where it changes something.
    pub redo: Option<Redo>,
    /// The sectors of file bytes that it sets, in the order of its edits.
    pub bytes: Vec<BytesSet>,
    /// The sectors of file bytes that it frees.
    pub freed: SectorList,
    /// Sectors that come under other locks, each with its new lock; the last counts where one stands twice. Those that aren't cached may be left out.
    pub moves: Vec<(Sector, LockId)>,
}

/// A sector of file bytes that a line sets, with its new bytes and the lock that covers it from then on.
#[derive(Drop)]
pub struct BytesSet {
    pub sector: Sector,
    pub block: Block,
    pub cover: LockId,
}
