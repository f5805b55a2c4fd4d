// How far a recovery has come, and what waits to be written.
use frang_base::Block;
use ordered_map::OrderedMap;

/// What a recovery whose log is read is at.
#[derive(Clone, Copy, PartialEq, Eq)]
pub(crate) enum Stage {
    /// Sectors are looked at, and what the records make of them is written.
    Replay,
    /// The numbers of the seal but its first are written.
    LaterSeals,
    /// The first number of the seal is written.
    FirstSeal,
    /// All is done.
    Over,
}

/// The stage of a recovery, what waits there to be written, and what will at the stages of the seal.
#[derive(Drop)]
pub(crate) struct Course {
    pub stage: Stage,
    pub waiting: OrderedMap<u64, Block>,
    pub later: OrderedMap<u64, Block>,
    pub first: OrderedMap<u64, Block>,
}
