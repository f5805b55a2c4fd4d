// A plan that is kept.
ghost use Rattle.std.specs.Prelude.{◌≡◌, true};
ghost use Rattle.kept_plans.specs.Records.{may_stand};

use frang_base::{LockId, Sector};
use lock_sets::{LockSet, SeenSectors};
use server_core::Outcome;

/// What a line comes to while its set is held and no bitmap of it lacks: contracts say of which line, and over what.
#[derive(Drop)]
pub enum KeptPlan {
    /// A sector that the line saw has moved, so that it isn't planned.
    Moved,
    /// None has, and it is planned.
    Planned(PlannedLine),
}

/// The plan of a line of which no sector that it saw has moved.
#[derive(Drop)]
pub struct PlannedLine {
    /// Whether all that it saw is cached as it was; else the first that isn't so isn't cached.
    pub through: bool,
    /// What it has seen once its set has grown by what the plan finds.
    pub seen: SeenSectors,
    pub end: KeptEnd,
}

/// How the plan of a line ends.
#[derive(Drop)]
pub enum KeptEnd {
    /// A sector is needed and isn't cached, the first such; this lock covers it.
    Need { sector: Sector, cover: LockId },
    /// Nothing free was found in the segments of the set, and they aren't all.
    Segments,
    /// A small block has to be cleared first; these are the locks that the line is found to need.
    Clear { block: u32, locks: LockSet },
    /// All is done.
    Done(FinishedLine),
}

/// What a finished line comes to, and the locks that it is found to need. Its record may stand in a log.
#[derive(Drop)]
pub struct FinishedLine {
    pub outcome: Outcome,
    pub locks: LockSet,
    pub ghost fits: { may_stand outcome.redo ≡ true },
}
