// What a recovery wants done.
use frang_base::{OpNo, Sector};

/// What may be done next in the recovery of a log.
#[derive(Clone, Copy, PartialEq, Eq)]
pub enum Next {
    /// This slot of the log is to be read.
    Load { slot: u8 },
    /// This sector, which a record names, is to be looked at.
    Look(Sector),
    /// This sector is to be written.
    Write(Sector),
    /// All is done; the greatest operation of the log is this, 0 where it holds none.
    Done { keeps: OpNo },
}
