// Numbers with a meaning of their own.
ghost use Rattle.std.specs.Prelude.{◌≡◌, ◌+◌, ◌*◌, ◌/◌, ◌%◌};
ghost use Rattle.frang_base.specs.declared.limits.TheConstants.{RUN_LINES_END};

use crate::limits::{RUN_LINES_END, SECTOR_BYTES};

/// A server, 0 to 15. The host is 255. Where a log is meant, 0 to 255.
#[derive(Clone, Copy, Debug, PartialEq, Eq, PartialOrd, Ord)]
pub struct ServerId(pub u8);

impl ServerId {
    /// The host, which is no server.
    pub const HOST: ServerId = ServerId(255);
}

/// The number of an operation: the run number times 2^32, plus the line of the script. 0 is none.
#[derive(Clone, Copy, PartialEq, Eq, PartialOrd, Ord)]
pub struct OpNo(pub u64);

impl OpNo {
    /// The number of the operation that a line of a run asks.
    pub fn of(run: u32, line: u32) -> OpNo
        ensures { result.0 ≡ run * RUN_LINES_END + line }
    {
        OpNo(u64::from(run) * RUN_LINES_END + u64::from(line))
    }

    /// The run of the operation.
    pub fn run(self) -> u32
        ensures { result ≡ self.0 / RUN_LINES_END }
    {
        (self.0 / RUN_LINES_END) as u32
    }

    /// The line that asked the operation.
    pub fn line(self) -> u32
        ensures { result ≡ self.0 % RUN_LINES_END }
    {
        (self.0 % RUN_LINES_END) as u32
    }
}

/// A sector of the disk by its address in sectors of 512 bytes, below 2^55.
#[derive(Clone, Copy, Debug, PartialEq, Eq, PartialOrd, Ord)]
pub struct Sector(pub u64);

/// The bytes of a sector.
pub type Block = [u8; SECTOR_BYTES];
