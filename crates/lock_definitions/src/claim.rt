// What servers have and wish of locks and logs, and what they are answered.
use frang_base::{Mode, ServerId};

/// What one server has of one lock: the mode in which it holds it, and the modes that it wished for and wasn't granted yet.
#[derive(Clone, Copy, PartialEq, Eq)]
pub struct Claim {
    pub held: Option<Mode>,
    pub wishes_shared: bool,
    pub wishes_sole: bool,
}

/// Who has taken the log of a dead server, and the tick at which the taker's lease ends.
#[derive(Clone, Copy, PartialEq, Eq)]
pub struct LogHold {
    pub by: ServerId,
    pub expiry: u64,
}

/// The answer to a server that wants a lock.
#[derive(Clone, Copy, PartialEq, Eq)]
pub enum Wanted {
    Granted,
    /// Other servers hold the lock in a mode that conflicts. `holders` has the bit 2^t for each such server t, 0 to 15.
    Wait { holders: u32 },
}

/// A log isn't to be had: another taker has it, whose lease ends at the tick `expiry`.
#[derive(Clone, Copy, Debug, PartialEq, Eq)]
pub struct LogTaken {
    pub by: ServerId,
    pub expiry: u64,
}

/// What a holder of a lock is asked for, since another server wishes the lock.
#[derive(Clone, Copy, PartialEq, Eq)]
pub enum AskedFor {
    Release,
    Downgrade,
}
