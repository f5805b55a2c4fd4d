// Events, what they ask of the outside, what is heard of its answer, and what a turn answers.
use frang_base::{Block, LockId, Mode, Sector, ServerId, Text};
use petal_disk::Ticket;

/// An event of the core, in the order of its table.
#[derive(Clone, Copy)]
pub enum Event {
    Begin(ServerId),
    Ask(ServerId, LockId, Mode),
    Fetch(ServerId, Sector),
    Again(ServerId),
    Clear(ServerId, u32),
    Commit(ServerId),
    Answer(ServerId),
    Give(ServerId, LockId),
    Issue(ServerId, Sector),
    Doom(ServerId),
    Resume(ServerId),
    Arrive(Ticket),
    Lose(Ticket),
    Die(ServerId),
    Renew(ServerId),
    Tick,
    Recover(ServerId, ServerId),
    Load(ServerId, u8),
    Look(ServerId, Sector),
    Finish(ServerId),
    HostLine(u32),
    Close(ServerId),
    Read(Sector),
    Show(u32),
    End,
}

/// What an event asks of the outside.
#[derive(Drop)]
pub enum Call {
    Nothing,
    /// A get for a party; where it fails, it is this party's.
    Get(ServerId, Sector),
    /// The write with this ticket arrives, a party's, at a sector.
    Put(Ticket, ServerId, Sector),
    /// A line is said.
    Say(Text),
}

/// What was heard of the answer. Nothing also where a line was said.
#[derive(Clone, Copy)]
pub enum Heard {
    Nothing,
    Got(Block),
    GetFailed,
}

/// Why a hall is over.
#[derive(Clone, Copy, Debug, PartialEq, Eq)]
pub enum End {
    /// `halt` was answered, or the end was said.
    Ended,
    /// A say failed.
    Mute,
    /// A get or put of the host failed.
    Fault(Sector),
}

/// What a turn did.
#[derive(Clone, Copy, Debug, PartialEq, Eq)]
pub enum Turn {
    /// It made one event.
    Did,
    /// This line is to be given to the gate.
    Gate { server: ServerId, line: u32 },
    /// No line is to be given, and nothing is enabled.
    Idle,
    Ended,
    Mute,
    Fault { sector: Sector },
}
