// What is made ready for an event.
use frang_base::{LockId, Mode, Sector, ServerId};
use hall_runs::Call;
use line_stages::Again;
use petal_disk::Ticket;
use recovery_demon::Demon;
use server_core::{Fate, PlainAnswer, Under};
use server_issues::WantedWrite;
use wal_ring::Ring;

/// What was made ready for an event: what was found out for it, and what it needs that takes memory. The room that it takes lies in the world itself.
#[derive(Drop)]
pub enum Ready {
    /// A server's next line, as it will be under way.
    Begin(ServerId, Under),
    Ask(ServerId, LockId, Mode),
    /// A sector that a server's line needs, and the lock that covers it.
    FetchSector(ServerId, Sector, LockId),
    /// A slot of its log that a server's mount reads.
    FetchSlot(ServerId, Sector),
    /// What a server's line goes on with.
    Again(ServerId, Again),
    Clear(ServerId, u32),
    Commit(ServerId),
    /// The answer that is due, and for a mount that begins the ring of its log.
    Answer(ServerId, PlainAnswer, Option<Ring>),
    Give(ServerId, LockId),
    Issue(ServerId, Sector, WantedWrite),
    /// What a server's doom settles.
    Doom(ServerId, Fate),
    Resume(ServerId),
    Arrive(Ticket),
    Lose(Ticket),
    Die(ServerId),
    Renew(ServerId),
    Tick,
    /// The recovery of a dead server's log by a party, as it begins.
    Recover(ServerId, ServerId, Demon),
    Load(ServerId, u8),
    Look(ServerId, Sector),
    Finish(ServerId),
    HostLine(u32),
    Close(ServerId),
    Read(Sector),
    Show(u32),
    End,
}

/// What was made ready for an event, and what the event asks of the outside.
#[derive(Drop)]
pub struct Made {
    pub ready: Ready,
    pub call: Call,
}
