// What is answered for a write.

/// A write in flight, by its number. Tickets are given from 0 on, each once.
#[derive(Clone, Copy, Debug, PartialEq, Eq, PartialOrd, Ord)]
pub struct Ticket(pub u64);

/// Why a write isn't issued.
#[derive(Clone, Copy, Debug, PartialEq, Eq)]
pub enum IssueFault {
    /// A write of the sector is in flight, with this ticket.
    Busy { ticket: Ticket },
    NoMemory,
}

/// How a write arrived.
#[derive(Clone, Copy, PartialEq, Eq)]
pub enum Arrived {
    Written,
    /// Its stamp was below the present tick, and no sector has changed.
    Late { stamp: u64, now: u64 },
    /// The outside failed, which has counted it for the put's server. The sector is old or new.
    Failed,
    /// Want of memory of the outside, which hasn't changed. The write is still in flight.
    NoMemory,
}
