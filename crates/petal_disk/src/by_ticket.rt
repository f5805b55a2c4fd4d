// Writes in order of their tickets, each in a box of its own.
ghost use Rattle.std.specs.Prelude.{◌≡◌, ◌+◌, ◌<◌, ◌≤◌, ◌++◌, ◌∷◌, [], IsOk, IsSome, OnOk, length};
ghost use Rattle.std.specs.List.{All, slice_get};
ghost use Rattle.std.specs.Map.{keys_of};
ghost use Rattle.std.specs.Option.{option_copied, option_map};
ghost use Rattle.std.specs.Box.{box_value};
ghost use Rattle.ordered_map.specs.Chunks.{joined};
ghost use Rattle.petal_disk.specs.Keeping.{opened};
ghost use Rattle.petal_disk.specs.Flights.{write_at, without};
ghost use Rattle.petal_disk.specs.Flying.{changed_at, changed_place, covered, has_flights_under, left, left_behind, put_of, puts};

use crate::flying::{Cover, Leave, is_of};
use crate::{Flying, Purpose, Ticket};
use frang_base::limits::SECTOR_BYTES;
use frang_base::{LockId, NoMemory, Sector, ServerId};
use frang_outside::Put;
use ordered_map::{Chunk, OrderedMap};
use std::alloc::Global;
use std::marker::Model;

/// Writes with their tickets, ascending by ticket, and for how many more there is room. A write is found by its ticket in time
/// logarithmic in their number, and where one is taken out no block moves.
#[derive(Drop)]
pub(crate) struct WritesByTicket {
    writes: OrderedMap<Ticket, Box<Flying>>,
    // Boxes for writes to come; what they hold doesn't count.
    blank: Vec<Box<Flying>>,
    alloc: Global,
}

impl Model for WritesByTicket {
    ghost use Rattle.std.specs.Prelude.{min, vec_len};
    ghost use Rattle.std.specs.Box.{box_value};
    ghost use Rattle.petal_disk.specs.Flying.{put_of};
    ghost use Rattle.petal_disk.specs.Keeping.{Kept, opened};

    ghost Value = { Kept };

    ghost view = { λ kept. record {
      writes = opened kept.writes.entries (λ held. put_of (box_value held));
      flying = opened kept.writes.entries box_value;
      spare = min kept.writes.spare (vec_len kept.blank);
    } };
}

// A write for a box whose content doesn't count.
fn blank_write() -> Flying {
    Flying {
        put: Put {
            server: ServerId(0),
            behalf: ServerId(0),
            stamp: 0,
            now: 0,
            sector: Sector(0),
            bytes: [0; SECTOR_BYTES],
        },
        purpose: Purpose::OfRecovery,
        present: false,
    }
}

// Writes over what the box holds.
fn overwrite(kept: &mut Box<Flying>, flying: Flying)
    ensures { kept.new.value ≡ flying }
{
    **kept = flying;
}

// Whether a piece has a write of this server's present mount in place under a lock.
fn has_piece(piece: &[(Ticket, Box<Flying>)], server: ServerId, lock: LockId) -> bool
    ensures { result ≡ has_flights_under (opened piece.now box_value) server.0 lock }
{
    for (_, kept) in piece {
        if is_of(&**kept, server, lock) {
            return true;
        }
    }
    false
}

// The same of pieces that follow one another.
fn have_pieces(pieces: &[Chunk<Ticket, Box<Flying>>], server: ServerId, lock: LockId) -> bool
    ensures { result ≡ has_flights_under (opened (joined pieces.now) box_value) server.0 lock }
{
    for piece in pieces {
        if has_piece(piece.entries(), server, lock) {
            return true;
        }
    }
    false
}

impl WritesByTicket {
    /// No writes. It takes no memory.
    pub(crate) fn new(alloc: Global) -> Self
        ensures writes { result.writes ≡ [] }
        ensures flying { result.flying ≡ [] }
    {
        WritesByTicket {
            writes: OrderedMap::new(alloc),
            blank: Vec::new(alloc),
            alloc,
        }
    }

    /// How many writes there are.
    pub(crate) fn count(&self) -> usize
        ensures writes { result ≡ length self.now.writes }
        ensures flying { result ≡ length self.now.flying }
        ensures most { self.now.spare + length self.now.flying ≤ usize.MAX }
        ensures puts { self.now.writes ≡ puts self.now.flying }
    {
        self.writes.count()
    }

    /// The write at a place, counted from 0 and ascending by ticket. `None` exactly where the place isn't below `count`.
    pub(crate) fn at(&self, i: usize) -> Option<(Ticket, &Flying)>
        ensures writes { option_map (λ write. (write.0, put_of write.1.now)) result ≡ slice_get self.now.writes i }
        ensures flying { option_map (λ write. (write.0, write.1.now)) result ≡ slice_get self.now.flying i }
    {
        match self.writes.at(i) {
            Some(entry) => Some((entry.0, &*entry.1)),
            None => None,
        }
    }

    /// The write with this ticket. `None` exactly where there is none.
    pub(crate) fn get(&self, ticket: Ticket) -> Option<&Flying>
        ensures writes { option_map (λ flying. put_of flying.now) result ≡ write_at self.now.writes ticket.0 }
        ensures flying { option_copied result ≡ write_at self.now.flying ticket.0 }
    {
        match self.writes.get(&ticket) {
            Some(kept) => Some(&**kept),
            None => None,
        }
    }

    /// Makes room for one more write. Nothing else changes, whatever the answer. It takes no memory where there is that room.
    pub(crate) fn reserve(&mut self) -> Result<(), NoMemory>
        ensures writes { self.new.writes ≡ self.old.writes }
        ensures flying { self.new.flying ≡ self.old.flying }
        ensures ok { OnOk result (0 < self.new.spare) }
        ensures sure { 0 < self.old.spare → IsOk result }
        ensures spare { self.old.spare ≤ self.new.spare }
    {
        self.writes.reserve(1)?;
        if self.blank.is_empty() {
            let kept = Box::new(self.alloc, blank_write())?;
            self.blank.push(kept)?;
        }
        Ok(())
    }

    /// Adds a write whose ticket is above all others, and for which there is room. It takes no memory.
    pub(crate) fn push(&mut self, ticket: Ticket, flying: Flying)
        requires above { All (λ key. key.0 < ticket.0) (keys_of self.old.writes) }
        requires room { 0 < self.old.spare }
        ensures writes { self.new.writes ≡ self.old.writes ++ (ticket, flying.put) ∷ [] }
        ensures flying { self.new.flying ≡ self.old.flying ++ (ticket, flying) ∷ [] }
        ensures spare { self.old.spare ≤ self.new.spare + 1 }
    {
        match self.blank.pop() {
            Some(mut kept) => {
                overwrite(&mut kept, flying);
                self.writes.put(ticket, kept);
            }
            None => unreachable!(),
        }
    }

    /// There is no write with this ticket afterwards, and all others stay. It takes no memory.
    pub(crate) fn remove(&mut self, ticket: Ticket)
        ensures writes { self.new.writes ≡ without self.old.writes ticket.0 }
        ensures flying { self.new.flying ≡ without self.old.flying ticket.0 }
        ensures spare { self.old.spare ≤ self.new.spare }
    {
        self.writes.remove(&ticket);
    }

    /// The write with this ticket, which is there, is under this lock from now on, if it is one in place of this server's present mount.
    pub(crate) fn cover(&mut self, ticket: Ticket, server: ServerId, cover: LockId)
        requires { IsSome (write_at self.old.flying ticket.0) }
        ensures writes { self.new.writes ≡ self.old.writes }
        ensures flying { self.new.flying ≡ changed_at (covered server.0 cover) self.old.flying ticket.0 }
        ensures spare { self.new.spare ≡ self.old.spare }
    {
        let _ = self.writes.count();
        self.writes.change(&ticket, &Cover { server, cover });
    }

    // The write with this ticket, which is there, is of an earlier mount from now on, if it is this server's.
    fn leave(&mut self, ticket: Ticket, server: ServerId)
        requires { IsSome (write_at self.old.flying ticket.0) }
        ensures writes { self.new.writes ≡ self.old.writes }
        ensures flying { self.new.flying ≡ changed_at (left server.0) self.old.flying ticket.0 }
        ensures spare { self.new.spare ≡ self.old.spare }
    {
        let _ = self.writes.count();
        self.writes.change(&ticket, &Leave { server });
    }

    // The same of the write at a place, if there is one.
    fn leave_at(&mut self, i: usize, server: ServerId)
        ensures writes { self.new.writes ≡ self.old.writes }
        ensures flying { self.new.flying ≡ changed_place (left server.0) self.old.flying i }
        ensures spare { self.new.spare ≡ self.old.spare }
    {
        let _ = self.writes.count();
        match self.at(i) {
            Some((ticket, _)) => self.leave(ticket, server),
            None => {}
        }
    }

    /// All writes of this server are of an earlier mount from now on. It takes no memory.
    pub(crate) fn leave_behind(&mut self, server: ServerId)
        ensures writes { self.new.writes ≡ self.old.writes }
        ensures flying { self.new.flying ≡ left_behind server.0 self.old.flying }
        ensures spare { self.new.spare ≡ self.old.spare }
    {
        for i in 0..self.count() {
            self.leave_at(i, server);
        }
    }

    /// Whether a write of this server's present mount is there in place under a lock.
    pub(crate) fn has_under(&self, server: ServerId, lock: LockId) -> bool
        ensures { result ≡ has_flights_under self.now.flying server.0 lock }
    {
        have_pieces(self.writes.chunks(), server, lock)
    }
}
