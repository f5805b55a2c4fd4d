// The writes in flight.
ghost use Rattle.std.specs.Prelude.{◌≡◌, ◌≢◌, ◌⊎◌, ◌+◌, ◌<◌, ◌≤◌, ◌++◌, ◌∷◌, [], Err, None, IsOk, IsSome, IfSome, OnOk, OnErr, length};
ghost use Rattle.std.specs.List.{All, slice_get};
ghost use Rattle.std.specs.Map.{keys_of};
ghost use Rattle.std.specs.Option.{option_copied, option_map};
ghost use Rattle.lock_definitions.specs.Lease.{IsInTime};
ghost use Rattle.frang_outside.specs.Outside.{Follows};
ghost use Rattle.petal_disk.specs.Flights.{AreFlights, IsSame, write_at, without, busy_with};
ghost use Rattle.petal_disk.specs.Flying.{flying_of, has_flights, has_flights_under, left_behind, lost, lost_from, moved, puts, ticket_of};
ghost use Rattle.petal_disk.specs.Arriving.{IssueOutcome, ArriveOutcome, arriving, left_by};

use crate::by_ticket::WritesByTicket;
use crate::counts::Counts;
use crate::{Arrived, Flying, IssueFault, Purpose, Ticket};
use frang_base::{LockId, NoMemory, Sector, ServerId};
use frang_outside::{Outside, Put, PutFault, Taken};
use ordered_map::OrderedMap;
use std::alloc::Global;
use std::marker::Model;

/// The writes in flight, seen as the list of them with their tickets, ascending, the ticket of the next one, and for how many
/// more there is room. Room counts memory and the tickets that are left: the last value of `u64` isn't given. A write is found by
/// its ticket, and by its sector, in time logarithmic in their number, and where one is issued or gone no other block moves.
pub struct Flight {
    writes: WritesByTicket,
    // The ticket of each sector's write.
    tickets: OrderedMap<u64, Ticket>,
    counts: Counts,
    next: u64,
}

// By one call, wherever it is dropped.
impl Drop for Flight {
    fn drop(self) {
        let Flight {
            writes: _writes,
            tickets: _tickets,
            counts: _counts,
            next: _,
        } = self;
    }
}

impl Model for Flight {
    ghost use Rattle.std.specs.Prelude.{◌-◌, ◌^◌, min};
    ghost use Rattle.petal_disk.specs.Flights.{Flights};
    ghost use Rattle.petal_disk.specs.Keeping.{AreKept};

    ghost Value = { Flights };

    ghost view = { λ flight. record {
      writes = flight.writes.writes;
      flying = flight.writes.flying;
      next = flight.next;
      room = min (min flight.writes.spare flight.tickets.spare) (2 ^ 64 - 1 - flight.next);
    } };

    ghost invariant = { λ flight. AreKept flight.writes.writes flight.writes.flying flight.next flight.tickets.entries flight.counts };
}

impl Flight {
    /// Nothing in flight; the first ticket will be 0. It takes no memory.
    pub fn new(alloc: Global) -> Flight
        ensures writes { result.writes ≡ [] }
        ensures flying { result.flying ≡ [] }
        ensures next { result.next ≡ 0 }
    {
        Flight {
            writes: WritesByTicket::new(alloc),
            tickets: OrderedMap::new(alloc),
            counts: Counts::new(),
            next: 0,
        }
    }

    /// Makes room for one more write, so that the next issue isn't refused for memory. Nothing else changes, whatever the answer.
    /// It takes no memory where there is that room. It answers `NoMemory` also where all tickets were given.
    pub fn reserve(&mut self) -> Result<(), NoMemory>
        ensures same { IsSame self.old self.new }
        ensures ok { OnOk result (0 < self.new.room) }
        ensures sure { 0 < self.old.room → IsOk result }
        ensures room { self.old.room ≤ self.new.room }
    {
        if self.next == u64::MAX {
            return Err(NoMemory);
        }
        self.writes.reserve()?;
        self.tickets.reserve(1)?;
        Ok(())
    }

    /// How many writes are in flight.
    pub fn count(&self) -> usize
        ensures count { result ≡ length self.now.writes }
        ensures all { result ≡ length self.now.flying }
        ensures flights { AreFlights self.now }
        ensures puts { self.now.writes ≡ puts self.now.flying }
    {
        self.writes.count()
    }

    /// The write at a place, counted from 0 and ascending by ticket. `None` exactly where the place isn't below `count`.
    pub fn at(&self, i: usize) -> Option<(Ticket, &Put)>
        ensures { option_map (λ write. (write.0, write.1.now)) result ≡ slice_get self.now.writes i }
    {
        match self.writes.at(i) {
            Some((ticket, flying)) => Some((ticket, &flying.put)),
            None => None,
        }
    }

    /// The same with what the write is of. It takes time in the number of the pieces, of some hundred writes each, in which the writes lie.
    pub fn flying_at(&self, i: usize) -> Option<(Ticket, &Flying)>
        ensures { option_map (λ write. (write.0, write.1.now)) result ≡ slice_get self.now.flying i }
    {
        self.writes.at(i)
    }

    /// The write with the least ticket, which was issued first of those in flight. `None` exactly where nothing is in flight.
    pub fn first(&self) -> Option<(Ticket, &Put)>
        ensures write { option_map (λ write. (write.0, write.1.now)) result ≡ slice_get self.now.writes 0 }
        ensures least { IfSome result (λ write. All (λ ticket. write.0.0 ≤ ticket.0) (keys_of self.now.writes)) }
    {
        match self.writes.at(0) {
            Some((ticket, flying)) => Some((ticket, &flying.put)),
            None => None,
        }
    }

    /// The write with this ticket. `None` exactly where it isn't in flight.
    pub fn get(&self, t: Ticket) -> Option<&Put>
        ensures { option_copied result ≡ write_at self.now.writes t.0 }
    {
        match self.writes.get(t) {
            Some(flying) => Some(&flying.put),
            None => None,
        }
    }

    /// The same with what the write is of, and whether it is of the present mount of its server. It takes time logarithmic in the number of
    /// writes in flight.
    pub fn flying(&self, t: Ticket) -> Option<&Flying>
        ensures { option_copied result ≡ write_at self.now.flying t.0 }
    {
        self.writes.get(t)
    }

    /// The ticket of the write of this sector. `None` exactly where no write of it is in flight. It takes time logarithmic in the number of
    /// writes in flight, and no memory.
    pub fn busy(&self, sector: Sector) -> Option<Ticket>
        ensures { result ≡ busy_with self.now.writes sector.0 }
    {
        self.tickets.get(&sector.0).copied()
    }

    /// Whether a write of a server's present mount is in flight. It takes no memory, and the same time however many writes are in flight.
    pub fn has_flights(&self, server: ServerId) -> bool
        ensures { result ≡ has_flights self.now.flying server.0 }
    {
        self.counts.get(server) > 0
    }

    /// Whether one in place under this lock is. It takes no memory, and time in the number of writes in flight.
    pub fn has_flights_under(&self, server: ServerId, lock: LockId) -> bool
        ensures { result ≡ has_flights_under self.now.flying server.0 lock }
    {
        self.writes.has_under(server, lock)
    }

    /// Puts a write in flight that is of no log and under no lock, as one of a recovery: the same as `issue_as` with that.
    pub fn issue(&mut self, put: Put) -> Result<Ticket, IssueFault>
        ensures outcome { IssueOutcome self.old self.new put Purpose.OfRecovery result }
        ensures sure { 0 < self.old.room → result ≢ Err IssueFault.NoMemory }
        ensures room { self.old.room ≤ self.new.room + 1 }
        ensures refused { OnErr result (self.old.room ≤ self.new.room) }
    {
        self.issue_as(put, Purpose::OfRecovery)
    }

    /// Puts a write in flight that is of this, and of the present mount of its server, and gives its ticket, the next one. `Busy` comes exactly
    /// where a write of this sector is in flight, and shows that write's ticket. After a refusal nothing has changed; `NoMemory` doesn't come
    /// where there is room: after `busy` has found none and `reserve` has made room it can't fail. It takes time logarithmic in the number of
    /// writes in flight.
    pub fn issue_as(&mut self, put: Put, purpose: Purpose) -> Result<Ticket, IssueFault>
        ensures outcome { IssueOutcome self.old self.new put purpose result }
        ensures sure { 0 < self.old.room → result ≢ Err IssueFault.NoMemory }
        ensures free { busy_with self.old.writes put.sector.0 ≡ None → 0 < self.old.room → IsOk result }
        ensures room { self.old.room ≤ self.new.room + 1 }
        ensures refused { OnErr result (self.old.room ≤ self.new.room) }
    {
        if let Some(ticket) = self.busy(put.sector) {
            return Err(IssueFault::Busy { ticket });
        }
        match self.reserve() {
            Ok(()) => Ok(self.add(put, purpose)),
            Err(NoMemory) => Err(IssueFault::NoMemory),
        }
    }

    // Puts a write in flight, of whose sector none is, and for which there is room.
    fn add(&mut self, put: Put, purpose: Purpose) -> Ticket
        requires free { busy_with self.old.writes put.sector.0 ≡ None }
        requires room { 0 < self.old.room }
        ensures ticket { result.0 ≡ self.old.next }
        ensures writes { self.new.writes ≡ self.old.writes ++ (result, put) ∷ [] }
        ensures flying { self.new.flying ≡ self.old.flying ++ (result, flying_of put purpose) ∷ [] }
        ensures next { self.new.next ≡ self.old.next + 1 }
        ensures left { self.old.room ≤ self.new.room + 1 }
    {
        let ticket = Ticket(self.next);
        let flying = Flying {
            put,
            purpose,
            present: true,
        };
        let _ = self.writes.count();
        self.counts.more(put.server);
        self.tickets.put(put.sector.0, ticket);
        self.writes.push(ticket, flying);
        self.next += 1;
        ticket
    }

    /// The write of a sector, if it is one in place of this server's present mount, is under this lock from now on. Nothing else changes. It
    /// takes time logarithmic in the number of writes in flight, and no memory.
    pub fn move_cover(&mut self, server: ServerId, sector: Sector, cover: LockId)
        ensures writes { self.new.writes ≡ self.old.writes }
        ensures flying { self.new.flying ≡ moved server.0 sector.0 cover self.old.flying }
        ensures next { self.new.next ≡ self.old.next }
        ensures room { self.new.room ≡ self.old.room }
    {
        let _ = self.writes.count();
        match self.busy(sector) {
            Some(ticket) => self.writes.cover(ticket, server, cover),
            None => {}
        }
    }

    /// All writes of a server in flight are of an earlier mount of it from now on. Nothing else changes. It takes no memory, and time in the
    /// number of writes in flight, each looked up by its place.
    pub fn leave_behind(&mut self, server: ServerId)
        ensures writes { self.new.writes ≡ self.old.writes }
        ensures flying { self.new.flying ≡ left_behind server.0 self.old.flying }
        ensures next { self.new.next ≡ self.old.next }
        ensures room { self.new.room ≡ self.old.room }
    {
        self.writes.leave_behind(server);
        self.counts.clear(server);
    }

    /// A write in flight is lost. It takes no memory.
    pub fn lose(&mut self, t: Ticket)
        requires { IsSome (write_at self.old.writes t.0) }
        ensures writes { self.new.writes ≡ without self.old.writes t.0 }
        ensures flying { self.new.flying ≡ without self.old.flying t.0 }
        ensures next { self.new.next ≡ self.old.next }
        ensures room { self.old.room ≤ self.new.room }
    {
        match self.writes.get(t) {
            Some(flying) => {
                let Put { sector, server, .. } = flying.put;
                let present = flying.present;
                self.counts.fewer(server, present);
                self.tickets.remove(&sector.0);
                self.writes.remove(t);
            }
            None => unreachable!(),
        }
    }

    /// All writes of a server in flight are lost. All others stay. It takes no memory, and time in the number of writes in flight, each looked
    /// up by its place.
    pub fn lose_all(&mut self, server: ServerId)
        ensures writes { self.new.writes ≡ puts (lost server.0 self.old.flying) }
        ensures flying { self.new.flying ≡ lost server.0 self.old.flying }
        ensures next { self.new.next ≡ self.old.next }
        ensures room { self.old.room ≤ self.new.room }
    {
        let mut i = 0;
        for turn in 0..self.count() {
            let _ = turn;
            i = self.lose_at(i, server);
        }
        let _ = self.count();
    }

    // The write at a place is lost, if it is this server's. The place to go on at.
    fn lose_at(&mut self, i: usize, server: ServerId) -> usize
        requires { i < length self.old.flying }
        ensures flying { lost_from server.0 result self.new.flying ≡ lost_from server.0 i self.old.flying }
        ensures left { length self.new.flying + i + 1 ≡ length self.old.flying + result }
        ensures next { self.new.next ≡ self.old.next }
        ensures room { self.old.room ≤ self.new.room }
    {
        let _ = self.count();
        match self.ticket_at(i, server) {
            Some(ticket) => {
                self.lose(ticket);
                i
            }
            None => i + 1,
        }
    }

    // The ticket of the write at a place, if it is this server's.
    fn ticket_at(&self, i: usize, server: ServerId) -> Option<Ticket>
        ensures { result ≡ ticket_of server.0 (slice_get self.now.flying i) }
    {
        match self.flying_at(i) {
            Some((ticket, flying)) if flying.put.server.0 == server.0 => Some(ticket),
            _ => None,
        }
    }

    /// A write in flight arrives at this tick: the outside is called once, with the put whose `now` is the tick, and its answer is
    /// handed on. `Late` comes exactly where the put's stamp is below the tick, also where the outside would have failed. After
    /// `NoMemory` the write is still in flight; after the other answers it isn't. It takes no memory beside the outside's.
    pub fn arrive<O: Outside>(&mut self, t: Ticket, now: u64, out: &mut O) -> Arrived
        requires { IsSome (write_at self.old.writes t.0) }
        ensures counts { Follows (O.state out.old) (O.state out.new) }
        ensures outcome { IfSome (write_at self.old.writes t.0) (λ put. ArriveOutcome (O.state out.old) (O.state out.new) (arriving put now) result) }
        ensures in_time { IfSome (write_at self.old.writes t.0) (λ put. result ≡ Arrived.Written → IsInTime put.stamp now) }
        ensures late { IfSome (write_at self.old.writes t.0) (λ put. put.stamp < now → (result ≡ Arrived.Late put.stamp now) ⊎ (result ≡ Arrived.NoMemory)) }
        ensures writes { self.new.writes ≡ left_by result self.old.writes t.0 }
        ensures flying { self.new.flying ≡ left_by result self.old.flying t.0 }
        ensures next { self.new.next ≡ self.old.next }
        ensures room { self.old.room ≤ self.new.room }
    {
        let put = self.arriving(t, now);
        let arrived = put_once(&put, out);
        if arrived != Arrived::NoMemory {
            self.lose(t);
        }
        arrived
    }

    // The write with this ticket as it arrives at a tick.
    fn arriving(&self, t: Ticket, now: u64) -> Put
        requires { IsSome (write_at self.now.writes t.0) }
        ensures { IfSome (write_at self.now.writes t.0) (λ put. result ≡ arriving put now) }
    {
        match self.writes.get(t) {
            Some(flying) => Put { now, ..flying.put },
            None => unreachable!(),
        }
    }
}

// A write arrives at the outside.
fn put_once<O: Outside>(put: &Put, out: &mut O) -> Arrived
    ensures counts { Follows (O.state out.old) (O.state out.new) }
    ensures outcome { ArriveOutcome (O.state out.old) (O.state out.new) put.entry.now result }
{
    match out.put(put) {
        Ok(Taken::Written) => Arrived::Written,
        Ok(Taken::Late) => Arrived::Late {
            stamp: put.stamp,
            now: put.now,
        },
        Err(PutFault::Failed) => Arrived::Failed,
        Err(PutFault::NoMemory) => Arrived::NoMemory,
    }
}
