// Writes in flight as one list that is gone through from its start, and 10,000 drawn calls of it beside the same of those in order.
ghost use Rattle.std.specs.Prelude.{◌<◌, IfSome, vec_len};

use crate::draws::{Draws, expect_alike};
use frang_base::{NoMemory, Sector, ServerId};
use frang_outside::{FaultyOutside, Outside, Put, PutFault, Taken};
use petal_disk::{Arrived, Flight, IssueFault, Ticket};
use std::alloc::Global;
use std::process::Abort;
use std::test::Fail;

// The writes in flight as one list that is gone through from its start.
#[derive(Drop)]
struct PlainFlight {
    writes: Vec<(Ticket, Put)>,
    next: u64,
}

impl PlainFlight {
    fn busy_with(&self, sector: Sector) -> Option<Ticket> {
        for (ticket, write) in &self.writes {
            if write.sector.0 == sector.0 {
                return Some(*ticket);
            }
        }
        None
    }

    fn issue(&mut self, put: Put) -> Result<Ticket, IssueFault> {
        if let Some(ticket) = self.busy_with(put.sector) {
            return Err(IssueFault::Busy { ticket });
        }
        if self.next == u64::MAX {
            return Err(IssueFault::NoMemory);
        }
        let ticket = Ticket(self.next);
        match self.writes.push((ticket, put)) {
            Ok(()) => {}
            Err(_) => return Err(IssueFault::NoMemory),
        }
        self.next += 1;
        Ok(ticket)
    }

    fn place(&self, t: Ticket) -> Option<usize>
        ensures { IfSome result (λ at. at < vec_len self.now.writes) }
    {
        self.writes.iter().position(|(ticket, _)| ticket.0 == t.0)
    }

    // Whether it was there.
    fn lose(&mut self, t: Ticket) -> bool {
        match self.place(t) {
            Some(at) => {
                let _ = self.writes.remove(at);
                true
            }
            None => false,
        }
    }

    fn arrive(&mut self, t: Ticket, now: u64, out: &mut FaultyOutside) -> Option<Arrived> {
        let at = self.place(t)?;
        let put = Put {
            now,
            ..self.writes[at].1
        };
        let arrived = put_once(&put, out);
        if arrived != Arrived::NoMemory {
            let _ = self.lose(t);
        }
        Some(arrived)
    }
}

// A write arrives at the outside.
fn put_once(put: &Put, out: &mut FaultyOutside) -> Arrived {
    match out.put(put) {
        Ok(Taken::Written) => Arrived::Written,
        Ok(Taken::Late) => Arrived::Late {
            stamp: put.stamp,
            now: put.now,
        },
        Err(PutFault::Failed) => Arrived::Failed,
        Err(PutFault::NoMemory) => Arrived::NoMemory,
    }
}

// A flight and the plain list of what is in flight, each with an outside of its own.
#[derive(Drop)]
struct Both {
    plain: PlainFlight,
    plain_out: FaultyOutside,
    flight: Flight,
    out: FaultyOutside,
}

// The puts that fail.
static FAILING: [u64; 5] = [3, 50, 51, 700, 1200];

fn failing(alloc: Global) -> Result<FaultyOutside, NoMemory> {
    let mut puts = Vec::new(alloc);
    for put in &FAILING {
        puts.push(*put)?;
    }
    Ok(FaultyOutside::new(alloc, Vec::new(alloc), puts, Vec::new(alloc)))
}

fn is_same_put(a: &Put, b: &Put, with_bytes: bool) -> bool {
    let stamps = a.stamp == b.stamp && a.now == b.now;
    let names = a.sector == b.sector && a.server == b.server && a.behalf == b.behalf;
    stamps && names && (!with_bytes || a.bytes == b.bytes)
}

impl Both {
    fn new(alloc: Global) -> Result<Both, NoMemory> {
        let writes = Vec::with_capacity(alloc, 64)?;
        let plain_out = failing(alloc)?;
        let out = failing(alloc)?;
        Ok(Both {
            plain: PlainFlight { writes, next: 0 },
            plain_out,
            flight: Flight::new(alloc),
            out,
        })
    }

    // Each call below is made on both, and says whether they answered the same.

    fn issue(&mut self, sector: u64, stamp: u64, byte: u8) -> bool {
        let put = Put {
            server: ServerId(0),
            behalf: ServerId(0),
            stamp,
            now: 0,
            sector: Sector(sector),
            bytes: [byte; 512],
        };
        // What is refused for want of memory isn't in flight: the next comparison tells.
        let answer = self.flight.issue(put);
        answer == Err(IssueFault::NoMemory) || self.plain.issue(put) == answer
    }

    fn lose(&mut self, t: Ticket) -> bool {
        match self.flight.get(t) {
            Some(_) => {
                self.flight.lose(t);
                self.plain.lose(t)
            }
            None => !self.plain.lose(t),
        }
    }

    fn arrive(&mut self, t: Ticket, now: u64) -> bool {
        match self.flight.get(t) {
            Some(_) => {
                let answer = self.flight.arrive(t, now, &mut self.out);
                answer == Arrived::NoMemory || self.arrive_plain(t, now) == Some(answer)
            }
            None => self.plain.place(t).is_none(),
        }
    }

    // The plain write arrives, at the second try where its outside wanted memory.
    fn arrive_plain(&mut self, t: Ticket, now: u64) -> Option<Arrived> {
        match self.plain.arrive(t, now, &mut self.plain_out) {
            Some(Arrived::NoMemory) => self.plain.arrive(t, now, &mut self.plain_out),
            arrived => arrived,
        }
    }

    // The ticket at a place of the plain list, and where it has none there, one that isn't given yet.
    fn ticket(&self, i: usize) -> Ticket {
        match self.plain.writes.get(i) {
            Some(write) => write.0,
            None => Ticket(self.plain.next),
        }
    }

    // The same is in flight.
    fn is_same(&self, with_bytes: bool) -> bool {
        if self.plain.writes.len() != self.flight.count() {
            return false;
        }
        for (i, (ticket, put)) in self.plain.writes.iter().enumerate() {
            match self.flight.at(i) {
                Some((t, other)) if t == *ticket && is_same_put(put, other, with_bytes) => {}
                _ => return false,
            }
        }
        true
    }

    // The two outsides were asked as often.
    fn has_as_many_acts(&self) -> bool {
        self.plain_out.acts().len() == self.out.acts().len()
    }

    // A drawn call.
    fn call(&mut self, draws: &mut Draws) -> bool {
        let kind = draws.draw() % 4;
        let a = draws.draw();
        let b = draws.draw() % 64;
        let ticket = self.ticket((a % 80) as usize);
        match kind {
            0 | 1 => self.issue(a % 64, b, (a % 251) as u8),
            2 => self.arrive(ticket, b),
            _ => self.lose(ticket),
        }
    }
}

// All calls are answered alike, and leave the same in flight; at the end the two outsides were asked as often.
fn expect_same_calls(rt: &impl Abort, both: &mut Both) {
    let mut draws = Draws::of(1);
    for i in 1..=10_000u32 {
        let is_answered = both.call(&mut draws);
        expect_alike(rt, is_answered, "answers", i);
        expect_alike(rt, both.is_same(i % 100 == 0), "what is in flight", i);
    }
    assert!(rt; both.has_as_many_acts());
}

#[test]
fn the_writes_in_flight_are_those_of_a_plain_list(rt: HostRuntime) -> Result<(), Fail> {
    let mut both = Both::new(rt.alloc())?;
    expect_same_calls(&rt, &mut both);
    Ok(())
}
