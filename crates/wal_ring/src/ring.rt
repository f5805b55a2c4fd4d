// The ring.
ghost use Rattle.std.specs.Prelude.{◌≡◌, ℕ, Bool, true, ◌==◌, ◌+◌, ◌-◌, ◌<◌, ◌≤◌, ◌^◌, map, Ok, IfOk, IsOk, OnOk, IsSomeAnd, IsTrue};
ghost use Rattle.std.specs.List.{list_all, list_any};
ghost use Rattle.std.specs.VecDeque.{deque_len, deque_capacity};
ghost use Rattle.frang_base.specs.declared.limits.TheConstants.{LOG_NUMBERS_END, LOG_SECTORS};
ghost use Rattle.ring_definitions.specs.Rings as rings;
ghost use Rattle.ring_definitions.specs.Rings.{is_record, append_answer, ring_at, appended, passed, oldest_versions, reclaimed};
ghost use Rattle.wal_ring.specs.Kept.{is_first_open};
ghost use Rattle.wal_ring.specs.SpaciousRings.{HasRoom, KeepsRoom, KeepsRoomBut};
ghost use Rattle.wal_ring.specs.Outcomes.{AppendOutcome, ReserveOutcome, ReclaimOutcome};

use crate::names::{drop_up_to, is_named, listed, put_names, unwritten, versions_up_to};
use crate::packing::{frame_length, open_room, put_frame};
use frang_base::limits::{
    LOG_BODY_BYTES, LOG_IN_FLIGHT_MAX, LOG_QUARTER, LOG_WINDOW, SECTOR_BYTES,
};
use frang_base::{Block, NoMemory, Redo, Sector};
use log_record::{FRAME_BYTES_MAX, LogSector, push_frame, sector_write};
use ring_definitions::{Named, RingFault, Unwritten};
use std::alloc::Global;
use std::collections::VecDeque;
use std::marker::Model;

/// The log of a server in memory: its records that aren't given up, whose sectors have numbers that go on for ever, and which of these are issued and
/// acknowledged. Contracts see the ring of the definitions, and for how many more sectors of its log and names of sectors there is room.
#[derive(Drop)]
pub struct Ring {
    given_up: u64,
    reached: u64,
    above: VecDeque<bool>,
    waiting: VecDeque<LogSector>,
    named: Vec<Named>,
    // The frame of a record while it is put on sectors.
    frame: Vec<u8>,
    alloc: Global,
}

impl Model for Ring {
    ghost use Rattle.std.specs.Prelude.{◌-◌, vec_len, vec_capacity};
    ghost use Rattle.std.specs.VecDeque.{deque_len, deque_capacity};
    ghost use Rattle.wal_ring.specs.SpaciousRings.{SpaciousRing};
    ghost use Rattle.wal_ring.specs.Kept.{IsKept};

    ghost Value = { SpaciousRing };

    ghost view = { λ r. record {
      ring = record { given_up = r.given_up; reached = r.reached; above = r.above.items; waiting = r.waiting.items; named = r.named.items };
      sectors = deque_capacity r.waiting - deque_len r.waiting;
      names = vec_capacity r.named - vec_len r.named;
    } };

    ghost invariant = { λ r. IsKept r.given_up r.reached r.above.items r.waiting.items (deque_capacity r.above) (vec_capacity r.frame) };
}

impl Ring {
    /// A ring that goes on behind the end of a log: the next number is `end` + 1. It has room for no record yet.
    pub fn at(alloc: Global, end: u64) -> Result<Ring, NoMemory>
        requires first { LOG_SECTORS - 1 ≤ end }
        requires small { end < 2 ^ 62 }
        ensures { IfOk result (λ r. r.ring ≡ ring_at end) }
    {
        Ok(Ring {
            given_up: end,
            reached: end,
            above: VecDeque::with_capacity(alloc, LOG_IN_FLIGHT_MAX)?,
            waiting: VecDeque::new(alloc),
            named: Vec::new(alloc),
            frame: Vec::with_capacity(alloc, FRAME_BYTES_MAX)?,
            alloc,
        })
    }

    /// Appends a record, and answers the number of the sector with its last byte. The last sector may then be open and takes further records, until it is
    /// full or issued. `Full` comes exactly where the record newly begins more sectors than are free, and `NoMemory` only where enough are free and there is no
    /// room. After both the ring is as before.
    pub fn append(&mut self, redo: &Redo) -> Result<u64, RingFault>
        requires record { IsTrue (is_record redo.now) }
        requires numbers { rings.last self.old.ring < LOG_NUMBERS_END - 16 }
        ensures outcome { AppendOutcome redo.now self.old self.new result }
        ensures sure { HasRoom self.old redo.now → result ≡ append_answer self.old.ring redo.now }
        ensures last { IfOk result (λ number. rings.last self.new.ring ≡ number) }
        ensures room { KeepsRoomBut redo.now self.old self.new }
    {
        self.reserve(redo)?;
        Ok(self.put(redo))
    }

    // Appends a record for which there is room.
    fn put(&mut self, redo: &Redo) -> u64
        requires record { IsTrue (is_record redo.now) }
        requires numbers { rings.last self.old.ring < LOG_NUMBERS_END - 16 }
        requires room { HasRoom self.old redo.now }
        ensures ring { self.new.ring ≡ appended self.old.ring redo.now }
        ensures answer { result ≡ rings.last self.old.ring + rings.need self.old.ring redo.now }
        ensures last { result ≡ rings.last self.new.ring }
        ensures room { KeepsRoomBut redo.now self.old self.new }
    {
        let first = self.begins();
        let next = self.last() + 1;
        self.frame.clear();
        match push_frame(&mut self.frame, redo) {
            Ok(()) => {}
            Err(NoMemory) => unreachable!(),
        }
        put_frame(&mut self.waiting, next, &self.frame);
        put_names(&mut self.named, redo, first);
        self.last()
    }

    /// The last number issued.
    pub fn sent(&self) -> u64
        ensures { result ≡ rings.sent self.now.ring }
    {
        self.reached + self.above.len() as u64
    }

    /// The last number given: that of the sector with the last byte of the last record.
    pub fn last(&self) -> u64
        ensures number { result ≡ rings.last self.now.ring }
        ensures first { LOG_SECTORS - 1 ≤ result }
    {
        self.sent() + self.waiting.len() as u64
    }

    // The number of the sector in which the next record begins.
    fn begins(&self) -> u64
        ensures { result ≡ rings.begins self.now.ring }
    {
        if open_room(&self.waiting) == 0 {
            self.last() + 1
        } else {
            self.last()
        }
    }

    // The records that begin up to this number are the oldest: those in the oldest 64 numbers, issued or not.
    fn oldest_end(&self) -> u64
        ensures { result ≡ rings.oldest_end self.now.ring }
    {
        self.given_up + LOG_QUARTER
    }

    // The records that begin up to this number are reclaimable: those in the oldest 64 numbers, as far as these are issued.
    fn reclaim_end(&self) -> u64
        ensures { result ≡ rings.reclaim_end self.now.ring }
    {
        self.oldest_end().min(self.sent())
    }

    // How many sectors a record newly begins.
    fn need(&self, redo: &Redo) -> u32
        requires { IsTrue (is_record redo.now) }
        ensures { result ≡ rings.need self.now.ring redo.now }
    {
        let rest = frame_length(redo).saturating_sub(open_room(&self.waiting));
        rest.div_ceil(LOG_BODY_BYTES) as u32
    }

    // How many numbers are free.
    fn free(&self) -> u32
        ensures { result ≡ rings.free self.now.ring }
    {
        LOG_WINDOW.saturating_sub(self.last() - self.given_up) as u32
    }

    /// How many sectors a record newly begins, and how many are free: what `Full` would show. It takes no memory.
    pub fn room(&self, redo: &Redo) -> Result<(u32, u32), NoMemory>
        requires { IsTrue (is_record redo.now) }
        ensures { result ≡ Ok (rings.need self.now.ring redo.now, rings.free self.now.ring) }
    {
        Ok((self.need(redo), self.free()))
    }

    /// Makes room for a record, so that its append as the next call takes no memory. Nothing else changes, whatever the answer. `Full` comes exactly as in
    /// `append`, and `NoMemory` only where there is no room yet.
    pub fn reserve(&mut self, redo: &Redo) -> Result<(), RingFault>
        requires { IsTrue (is_record redo.now) }
        ensures ring { self.new.ring ≡ self.old.ring }
        ensures outcome { ReserveOutcome redo.now self.old self.new result }
        ensures sure { HasRoom self.old redo.now → IsOk (append_answer self.old.ring redo.now) → IsOk result }
        ensures room { KeepsRoom self.old self.new }
    {
        let (need, free) = (self.need(redo), self.free());
        if need > free {
            return Err(RingFault::Full { need, free });
        }
        self.make_room(need as usize, redo.changes.as_slice().len())
            .map_err(|_| RingFault::NoMemory)
    }

    // Makes room for so many sectors of the log and names of sectors.
    fn make_room(&mut self, sectors: usize, names: usize) -> Result<(), NoMemory>
        ensures ring { self.new.ring ≡ self.old.ring }
        ensures sectors { OnOk result (sectors ≤ self.new.sectors) }
        ensures names { OnOk result (names ≤ self.new.names) }
        ensures sure { sectors ≤ self.old.sectors → names ≤ self.old.names → IsOk result }
        ensures room { KeepsRoom self.old self.new }
    {
        self.waiting.reserve(sectors)?;
        self.named.reserve(names)?;
        Ok(())
    }

    /// The next sector to be issued, which may be the open one, with its number. `None` exactly where all are issued, or the number is more than 64 past the one up to which all are
    /// acknowledged.
    pub fn next_sector(&self) -> Option<(u64, Block)>
        ensures { result ≡ rings.next_sector self.now.ring }
    {
        if self.above.len() >= LOG_IN_FLIGHT_MAX {
            return None;
        }
        let sector = self.waiting.front()?;
        let mut block = [0; SECTOR_BYTES];
        sector_write(sector, &mut block);
        Some((self.sent() + 1, block))
    }

    /// The sector that `next_sector` gave with this number since the last append is issued, and takes no further records. It takes no memory.
    pub fn issued(&mut self, seq: u64)
        requires { IsSomeAnd (rings.next_sector self.old.ring) (λ x. x.0 ≡ seq) }
        ensures ring { self.new.ring ≡ rings.issued self.old.ring }
        ensures sent { rings.sent self.new.ring ≡ seq }
        ensures last { rings.last self.new.ring ≡ rings.last self.old.ring }
        ensures room { KeepsRoom self.old self.new }
    {
        prove!(self.sent() + 1 == seq);
        let _ = self.waiting.pop_front();
        match self.above.push_back(false) {
            Ok(()) => {}
            Err(_) => unreachable!(),
        }
    }

    /// The sector of this number is acknowledged. A number that is passed already, or isn't issued, changes nothing. It takes no memory.
    pub fn acked(&mut self, seq: u64)
        ensures ring { self.new.ring ≡ rings.acked self.old.ring seq }
        ensures sent { rings.sent self.new.ring ≡ rings.sent self.old.ring }
        ensures last { rings.last self.new.ring ≡ rings.last self.old.ring }
        ensures room { KeepsRoom self.old self.new }
    {
        if seq <= self.reached {
            return;
        }
        if self.sent() < seq {
            return;
        }
        let at = (seq - self.reached - 1) as usize;
        self.above[at] = true;
        self.reached = pass(self.reached, &mut self.above);
    }

    /// Every number up to this one is acknowledged.
    pub fn reached(&self) -> u64
        ensures { result ≡ self.now.ring.reached }
    {
        self.reached
    }

    /// Whether every number that was given is acknowledged.
    pub fn is_all_reached(&self) -> bool
        ensures { result ≡ (self.now.ring.reached == rings.last self.now.ring) }
    {
        self.reached == self.last()
    }

    /// Whether the oldest records name a sector. It takes no memory, and time in the number of the names of the ring.
    pub fn is_oldest_named(&self, sector: Sector) -> bool
        ensures { result ≡ list_any (λ x. x.sector.0 == sector.0) (rings.oldest self.now.ring) }
    {
        is_named(self.oldest_end(), &self.named, sector)
    }

    /// The sectors named in the oldest records, those that begin in the oldest 64 numbers, issued or not: ascending, each with its greatest version there.
    /// `reclaim` gives up those of them that begin in an issued number. What holds of each sector listed holds of each that is named there.
    pub fn oldest(&self) -> Result<Vec<(Sector, u64)>, NoMemory>
        ensures versions { IfOk result (λ list. map (λ entry. (entry.0.0, entry.1)) list.items ≡ oldest_versions self.now.ring) }
        ensures named { IfOk result (λ list. (test : ℕ → Bool) → list_all (λ entry. test entry.0.0) list.items ≡ list_all (λ x. test x.sector.0) (rings.oldest self.now.ring)) }
    {
        let versions = versions_up_to(self.alloc, self.oldest_end(), &self.named)?;
        listed(self.alloc, &versions)
    }

    /// Gives up the reclaimable records, those that begin in the oldest 64 numbers, as far as these are issued: `disk` names versions that are known to
    /// stand on the disk. `Unwritten` comes exactly where a sector named in these records has no such version, or a lesser one than the record's, and names
    /// the first such; the ring is then as before. It takes no memory.
    pub fn reclaim(&mut self, disk: &[(Sector, u64)]) -> Result<(), Unwritten>
        ensures outcome { ReclaimOutcome disk.now self.old.ring self.new.ring result }
        ensures room { KeepsRoom self.old self.new }
    {
        if let Some(fault) = unwritten(self.reclaim_end(), &self.named, disk) {
            return Err(fault);
        }
        self.give_up();
        Ok(())
    }

    /// Gives up the reclaimable records, as `reclaim` does, and asks nothing: the caller has seen before that what they name stands on the disk. It takes no
    /// memory.
    pub fn give_up(&mut self)
        ensures ring { self.new.ring ≡ reclaimed self.old.ring }
        ensures room { KeepsRoom self.old self.new }
    {
        let end = self.reclaim_end();
        self.given_up = end;
        drop_up_to(end, &mut self.named);
    }
}

// Passes the numbers that are acknowledged without a gap: takes them off, and answers the number that is then reached.
fn pass(mut reached: u64, above: &mut VecDeque<bool>) -> u64
    requires { reached + deque_len above.old < LOG_NUMBERS_END }
    ensures passes { (ring : rings.Ring) → passed ring reached above.old.items ≡ record ring { reached = result; above = above.new.items } }
    ensures first_open { is_first_open above.new.items ≡ true }
    ensures rises { reached ≤ result }
    ensures numbers { result + deque_len above.new ≡ reached + deque_len above.old }
    ensures capacity { deque_capacity above.old ≤ deque_capacity above.new }
{
    while above.front() == Some(&true) {
        let _ = above.pop_front();
        reached += 1;
    }
    reached
}
