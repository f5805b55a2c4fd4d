// The replay of a log that was read, and the seal behind it.
ghost use Rattle.std.specs.Prelude.{◌≡◌, ◌≤◌, ◌<◌, [], ℕ, false, IfOk, IfSome, IsSome, IsTrue, OnOk, if◌then◌else◌, map, is_some};
ghost use Rattle.std.specs.List.{All, slice_get};
ghost use Rattle.std.specs.Map.{keys_of};
ghost use Rattle.std.specs.Option.{option_copied, option_map};
ghost use Rattle.frang_base.specs.declared.limits.TheConstants.{LOGS, SEGMENTS_MAX};
ghost use Rattle.sector_bytes.specs.SectorMaps.{Ascend, value_at};
ghost use Rattle.disk_replay.specs.Laid.{HoldsChanges};
ghost use Rattle.ordered_map.specs.Chunks.{joined};
ghost use Rattle.ordered_map.specs.Entries.{first_from};
ghost use Rattle.std.specs.Ordering.{nat_cmp};
ghost use Rattle.core_definitions.specs.Recoveries as recoveries;
ghost use Rattle.recovery_demon.specs.Inside.{IsBegun, IsOpened};
ghost use Rattle.recovery_demon.specs.Replays.{IsKept, advanced, is_over, look_made, waiting_with, write_acknowledged, write_issued, write_lost};
ghost use Rattle.disk_definitions.specs.Logs.{is_sealed, log_end, log_records};
ghost use Rattle.log_slots.specs.Reading.{read_slots};
ghost use Rattle.recovery_demon.specs.Rules.{first_writes, later_writes};

use crate::course::advance;
use crate::naming::named;
use crate::seals::{Seals, make_seals};
use crate::stage::{Course, Stage};
use disk_replay::replayed_block;
use frang_base::{Block, NoMemory, OpNo, Redo, Sector, ServerId};
use log_reading::{greatest_operation, is_sealed, read_log};
use log_slots::Slots;
use meta_version::version_of;
use ordered_map::{Chunk, OrderedMap};
use std::alloc::Global;
use std::collections::VecDeque;
use std::marker::Model;

/// A replay of a log that was read, and the seal behind it, with room for the next change or not.
#[derive(Drop)]
pub(crate) struct Replay {
    dead: ServerId,
    segments: u32,
    records: Vec<Redo>,
    greatest: OpNo,
    end: u64,
    is_sealed: bool,
    // The sectors to look at, and those looked at, each with the block wanted there if one is.
    looks: OrderedMap<u64, ()>,
    looked: OrderedMap<u64, Option<Block>>,
    course: Course,
    // The writes that are issued and not acknowledged.
    flying: OrderedMap<u64, Block>,
    // The sectors whose writes are acknowledged, the last first.
    written: VecDeque<u64>,
}

impl Model for Replay {
    ghost use Rattle.recovery_demon.specs.Replays.{Kept};

    ghost Value = { Kept };

    ghost use Rattle.std.specs.Prelude.{◌&&◌, nat_lt};
    ghost use Rattle.std.specs.VecDeque.{deque_capacity, deque_len};
    ghost use Rattle.recovery_demon.specs.Replays.{IsKept};
    ghost use Rattle.recovery_demon.specs.Fields.{replaying_of};

    ghost view = { λ r. record {
      replay = replaying_of r;
      is_ready = nat_lt 0 r.looked.spare && nat_lt 0 r.course.waiting.spare && nat_lt 0 r.flying.spare && nat_lt (deque_len r.written) (deque_capacity r.written);
    } };

    ghost invariant = { λ r. IsKept (replaying_of r) };
}

// The number of a server, which is below 256.
fn number_of(server: ServerId) -> u8
    ensures is { result ≡ server.0 }
    ensures few { result < LOGS }
{
    server.0
}

// What is read of a log by its slots.
#[derive(Drop)]
struct LogRead {
    records: Vec<Redo>,
    end: u64,
    is_sealed: bool,
}

// Reads a log by its slots.
fn read(alloc: Global, slots: &Slots) -> Result<LogRead, NoMemory>
    ensures records { IfOk result (λ log. log.records.items ≡ log_records (read_slots slots.now.entries)) }
    ensures holds { IfOk result (λ log. All HoldsChanges log.records.items) }
    ensures end { IfOk result (λ log. log.end ≡ log_end (read_slots slots.now.entries)) }
    ensures sealed { IfOk result (λ log. log.is_sealed ≡ is_sealed (read_slots slots.now.entries)) }
{
    let blocks = slots.blocks(alloc)?;
    let (end, records) = read_log(alloc, &blocks)?;
    let is_sealed = is_sealed(alloc, &blocks)?;
    Ok(LogRead {
        records,
        end,
        is_sealed,
    })
}

// The writes that are to seal a log, none where it is sealed.
fn seals_of(alloc: Global, dead: ServerId, end: u64, is_sealed: bool) -> Result<Seals, NoMemory>
    ensures later { is_sealed ≡ false → IfOk result (λ s. (sector : ℕ) → value_at s.later.entries sector ≡ value_at (later_writes dead.0 end) sector) }
    ensures first { is_sealed ≡ false → IfOk result (λ s. s.first.entries ≡ first_writes dead.0 end) }
    ensures later_ascend { IfOk result (λ s. Ascend s.later.entries) }
    ensures first_ascend { IfOk result (λ s. Ascend s.first.entries) }
{
    if is_sealed {
        return Ok(none(alloc));
    }
    let made = make_seals(alloc, dead, end)?;
    let _ = made.first.count();
    Ok(made)
}

// No seal.
fn none(alloc: Global) -> Seals
    ensures later { result.later.entries ≡ [] }
    ensures first { result.first.entries ≡ [] }
{
    Seals {
        later: OrderedMap::new(alloc),
        first: OrderedMap::new(alloc),
    }
}

// The block wanted at a sector that is looked at and has this one: with the changes of all records applied, where one applied.
fn wanted_block(records: &[Redo], sector: Sector, block: &Block) -> Option<Block>
    requires { All HoldsChanges records.now }
    ensures { result ≡ recoveries.wanted_block records.now sector.0 block.now }
{
    let after = replayed_block(records, sector, block);
    (version_of(block) < version_of(&after)).then_some(after)
}

// Puts in what is wanted at a sector, if anything is. There is room for it.
fn put_wanted(waiting: &mut OrderedMap<u64, Block>, sector: Sector, wanted: Option<Block>)
    requires { 0 < waiting.old.spare }
    ensures { waiting.new.entries ≡ waiting_with waiting.old.entries sector.0 wanted }
{
    match wanted {
        Some(block) => waiting.put(sector.0, block),
        None => {}
    }
}

impl Replay {
    /// A replay at its beginning, of a log of which all slots are read.
    pub(crate) fn new(
        alloc: Global,
        dead: ServerId,
        segments: u32,
        slots: &Slots,
    ) -> Result<Replay, NoMemory>
        requires { segments ≤ SEGMENTS_MAX }
        ensures opened { IfOk result (λ r. IsOpened dead.0 segments slots.now.entries r.replay) }
        ensures begun { IfOk result (λ r. IsBegun r.replay) }
        ensures kept { IfOk result (λ r. IsKept r.replay) }
    {
        let _ = number_of(dead);
        let log = read(alloc, slots)?;
        let looks = named(alloc, segments, &log.records)?;
        let seals = seals_of(alloc, dead, log.end, log.is_sealed)?;
        let flying = OrderedMap::new(alloc);
        let mut course = Course {
            stage: Stage::Replay,
            waiting: OrderedMap::new(alloc),
            later: seals.later,
            first: seals.first,
        };
        advance(&mut course, log.is_sealed, &looks, &flying);
        Ok(Replay {
            dead,
            segments,
            greatest: greatest_operation(&log.records),
            records: log.records,
            end: log.end,
            is_sealed: log.is_sealed,
            looks,
            looked: OrderedMap::new(alloc),
            course,
            flying,
            written: VecDeque::new(alloc),
        })
    }

    /// Makes room for the next change. Nothing else changes, whatever the answer.
    pub(crate) fn ready(&mut self) -> Result<(), NoMemory>
        ensures same { self.new.replay ≡ self.old.replay }
        ensures ok { OnOk result (IsTrue self.new.is_ready) }
    {
        self.looked.reserve(1)?;
        self.course.waiting.reserve(1)?;
        self.flying.reserve(1)?;
        self.written.reserve(1)?;
        Ok(())
    }

    /// The sector is looked at, and has this block.
    pub(crate) fn looked(&mut self, sector: Sector, block: &Block)
        requires ready { IsTrue self.old.is_ready }
        requires wanted { IsSome (value_at self.old.replay.looks sector.0) }
        ensures is { self.new.replay ≡ advanced (look_made sector.0 (recoveries.wanted_block self.old.replay.records sector.0 block.now) self.old.replay) }
        ensures kept { IsKept self.new.replay }
    {
        let wanted = wanted_block(&self.records, sector, block);
        self.looks.remove(&sector.0);
        self.looked.put(sector.0, wanted);
        put_wanted(&mut self.course.waiting, sector, wanted);
        advance(&mut self.course, self.is_sealed, &self.looks, &self.flying);
    }

    /// A wanted write is issued.
    pub(crate) fn issued(&mut self, sector: Sector)
        requires ready { IsTrue self.old.is_ready }
        requires wanted { IsSome (value_at self.old.replay.waiting sector.0) }
        ensures is { IfSome (value_at self.old.replay.waiting sector.0) (λ block. self.new.replay ≡ write_issued sector.0 block self.old.replay) }
        ensures kept { IsKept self.new.replay }
    {
        match self.course.waiting.take(&sector.0) {
            Some(block) => self.flying.put(sector.0, block),
            None => unreachable!(),
        }
    }

    /// A write that was issued is gone without being acknowledged, and is wanted again.
    pub(crate) fn lost(&mut self, sector: Sector)
        requires ready { IsTrue self.old.is_ready }
        requires issued { IsSome (value_at self.old.replay.flying sector.0) }
        ensures is { IfSome (value_at self.old.replay.flying sector.0) (λ block. self.new.replay ≡ write_lost sector.0 block self.old.replay) }
        ensures kept { IsKept self.new.replay }
    {
        match self.flying.take(&sector.0) {
            Some(block) => self.course.waiting.put(sector.0, block),
            None => unreachable!(),
        }
    }

    /// A write that was issued is acknowledged.
    pub(crate) fn written(&mut self, sector: Sector)
        requires ready { IsTrue self.old.is_ready }
        requires issued { IsSome (value_at self.old.replay.flying sector.0) }
        ensures is { self.new.replay ≡ advanced (write_acknowledged sector.0 self.old.replay) }
        ensures kept { IsKept self.new.replay }
    {
        self.flying.remove(&sector.0);
        self.written.push_front_reserved(sector.0);
        advance(&mut self.course, self.is_sealed, &self.looks, &self.flying);
    }

    /// The first sector to look at.
    pub(crate) fn first_look(&self) -> Option<Sector>
        ensures { option_map (λ sector. sector.0) result ≡ slice_get (keys_of self.now.replay.looks) 0 }
    {
        match self.looks.first() {
            Some(entry) => Some(Sector(entry.0)),
            None => None,
        }
    }

    /// Whether the sector is to be looked at.
    pub(crate) fn is_to_look(&self, sector: Sector) -> bool
        ensures { result ≡ is_some (value_at self.now.replay.looks sector.0) }
    {
        self.looks.get(&sector.0).is_some()
    }

    /// The first sector, not below this one, whose wanted write isn't issued.
    pub(crate) fn first_write(&self, from: Sector) -> Option<Sector>
        ensures { option_map (λ sector. sector.0) result ≡ option_map (λ entry. entry.0) (first_from nat_cmp self.now.replay.waiting from.0) }
    {
        match self.course.waiting.first_from(&from.0) {
            Some(entry) => Some(Sector(entry.0)),
            None => None,
        }
    }

    /// The block wanted at a sector, where the write isn't issued.
    pub(crate) fn bytes(&self, sector: Sector) -> Option<&Block>
        ensures { option_copied result ≡ value_at self.now.replay.waiting sector.0 }
    {
        self.course.waiting.get(&sector.0)
    }

    /// Whether a write of the sector is issued and not acknowledged.
    pub(crate) fn is_issued(&self, sector: Sector) -> bool
        ensures { result ≡ is_some (value_at self.now.replay.flying sector.0) }
    {
        self.flying.get(&sector.0).is_some()
    }

    /// Whether the sector was looked at.
    pub(crate) fn has_looked(&self, sector: Sector) -> bool
        ensures { result ≡ is_some (value_at self.now.replay.looked sector.0) }
    {
        self.looked.get(&sector.0).is_some()
    }

    /// Whether all is done.
    pub(crate) fn is_over(&self) -> bool
        ensures { result ≡ is_over self.now.replay.stage }
    {
        matches!(self.course.stage, Stage::Over)
    }

    /// The greatest operation of the log, 0 where it holds none.
    pub(crate) fn greatest(&self) -> OpNo
        ensures { result.0 ≡ self.now.replay.greatest }
    {
        self.greatest
    }

    /// The sectors to look at, in pieces that follow one another.
    pub(crate) fn looks(&self) -> &[Chunk<u64, ()>]
        ensures { joined result.now ≡ self.now.replay.looks }
    {
        self.looks.chunks()
    }

    /// The wanted writes that aren't issued, in pieces that follow one another.
    pub(crate) fn waiting(&self) -> &[Chunk<u64, Block>]
        ensures { joined result.now ≡ self.now.replay.waiting }
    {
        self.course.waiting.chunks()
    }
}
