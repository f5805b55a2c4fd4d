// The writes that seal a log.
ghost use Rattle.std.specs.Prelude.{◌≡◌, ◌<◌, ◌≤◌, ◌+◌, ℕ, IfOk};
ghost use Rattle.frang_base.specs.declared.limits.TheConstants.{LOG_NUMBERS_END};
ghost use Rattle.sector_bytes.specs.SectorMaps.{Ascend, value_at, with_value};
ghost use Rattle.disk_definitions.specs.LogSectors as sectors;
ghost use Rattle.core_definitions.specs.Logs.{log_sector, seal_block};
ghost use Rattle.log_slots.specs.Reading.{log_rules};
ghost use Rattle.recovery_demon.specs.Rules.{first_writes, later_writes, seal};

use disk_definitions::LogSector;
use frang_base::limits::{
    LOG_BODY_BYTES, LOG_IN_FLIGHT_MAX, LOG_NUMBERS_END, LOG_SECTORS, SECTOR_BYTES,
};
use frang_base::{Block, NoMemory, OpNo, Sector, ServerId};
use frang_layout::{Region, sector_of};
use log_record::sector_write;
use ordered_map::OrderedMap;
use std::alloc::Global;

/// How many numbers a seal has but its first.
const LATER: u64 = LOG_IN_FLIGHT_MAX as u64 - 1;

/// The writes that seal a log.
#[derive(Drop)]
pub(crate) struct Seals {
    /// Those of all numbers but the first.
    pub later: OrderedMap<u64, Block>,
    /// That of the first.
    pub first: OrderedMap<u64, Block>,
}

/// The writes that seal a server's log behind its end. `NoMemory` comes too where a number of the seal would be none that a log may have.
pub(crate) fn make_seals(alloc: Global, dead: ServerId, end: u64) -> Result<Seals, NoMemory>
    ensures later { IfOk result (λ s. (sector : ℕ) → value_at s.later.entries sector ≡ value_at (later_writes dead.0 end) sector) }
    ensures later_ascend { IfOk result (λ s. Ascend s.later.entries) }
    ensures first { IfOk result (λ s. s.first.entries ≡ first_writes dead.0 end) }
{
    // No log has so great a number while its servers keep to the numbers below 2^62.
    if end >= LOG_NUMBERS_END - LOG_IN_FLIGHT_MAX as u64 {
        return Err(NoMemory);
    }
    let later = later_seals(alloc, dead, end)?;
    let first = first_seal(alloc, dead, end)?;
    Ok(Seals { later, first })
}

// Those of all numbers but the first.
fn later_seals(alloc: Global, dead: ServerId, end: u64) -> Result<OrderedMap<u64, Block>, NoMemory>
    requires { end + 64 < LOG_NUMBERS_END }
    ensures later { IfOk result (λ m. (sector : ℕ) → value_at m.entries sector ≡ value_at (later_writes dead.0 end) sector) }
    ensures ascend { IfOk result (λ m. Ascend m.entries) }
{
    let mut seals = OrderedMap::new(alloc);
    seals.reserve(LATER as usize)?;
    let mut left = LATER;
    while left > 0 {
        left -= 1;
        put_seal(&mut seals, dead, end + 2 + left);
    }
    let _ = seals.count();
    Ok(seals)
}

// That of the first number.
fn first_seal(alloc: Global, dead: ServerId, end: u64) -> Result<OrderedMap<u64, Block>, NoMemory>
    requires { end + 64 < LOG_NUMBERS_END }
    ensures { IfOk result (λ m. m.entries ≡ first_writes dead.0 end) }
{
    let mut seals = OrderedMap::new(alloc);
    seals.reserve(1)?;
    put_seal(&mut seals, dead, end + 1);
    Ok(seals)
}

// Puts in the write that seals a number. There is room for it.
#[tactic(auto, using(log_slots::proofs::UnreadSlots::room_most), unfolding(crate::specs::Rules::seal))]
fn put_seal(seals: &mut OrderedMap<u64, Block>, dead: ServerId, number: u64)
    requires room { 0 < seals.old.spare }
    requires number { number < LOG_NUMBERS_END }
    ensures entries { seals.new.entries ≡ with_value seals.old.entries (seal dead.0 number).0 (seal dead.0 number).1 }
    ensures spare { seals.old.spare ≤ seals.new.spare + 1 }
{
    seals.put(seal_sector(dead, number).0, seal_block(number));
}

// The sector of a number in a server's log.
#[tactic(auto, unfolding(log_slots::specs::Reading::log_rules))]
fn seal_sector(dead: ServerId, number: u64) -> Sector
    ensures { result.0 ≡ log_sector log_rules dead.0 number }
{
    sector_of(&Region::Log {
        server: dead.0,
        slot: (number % LOG_SECTORS) as u8,
    })
}

// The block that seals a number.
fn seal_block(number: u64) -> Block
    requires { number < LOG_NUMBERS_END }
    ensures { result ≡ seal_block number }
{
    let mut block = [0; SECTOR_BYTES];
    sector_write(&empty_sector(number), &mut block);
    block
}

// The empty sector of a number.
#[tactic(auto, unfolding(sector_bytes::specs::Bytes::zeros))]
fn empty_sector(number: u64) -> LogSector
    ensures { result ≡ sectors.empty_sector number }
{
    LogSector {
        seq: number,
        op: OpNo(0),
        part: 0,
        parts: 0,
        used: 0,
        body: [0; LOG_BODY_BYTES],
    }
}
