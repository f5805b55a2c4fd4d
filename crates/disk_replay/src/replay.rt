// The disk after its logs are replayed.
ghost use Rattle.std.specs.Prelude.{◌≡◌, ◌≤◌, ◌<◌, ◌*◌, ℕ, is_some, length, IfOk, IfSome, OnOk};
ghost use Rattle.std.specs.List.{All};
ghost use Rattle.frang_base.specs.Functions.{put};
ghost use Rattle.frang_base.specs.declared.limits.TheConstants.{LOGS, LOG_SECTORS, SECTOR_BYTES, SEGMENTS_MAX};
ghost use Rattle.sector_bytes.specs.Bytes.{zeros};
ghost use Rattle.sector_bytes.specs.SectorMaps.{value_at};
ghost use Rattle.sector_bytes.specs.Sectors.{sectors_of, SameSectors};
ghost use Rattle.disk_definitions.specs.Replay.{replayed};
ghost use Rattle.disk_replay.specs.Laid as laid;
ghost use Rattle.disk_replay.specs.Laid.{changes_below, changes_in, greatest_at, laid_by, records_at, AreGreatest, HoldsChanges};

use crate::apply::apply_records;
use crate::records::{greatest_kept, records_of};
use disk_definitions::Disk;
use frang_base::limits::{LOG_SECTORS, LOGS};
use frang_base::{NoMemory, OpNo, Redo, Sector, ServerId};
use frang_layout::{Region, sector_of};
use param_block::{Param, decode};
use sector_bytes::zero_block;
use std::alloc::Global;

/// A disk once its logs are replayed, and the greatest operation that each of its 256 logs held, `None` where it held no record.
#[derive(Drop)]
pub struct Replay {
    pub disk: Disk,
    pub greatest: Vec<Option<OpNo>>,
}

/// The disk after all its logs are replayed: their records' changes are laid over it, each where the sector is older, the logs in
/// order and their records in order. No other sector than an inode, a segment of the bitmap or one of a small block is changed, and none
/// where sector 0 isn't a parameter sector. The logs are then zero.
pub fn replayed(alloc: Global, disk: &Disk) -> Result<Disk, NoMemory>
    ensures { IfOk result (λ new. (sector : ℕ) → sectors_of new sector ≡ replayed (sectors_of disk.now) sector) }
{
    let copy = copied(alloc, disk)?;
    replay_in_place(alloc, copy)
}

/// The same as `replayed`, of a disk that isn't needed as it was, which takes no second disk's memory.
pub fn replay_in_place(alloc: Global, disk: Disk) -> Result<Disk, NoMemory>
    ensures { IfOk result (λ new. (sector : ℕ) → sectors_of new sector ≡ replayed (sectors_of disk) sector) }
{
    let replay = replay_with_greatest(alloc, disk)?;
    Ok(replay.disk)
}

/// The same as `replay_in_place`, with the greatest operation of each log. Each log is read once, and its records are given up before the next log is read.
pub fn replay_with_greatest(alloc: Global, disk: Disk) -> Result<Replay, NoMemory>
    ensures disk { IfOk result (λ r. (sector : ℕ) → sectors_of r.disk sector ≡ replayed (sectors_of disk) sector) }
    ensures len { IfOk result (λ r. length r.greatest.items ≡ LOGS) }
    ensures greatest { IfOk result (λ r. AreGreatest LOGS (sectors_of disk) r.greatest.items) }
{
    let param = decode(&disk.get(Sector(0)));
    let mut disk = disk;
    let greatest = lay_logs(alloc, &mut disk, &param)?;
    erase_logs(&mut disk)?;
    Ok(Replay { disk, greatest })
}

// Lays the changes of all logs over the disk, by its parameters, the logs in order. The greatest operation that each held.
fn lay_logs(
    alloc: Global,
    disk: &mut Disk,
    param: &Option<Param>,
) -> Result<Vec<Option<OpNo>>, NoMemory>
    requires { IfSome param.now (λ p. p.segments ≤ SEGMENTS_MAX) }
    ensures laid { OnOk result (SameSectors (sectors_of disk.new) (laid_by param.now (sectors_of disk.old) (changes_below (sectors_of disk.old) LOGS))) }
    ensures len { IfOk result (λ v. length v.items ≡ LOGS) }
    ensures greatest { IfOk result (λ v. AreGreatest LOGS (sectors_of disk.old) v.items) }
{
    let mut greatest = Vec::new(alloc);
    for server in 0..LOGS {
        let held = lay_log(alloc, disk, param, ServerId(server as u8))?;
        greatest.push(held)?;
    }
    Ok(greatest)
}

// Lays the changes of a log over the disk. The greatest operation that it held.
fn lay_log(
    alloc: Global,
    disk: &mut Disk,
    param: &Option<Param>,
    server: ServerId,
) -> Result<Option<OpNo>, NoMemory>
    requires { IfSome param.now (λ p. p.segments ≤ SEGMENTS_MAX) }
    ensures laid { OnOk result (SameSectors (sectors_of disk.new) (laid_by param.now (sectors_of disk.old) (changes_in (records_at (sectors_of disk.old) server.0)))) }
    ensures greatest { IfOk result (λ op. op ≡ greatest_at (sectors_of disk.old) server.0) }
{
    let records = records_of(alloc, disk, server)?;
    lay_records(disk, param, &records)?;
    Ok(greatest_kept(&records))
}

// Lays the changes of records over the disk, none where its parameters aren't in their grammar.
fn lay_records(disk: &mut Disk, param: &Option<Param>, records: &[Redo]) -> Result<(), NoMemory>
    requires segments { IfSome param.now (λ p. p.segments ≤ SEGMENTS_MAX) }
    requires changes { All HoldsChanges records.now }
    ensures { OnOk result (SameSectors (sectors_of disk.new) (laid_by param.now (sectors_of disk.old) (changes_in records.now))) }
{
    match param {
        Some(param) => apply_records(disk, param.segments, records),
        None => Ok(()),
    }
}

// Makes all logs zero.
fn erase_logs(disk: &mut Disk) -> Result<(), NoMemory>
    ensures { OnOk result (SameSectors (sectors_of disk.new) (laid.without_logs (sectors_of disk.old))) }
{
    for n in 0..LOGS as u64 * LOG_SECTORS {
        erase_slot(disk, n)?;
    }
    Ok(())
}

// Makes a slot of a log zero.
fn erase_slot(disk: &mut Disk, n: u64) -> Result<(), NoMemory>
    requires { n < LOGS * LOG_SECTORS }
    ensures { OnOk result (SameSectors (sectors_of disk.new) (put (sectors_of disk.old) (laid.slot_sector n) (zeros SECTOR_BYTES))) }
{
    let sector = sector_of(&Region::Log {
        server: (n / LOG_SECTORS) as u8,
        slot: (n % LOG_SECTORS) as u8,
    });
    if is_there(disk, sector) {
        disk.set(sector, zero_block())
    } else {
        Ok(())
    }
}

// Whether the sector was set.
fn is_there(disk: &Disk, sector: Sector) -> bool
    ensures { result ≡ is_some (value_at disk.now sector.0) }
{
    disk.as_map().contains_key(&sector.0)
}

// A copy of the disk.
fn copied(alloc: Global, disk: &Disk) -> Result<Disk, NoMemory>
    ensures { IfOk result (λ copy. SameSectors (sectors_of copy) (sectors_of disk.now)) }
{
    let mut copy = Disk::new(alloc);
    for (sector, block) in disk.as_map() {
        copy.set(Sector(*sector), *block.get())?;
    }
    Ok(copy)
}
