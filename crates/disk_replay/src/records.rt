// What the log of a server holds.
ghost use Rattle.std.specs.Prelude.{◌≡◌, ◌<◌, ℕ, IfOk, [], length, slice_index_or, false};
ghost use Rattle.std.specs.List.{All};
ghost use Rattle.frang_base.specs.declared.limits.TheConstants.{LOG_SECTORS};
ghost use Rattle.sector_bytes.specs.Bytes.{zeros};
ghost use Rattle.sector_bytes.specs.Sectors.{sectors_of};
ghost use Rattle.disk_definitions.specs.Logs.{log_records};
ghost use Rattle.disk_definitions.specs.Replay as replays;
ghost use Rattle.disk_definitions.specs.Replay.{greatest_of};
ghost use Rattle.disk_definitions.specs.Regions as regions;
ghost use Rattle.disk_definitions.specs.declared.region.Region.TheVariants as region;
ghost use Rattle.disk_replay.specs.Laid.{greatest_kept, HoldsChanges};

use disk_definitions::Disk;
use frang_base::limits::LOG_SECTORS;
use frang_base::{Block, NoMemory, OpNo, Redo, Sector, ServerId};
use frang_layout::{Region, sector_of};
use log_reading::{greatest_operation, read_log};
use std::alloc::Global;

/// The greatest operation among the records of a server's log, 0 where it holds none. The server is any from 0 to 255.
pub fn greatest(alloc: Global, disk: &Disk, server: ServerId) -> Result<OpNo, NoMemory>
    ensures { IfOk result (λ op. op.0 ≡ greatest_of (sectors_of disk.now) server.0) }
{
    let records = records_of(alloc, disk, server)?;
    Ok(greatest_operation(&records))
}

/// The records of a server's log, in order. The server is any from 0 to 255.
pub fn records_of(alloc: Global, disk: &Disk, server: ServerId) -> Result<Vec<Redo>, NoMemory>
    ensures records { IfOk result (λ v. v.items ≡ log_records (replays.slots_of (sectors_of disk.now) server.0)) }
    ensures changes { IfOk result (λ v. All HoldsChanges v.items) }
{
    if !is_set(disk, server) {
        return Ok(Vec::new(alloc));
    }
    let slots = slots_of(alloc, disk, server)?;
    let (_, records) = read_log(alloc, &slots)?;
    Ok(records)
}

/// The greatest operation among records, `None` where there is no record.
pub(crate) fn greatest_kept(records: &[Redo]) -> Option<OpNo>
    ensures { result ≡ greatest_kept records.now }
{
    match records {
        [] => None,
        [_, ..] => Some(greatest_operation(records)),
    }
}

// Whether a sector of the server's log was set.
fn is_set(disk: &Disk, server: ServerId) -> bool
    ensures { result ≡ false → (slot : ℕ) → slot < LOG_SECTORS → replays.slots_of (sectors_of disk.now) server.0 slot ≡ zeros 512 }
{
    let first = slot_sector(server, 0).0;
    disk.as_map()
        .range(first..first + LOG_SECTORS)
        .next()
        .is_some()
}

// The blocks of the server's log, by slot.
fn slots_of(alloc: Global, disk: &Disk, server: ServerId) -> Result<Vec<Block>, NoMemory>
    ensures slots { IfOk result (λ v. (slot : ℕ) → slot < LOG_SECTORS → slice_index_or v.items slot [] ≡ replays.slots_of (sectors_of disk.now) server.0 slot) }
    ensures len { IfOk result (λ v. length v.items ≡ LOG_SECTORS) }
{
    let mut slots = Vec::with_capacity(alloc, LOG_SECTORS as usize)?;
    for slot in 0..LOG_SECTORS {
        slots.push(disk.get(slot_sector(server, slot as u8)))?;
    }
    Ok(slots)
}

fn slot_sector(server: ServerId, slot: u8) -> Sector
    ensures { result.0 ≡ regions.sector_of (region.Log server.0 slot) }
{
    sector_of(&Region::Log {
        server: server.0,
        slot,
    })
}
