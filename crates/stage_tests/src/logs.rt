// A log of which a part is used.
ghost use Rattle.std.specs.Prelude.{◌≡◌, IfOk};

use frang_base::limits::LOG_NUMBERS_END;
use frang_base::{Change, Changes, NoMemory, OpNo, Patch, Patches, Redo, Sector, Text};
use log_record::fits;
use std::alloc::Global;
use wal_ring::Ring;

// A record that changes this sector.
fn record_of(alloc: Global, sector: Sector) -> Result<Redo, NoMemory>
    ensures { IfOk result (λ redo. redo.op.0 ≡ 1) }
{
    let mut patches = Patches::new(alloc);
    let bytes = Text::of(alloc, &[7])?;
    patches.push(Patch { at: 8, bytes })?;
    let mut list = Vec::new(alloc);
    list.push(Change {
        sector,
        version: 1,
        patches,
    })?;
    Ok(Redo {
        op: OpNo(1),
        changes: Changes::from_vec(list),
    })
}

// The next sector of the log is issued and acknowledged.
fn write_next(ring: &mut Ring) {
    if let Some((number, _)) = ring.next_sector() {
        ring.issued(number);
        ring.acked(number);
    }
}

// A record that changes this sector is appended, in a sector of its own, which is then on the disk.
fn log(alloc: Global, ring: &mut Ring, sector: Sector) -> Result<(), NoMemory> {
    let redo = record_of(alloc, sector)?;
    if !fits(&redo) || ring.last() >= LOG_NUMBERS_END - 16 {
        return Err(NoMemory);
    }
    if ring.append(&redo).is_err() {
        return Err(NoMemory);
    }
    write_next(ring);
    Ok(())
}

/// A log behind number 255 in which records of these sectors, each so many times, have a sector each. All of it is on the disk.
pub(crate) fn ring_of(alloc: Global, records: &[(u64, u32)]) -> Result<Ring, NoMemory> {
    let mut ring = Ring::at(alloc, 255)?;
    for (sector, times) in records {
        log_times(alloc, &mut ring, Sector(*sector), *times)?;
    }
    Ok(ring)
}

fn log_times(alloc: Global, ring: &mut Ring, sector: Sector, times: u32) -> Result<(), NoMemory> {
    for _ in 0..times {
        log(alloc, ring, sector)?;
    }
    Ok(())
}
