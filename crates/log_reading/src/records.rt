// The records among sectors.
ghost use Rattle.std.specs.Prelude.{◌≡◌, ◌++◌, IfOk, OnOk, length, take};
ghost use Rattle.disk_definitions.specs.Logs as logs;

use crate::frames::{push_frames, push_some};
use disk_definitions::LogSector;
use frang_base::{NoMemory, OpNo, Redo};
use log_record::decode;
use std::alloc::Global;

/// The greatest operation among records, 0 where there is none.
pub fn greatest_operation(records: &[Redo]) -> OpNo
    ensures { result.0 ≡ logs.greatest_operation records.now }
{
    let mut greatest = 0;
    for record in records {
        greatest = greatest.max(record.op.0);
    }
    OpNo(greatest)
}

/// The records that stand whole among sectors, in the order of the places where they begin.
pub(crate) fn records_among(alloc: Global, sectors: &[LogSector]) -> Result<Vec<Redo>, NoMemory>
    ensures { IfOk result (λ v. v.items ≡ logs.records_among sectors.now) }
{
    let mut records = Vec::new(alloc);
    for at in 0..sectors.len() {
        push_records(alloc, &mut records, &sectors[at..])?;
    }
    Ok(records)
}

// Adds the records that begin in the first of the sectors.
fn push_records(
    alloc: Global,
    records: &mut Vec<Redo>,
    sectors: &[LogSector],
) -> Result<(), NoMemory>
    ensures { OnOk result (records.new.items ≡ records.old.items ++ logs.records_at sectors.now) }
{
    let Some(first) = sectors.first() else {
        return Ok(());
    };
    if first.parts == LogSector::PACKED {
        push_frames(alloc, records, first, &sectors[1..])?;
        return Ok(());
    }
    push_some(records, record_at(alloc, sectors)?)?;
    Ok(())
}

// The record with sectors of its own that begins at the first of these. `None` exactly where none does, or it doesn't stand whole among them.
fn record_at(alloc: Global, sectors: &[LogSector]) -> Result<Option<Redo>, NoMemory>
    ensures { IfOk result (λ r. r ≡ logs.record_at sectors.now) }
{
    let Some(first) = sectors.first() else {
        return Ok(None);
    };
    let count = usize::from(first.parts);
    if first.part != 0 || count == 0 || sectors.len() < count {
        return Ok(None);
    }
    record_of(alloc, first, &sectors[..count])
}

// The record of these sectors, where they are its parts and their bytes are the body of one.
fn record_of(
    alloc: Global,
    first: &LogSector,
    parts: &[LogSector],
) -> Result<Option<Redo>, NoMemory>
    requires { length parts.now ≡ first.now.parts }
    ensures { IfOk result (λ r. r ≡ logs.record_of first.now parts.now) }
{
    if !are_parts(first, parts) {
        return Ok(None);
    }
    let body = used_bytes(alloc, parts)?;
    let Some(record) = decode(alloc, &body)? else {
        return Ok(None);
    };
    Ok(Some(Redo {
        op: first.op,
        changes: record.changes,
    }))
}

// The sectors are the parts of a record, in order.
fn are_parts(first: &LogSector, parts: &[LogSector]) -> bool
    ensures { result ≡ logs.are_parts first.now 0 parts.now }
{
    let mut part = 0;
    for sector in parts {
        if !is_part(first, part, sector) {
            return false;
        }
        part += 1;
    }
    true
}

fn is_part(first: &LogSector, part: usize, sector: &LogSector) -> bool
    ensures { result ≡ logs.is_part first.now part sector.now }
{
    sector.op.0 == first.op.0 && sector.parts == first.parts && usize::from(sector.part) == part
}

// The bytes that the sectors use of their bodies.
fn used_bytes(alloc: Global, sectors: &[LogSector]) -> Result<Vec<u8>, NoMemory>
    ensures { IfOk result (λ v. v.items ≡ logs.used_bytes sectors.now) }
{
    let mut bytes = Vec::new(alloc);
    for sector in sectors {
        bytes.extend_from_slice(used(sector))?;
    }
    Ok(bytes)
}

/// The bytes that a sector uses of its body.
pub(crate) fn used(sector: &LogSector) -> &[u8]
    ensures { result.now ≡ take sector.now.used sector.now.body }
{
    let used = usize::from(sector.used).min(sector.body.len());
    &sector.body[..used]
}
