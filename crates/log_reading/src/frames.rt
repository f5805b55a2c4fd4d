// The records of the frames in packed sectors.
ghost use Rattle.std.specs.Prelude.{◌≡◌, ◌++◌, [], IfOk, OnOk, length, take};
ghost use Rattle.std.specs.List.{cons_option};
ghost use Rattle.disk_definitions.specs.Frames as spec;
ghost use Rattle.disk_definitions.specs.Frames.{frame_most, frames_among};
ghost use Rattle.disk_definitions.specs.Logs as logs;

use crate::records::used;
use disk_definitions::LogSector;
use frang_base::{NoMemory, Redo};
use log_record::{FRAME_BYTES_MAX, FRAME_HEAD, Frame, decode, read_frame};
use std::alloc::Global;

/// Adds the records of the frames that begin in a packed sector, in order. These sectors follow it.
pub(crate) fn push_frames(
    alloc: Global,
    records: &mut Vec<Redo>,
    first: &LogSector,
    rest: &[LogSector],
) -> Result<(), NoMemory>
    ensures { OnOk result (records.new.items ≡ records.old.items ++ logs.frames_of first.now rest.now) }
{
    let begun = bytes_begun(first);
    if begun.is_empty() {
        return Ok(());
    }
    let mut bytes = Vec::new(alloc);
    bytes.extend_from_slice(begun)?;
    push_bytes_on(&mut bytes, rest)?;
    push_framed(alloc, records, &bytes, begun.len())?;
    Ok(())
}

// The bytes that the sector uses, from the first frame on that begins in it.
fn bytes_begun(sector: &LogSector) -> &[u8]
    ensures { result.now ≡ logs.bytes_begun sector.now }
{
    let used = used(sector);
    &used[usize::from(sector.part).min(used.len())..]
}

// The frame that runs on at the end of the sector before goes on in this one.
fn goes_on(sector: &LogSector) -> bool
    ensures { result ≡ logs.goes_on sector.now }
{
    sector.parts == LogSector::PACKED && sector.part != 0
}

// Adds the bytes that follow those of a packed sector, as many as a frame may have.
fn push_bytes_on(bytes: &mut Vec<u8>, sectors: &[LogSector]) -> Result<(), NoMemory>
    ensures { OnOk result (bytes.new.items ≡ bytes.old.items ++ take frame_most (logs.bytes_on sectors.now)) }
{
    let mut left = FRAME_BYTES_MAX;
    for sector in sectors {
        if left == 0 || !goes_on(sector) {
            return Ok(());
        }
        let run = used(sector);
        let run = &run[..run.len().min(left)];
        bytes.extend_from_slice(run)?;
        left -= run.len();
    }
    Ok(())
}

// Adds the records of the frames that begin among the first bytes, so many.
fn push_framed(
    alloc: Global,
    records: &mut Vec<Redo>,
    bytes: &[u8],
    left: usize,
) -> Result<(), NoMemory>
    ensures { OnOk result (records.new.items ≡ records.old.items ++ frames_among left left bytes.now) }
{
    let mut left = left;
    let mut bytes = bytes;
    while left > 0 {
        let Some(frame) = read_frame(bytes) else {
            return Ok(());
        };
        push_some(records, framed_record(alloc, &frame)?)?;
        left = left
            .saturating_sub(FRAME_HEAD)
            .saturating_sub(frame.body.len());
        bytes = frame.rest;
    }
    Ok(())
}

/// Adds a record, if there is one.
pub(crate) fn push_some(records: &mut Vec<Redo>, found: Option<Redo>) -> Result<(), NoMemory>
    ensures { OnOk result (records.new.items ≡ records.old.items ++ cons_option found []) }
{
    match found {
        Some(record) => {
            records.push(record)?;
            Ok(())
        }
        None => Ok(()),
    }
}

// The record of a frame, where its body is that of one.
fn framed_record(alloc: Global, frame: &Frame) -> Result<Option<Redo>, NoMemory>
    ensures { IfOk result (λ r. r ≡ spec.framed_record (frame.now.op.0, frame.now.body.now)) }
{
    let Some(record) = decode(alloc, frame.body)? else {
        return Ok(None);
    };
    Ok(Some(Redo {
        op: frame.op,
        changes: record.changes,
    }))
}
