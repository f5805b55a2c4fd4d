// A log, from its sectors.
ghost use Rattle.std.specs.Prelude.{◌≡◌, IfOk, length, slice_index_or, []};
ghost use Rattle.frang_base.specs.declared.limits.TheConstants.{LOG_SECTORS};
ghost use Rattle.disk_definitions.specs.Logs as logs;
ghost use Rattle.log_reading.specs.Decoded.{decoded};

use crate::end::{are_up_to, log_end, sectors_up_to};
use crate::records::records_among;
use disk_definitions::LogSector;
use frang_base::limits::LOG_SECTORS;
use frang_base::{Block, NoMemory, Redo};
use log_record::sector_read;
use std::alloc::Global;

/// The end of a log and its records in order, by the blocks of its 256 slots. The end is the greatest number of which it and the 191
/// before it stand in their slots, 0 where there is none. The records are those that stand whole in these 192 numbers,
/// in sectors of their own or packed.
pub fn read_log(alloc: Global, slots: &[Block]) -> Result<(u64, Vec<Redo>), NoMemory>
    requires { length slots.now ≡ LOG_SECTORS }
    ensures end { IfOk result (λ r. r.0 ≡ logs.log_end (λ slot. slice_index_or slots.now slot [])) }
    ensures records { IfOk result (λ r. r.1.items ≡ logs.log_records (λ slot. slice_index_or slots.now slot [])) }
{
    let sectors = sectors_of(alloc, slots)?;
    let end = log_end(&sectors);
    let read = sectors_up_to(alloc, &sectors, end)?;
    let records = records_among(alloc, &read)?;
    Ok((end, records))
}

/// Whether a log is sealed, by the blocks of its 256 slots: no slot has a number above the log's end. It takes memory for what stands in
/// the slots, and reads each once.
pub fn is_sealed(alloc: Global, slots: &[Block]) -> Result<bool, NoMemory>
    requires { length slots.now ≡ LOG_SECTORS }
    ensures { IfOk result (λ sealed. sealed ≡ logs.is_sealed (λ slot. slice_index_or slots.now slot [])) }
{
    let sectors = sectors_of(alloc, slots)?;
    let end = log_end(&sectors);
    Ok(are_up_to(&sectors, end))
}

// What stands in each slot.
fn sectors_of(alloc: Global, slots: &[Block]) -> Result<Vec<Option<LogSector>>, NoMemory>
    requires { length slots.now ≡ LOG_SECTORS }
    ensures all { IfOk result (λ v. v.items ≡ decoded (λ slot. slice_index_or slots.now slot [])) }
    ensures len { IfOk result (λ v. length v.items ≡ LOG_SECTORS) }
{
    let mut sectors = Vec::new(alloc);
    for slot in 0..LOG_SECTORS as usize {
        sectors.push(sector_read(&slots[slot], slot as u8))?;
    }
    Ok(sectors)
}
