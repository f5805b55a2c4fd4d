// Where a log ends, and its sectors up to there.
ghost use Rattle.std.specs.Prelude.{◌≡◌, ◌%◌, ◌<◌, ◌^◌, IfOk, length, nat_le};
ghost use Rattle.std.specs.List.{list_all};
ghost use Rattle.std.specs.Option.{option_copied};
ghost use Rattle.frang_base.specs.declared.limits.TheConstants.{LOG_SECTORS};
ghost use Rattle.log_reading.specs.Decoded as spec;
ghost use Rattle.log_reading.specs.Decoded.{end_of, is_full, numbers_of, sector_with};

use disk_definitions::LogSector;
use frang_base::NoMemory;
use frang_base::limits::{LOG_SECTORS, LOG_WINDOW};
use std::alloc::Global;

// The greatest number of which it and the 191 before it stand in their slots, 0 where there is none.
pub(crate) fn log_end(sectors: &[Option<LogSector>]) -> u64
    requires { length sectors.now ≡ LOG_SECTORS }
    ensures { result ≡ end_of sectors.now }
{
    let mut end = 0;
    for sector in sectors {
        if let Some(sector) = sector
            && is_full(sectors, sector.seq)
        {
            end = end.max(sector.seq);
        }
    }
    end
}

// The number and the 191 before it stand in their slots.
fn is_full(sectors: &[Option<LogSector>], end: u64) -> bool
    requires { length sectors.now ≡ LOG_SECTORS }
    ensures { result ≡ is_full sectors.now end }
{
    if end < LOG_WINDOW - 1 {
        return false;
    }
    for k in 0..LOG_WINDOW {
        if sector_numbered(sectors, end - (LOG_WINDOW - 1) + k).is_none() {
            return false;
        }
    }
    true
}

// No slot has a number above this one.
pub(crate) fn are_up_to(sectors: &[Option<LogSector>], end: u64) -> bool
    ensures { result ≡ list_all (λ n. nat_le n end) (numbers_of sectors.now) }
{
    for sector in sectors {
        if let Some(sector) = sector
            && sector.seq > end
        {
            return false;
        }
    }
    true
}

// The sectors of the 192 numbers up to an end, none where the end is 0.
pub(crate) fn sectors_up_to(
    alloc: Global,
    sectors: &[Option<LogSector>],
    end: u64,
) -> Result<Vec<LogSector>, NoMemory>
    requires { length sectors.now ≡ LOG_SECTORS }
    ensures { IfOk result (λ v. v.items ≡ spec.sectors_up_to sectors.now end) }
{
    let mut read = Vec::new(alloc);
    if end == 0 {
        return Ok(read);
    }
    for k in 0..LOG_WINDOW {
        if let Some(sector) = sector_numbered(sectors, end.saturating_sub(LOG_WINDOW - 1) + k) {
            read.push(*sector)?;
        }
    }
    Ok(read)
}

// The sector of this number, where it stands in its slot.
fn sector_numbered(sectors: &[Option<LogSector>], number: u64) -> Option<&LogSector>
    requires { length sectors.now ≡ LOG_SECTORS }
    ensures { option_copied result ≡ sector_with sectors.now number }
{
    match &sectors[(number % LOG_SECTORS) as usize] {
        Some(sector) if sector.seq == number => Some(sector),
        _ => None,
    }
}
