// Which bytes of a sector count as changed even where they stay: the time of a file that is written or cut.
ghost use Rattle.std.specs.Prelude.{◌≡◌, ℕ, ◌&&◌, nat_le, nat_lt};
ghost use Rattle.std.specs.List.{list_any};
ghost use Rattle.disk_definitions.specs.Inodes.{is_time_place};
ghost use Rattle.disk_definitions.specs.Written as written;
ghost use Rattle.plan_steps.specs.Edits.{edit_of, edits_of};

use frang_base::Sector;
use frang_layout::{Region, sector_of};
use plan_steps::Edit;
use std::ops::Range;

/// The bytes of a sector that count as changed whatever they are: those of a file's time where an edit puts a dated inode there, else none.
pub(crate) fn forced_in(edits: &[Edit], sector: Sector) -> Range<usize>
    ensures { (at : ℕ) → (nat_le result.start at && nat_lt at result.end) ≡ written.forced_in (edits_of edits.now) sector.0 at }
{
    if is_dated(edits, sector) {
        time_places()
    } else {
        0..0
    }
}

// The bytes of an inode's sector that keep a file's time.
fn time_places() -> Range<usize>
    ensures { (at : ℕ) → (nat_le result.start at && nat_lt at result.end) ≡ is_time_place at }
{
    100..108
}

// Whether one of the edits puts an inode with its time into the sector.
fn is_dated(edits: &[Edit], sector: Sector) -> bool
    ensures { result ≡ list_any (written.dates sector.0) (edits_of edits.now) }
{
    for edit in edits {
        if dates(edit, sector) {
            return true;
        }
    }
    false
}

// Whether an edit puts an inode with its time into the sector.
fn dates(edit: &Edit, sector: Sector) -> bool
    ensures { result ≡ written.dates sector.0 (edit_of edit.now) }
{
    match edit {
        Edit::Inode { number, dated, .. } => *dated && sector == sector_of(&Region::Inode(*number)),
        _ => false,
    }
}
