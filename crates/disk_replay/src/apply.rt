// The changes of records, laid over a disk.
ghost use Rattle.std.specs.Prelude.{◌≡◌, ◌≤◌, ◌∷◌, [], OnOk, true};
ghost use Rattle.std.specs.List.{All};
ghost use Rattle.frang_base.specs.declared.limits.TheConstants.{SEGMENTS_MAX};
ghost use Rattle.sector_bytes.specs.Changes.{is_change};
ghost use Rattle.sector_bytes.specs.Sectors.{sectors_of, SameSectors};
ghost use Rattle.disk_replay.specs.Laid.{changes_in, is_changed, with_changes, HoldsChanges};

use disk_definitions::Disk;
use frang_base::{Change, NoMemory, Redo, Sector};
use frang_layout::{Region, region_of};
use meta_version::{Applied, apply};

/// Lays the changes of records over the disk, in order. After `NoMemory` some of them were laid.
pub(crate) fn apply_records(
    disk: &mut Disk,
    segments: u32,
    records: &[Redo],
) -> Result<(), NoMemory>
    requires segments { segments ≤ SEGMENTS_MAX }
    requires changes { All HoldsChanges records.now }
    ensures { OnOk result (SameSectors (sectors_of disk.new) (with_changes segments (sectors_of disk.old) (changes_in records.now))) }
{
    for record in records {
        apply_changes(disk, segments, record.changes.as_slice())?;
    }
    Ok(())
}

// Lays changes over the disk, in order.
fn apply_changes(disk: &mut Disk, segments: u32, changes: &[Change]) -> Result<(), NoMemory>
    requires segments { segments ≤ SEGMENTS_MAX }
    requires changes { All (λ c. is_change c ≡ true) changes.now }
    ensures { OnOk result (SameSectors (sectors_of disk.new) (with_changes segments (sectors_of disk.old) changes.now)) }
{
    for change in changes {
        apply_change(disk, segments, change)?;
    }
    Ok(())
}

// Lays a change over the disk: over a sector that a replay changes, where it is older than the change.
fn apply_change(disk: &mut Disk, segments: u32, change: &Change) -> Result<(), NoMemory>
    requires segments { segments ≤ SEGMENTS_MAX }
    requires change { is_change change.now ≡ true }
    ensures { OnOk result (SameSectors (sectors_of disk.new) (with_changes segments (sectors_of disk.old) (change.now ∷ []))) }
{
    if !is_changed(segments, change.sector) {
        return Ok(());
    }
    let mut block = disk.get(change.sector);
    match apply(&mut block, change) {
        Applied::Applied => disk.set(change.sector, block),
        Applied::Skipped => Ok(()),
    }
}

/// Whether a replay changes the sector, on a disk of so many segments.
#[tactic(auto, unfolding(crate::specs::Laid::is_changed))]
pub(crate) fn is_changed(segments: u32, sector: Sector) -> bool
    requires { segments ≤ SEGMENTS_MAX }
    ensures { result ≡ is_changed segments sector.0 }
{
    matches!(
        region_of(sector, segments),
        Some(Region::Segment(_) | Region::Inode(_) | Region::Small { .. })
    )
}
