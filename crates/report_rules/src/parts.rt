// The rules of the parts of small blocks that directories have which are reached.
ghost use Rattle.std.specs.Prelude.{◌≡◌, ◌≤◌, ◌<◌, ◌+◌, ◌*◌, ◌||◌, not, is_some};
ghost use Rattle.std.specs.Option.{option_map};
ghost use Rattle.sector_bytes.specs.Sectors.{sectors_of};
ghost use Rattle.disk_definitions.specs.declared.region.Region.TheVariants as region;
ghost use Rattle.disk_definitions.specs.Regions.{sector_of};
ghost use Rattle.disk_definitions.specs.Directories.{directory_in};
ghost use Rattle.disk_definitions.specs.Store.{entered};
ghost use Rattle.standing_laws.specs.Below.{all_below};
ghost use Rattle.disk_reading.specs.Marks.{flag_at};
ghost use Rattle.disk_reading.specs.Seen.{store_in};
ghost use Rattle.report_definitions.specs.Rules as rules;
ghost use Rattle.report_rules.specs.Seen.{stored, view_in};
ghost use Rattle.report_rules.specs.Tables.{AreTables};

use crate::tables::Tables;
use disk_definitions::DirEntry;
use disk_reading::DecodedDisk;
use disk_reading::sectors::{directory_at, entry_at, has_kind};
use frang_base::limits::{SECTOR_ENTRIES, SEGMENT_BLOCKS, SEGMENTS_MAX, SMALL_BLOCK_SECTORS};

// Whether a part is in the grammar of directories, where a directory that is reached has it.
fn reads_well(disk: &DecodedDisk<'_>, owned: bool, block: u32, part: u8) -> bool
    ensures { result ≡ (not owned || is_some (directory_in (sectors_of disk.now (sector_of (region.Small block part))))) }
{
    !owned || directory_at(disk, block, part).is_some()
}

/// Whether a part is in the grammar of directories, and no name in it stands before, wherever a directory that is reached has it.
pub fn is_sector_fine(
    disk: &DecodedDisk<'_>,
    most: u64,
    segments: u32,
    tables: &Tables,
    block: u32,
    part: u8,
) -> bool
    requires few { segments ≤ SEGMENTS_MAX }
    requires tables { AreTables segments (store_in segments disk.now) tables.now }
    requires within { block < SEGMENT_BLOCKS * segments }
    requires part { part < SMALL_BLOCK_SECTORS }
    ensures { result ≡ rules.is_sector_fine (view_in most segments disk.now) (flag_at tables.now.reached) block part }
{
    let place = SMALL_BLOCK_SECTORS * block + u32::from(part);
    let owned = tables.directories.has(block as usize);
    reads_well(disk, owned, block, part) && !tables.repeats.has(place as usize)
}

// Whether an entry names an inode in use of its kind.
fn names_well(disk: &DecodedDisk<'_>, segments: u32, entry: Option<DirEntry>) -> bool
    requires { segments ≤ SEGMENTS_MAX }
    ensures { result ≡ rules.names_well (store_in segments disk.now) (option_map entered entry) }
{
    match entry {
        Some(entry) => has_kind(disk, segments, entry.inode, entry.kind),
        None => true,
    }
}

// Whether each entry of a part does.
#[tactic(auto, using(standing_laws::proofs::Bounded::all_more))]
fn all_name_well(disk: &DecodedDisk<'_>, segments: u32, block: u32, part: u8) -> bool
    requires few { segments ≤ SEGMENTS_MAX }
    requires part { part < SMALL_BLOCK_SECTORS }
    ensures { result ≡ all_below SECTOR_ENTRIES (λ t. rules.names_well (store_in segments disk.now) ((store_in segments disk.now).place block (SECTOR_ENTRIES * part + t))) }
{
    let mut all = true;
    for t in 0..SECTOR_ENTRIES {
        let entry = entry_at(disk, segments, block, SECTOR_ENTRIES * u32::from(part) + t);
        all = all && names_well(disk, segments, entry);
    }
    all
}

// Whether each entry of a part does, where a directory that is reached has it.
fn names_fine(disk: &DecodedDisk<'_>, segments: u32, owned: bool, block: u32, part: u8) -> bool
    requires few { segments ≤ SEGMENTS_MAX }
    requires part { part < SMALL_BLOCK_SECTORS }
    ensures { result ≡ (not owned || all_below SECTOR_ENTRIES (λ t. rules.names_well (store_in segments disk.now) ((store_in segments disk.now).place block (SECTOR_ENTRIES * part + t)))) }
{
    !owned || all_name_well(disk, segments, block, part)
}

/// Whether each entry of a part names an inode in use of its kind, wherever a directory that is reached has the part.
pub fn are_entries_fine(
    disk: &DecodedDisk<'_>,
    segments: u32,
    tables: &Tables,
    block: u32,
    part: u8,
) -> bool
    requires few { segments ≤ SEGMENTS_MAX }
    requires tables { AreTables segments (store_in segments disk.now) tables.now }
    requires within { block < SEGMENT_BLOCKS * segments }
    requires part { part < SMALL_BLOCK_SECTORS }
    ensures { result ≡ rules.are_entries_fine (stored segments (store_in segments disk.now)) (flag_at tables.now.reached) block part }
{
    let owned = tables.directories.has(block as usize);
    names_fine(disk, segments, owned, block, part)
}
