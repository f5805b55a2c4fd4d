// What records make of one sector, and which sectors a replay may change.
ghost use Rattle.std.specs.Prelude.{◌≡◌, ◌≤◌, true, IfSome};
ghost use Rattle.std.specs.List.{All};
ghost use Rattle.std.specs.Option.{option_copied};
ghost use Rattle.frang_base.specs.declared.limits.TheConstants.{SEGMENTS_MAX};
ghost use Rattle.sector_bytes.specs.Changes.{is_change};
ghost use Rattle.sector_bytes.specs.Replays as replays;
ghost use Rattle.sector_bytes.specs.Replays.{redone};
ghost use Rattle.disk_definitions.specs.Regions as regions;
ghost use Rattle.disk_definitions.specs.Replay.{is_replayed};
ghost use Rattle.disk_definitions.specs.ReplayedBlocks.{replayed_block};
ghost use Rattle.disk_replay.specs.Laid.{HoldsChanges};

use crate::apply::is_changed;
use frang_base::{Block, Change, Redo, Sector};
use meta_version::apply;

/// Whether a replay may change the sector, on a disk of so many segments: it is one of an inode, a segment of the bitmap or a small block.
#[tactic(auto, unfolding(crate::specs::Laid::is_changed))]
pub fn is_replayed(segments: u32, sector: Sector) -> bool
    requires { segments ≤ SEGMENTS_MAX }
    ensures { result ≡ is_replayed (regions.region_of segments sector.0) }
{
    is_changed(segments, sector)
}

/// A sector's block once the records are replayed, in order: each record's change of the sector is made where the block is older. Whether a
/// replay may change the sector isn't asked. It takes no memory, and time in the number of the records and of their changes.
pub fn replayed_block(records: &[Redo], sector: Sector, block: &Block) -> Block
    requires { All HoldsChanges records.now }
    ensures { result ≡ replayed_block records.now sector.0 block.now }
{
    let mut block = *block;
    for record in records {
        redo_one(record, sector, &mut block);
    }
    block
}

// Makes a record's change of the sector, if there is one, where the block is older.
fn redo_one(redo: &Redo, sector: Sector, block: &mut Block)
    requires { HoldsChanges redo.now }
    ensures { block.new ≡ redone (replays.change_at redo.now.changes sector.0) block.old }
{
    if let Some(change) = change_at(redo.changes.as_slice(), sector) {
        let _ = apply(block, change);
    }
}

// The change of the sector among changes.
fn change_at(changes: &[Change], sector: Sector) -> Option<&Change>
    requires { All (λ c. is_change c ≡ true) changes.now }
    ensures change { option_copied result ≡ replays.change_at changes.now sector.0 }
    ensures well_formed { IfSome result (λ change. is_change change.now ≡ true) }
{
    for change in changes {
        if change.sector.0 == sector.0 {
            return Some(change);
        }
    }
    None
}
