// What a commit makes of a cache.
ghost use Rattle.std.specs.Prelude.{◌≡◌, ◌≤◌, ◌+◌, true, fold, length, map};
ghost use Rattle.sector_bytes.specs.Changes.{is_change};
ghost use Rattle.sector_bytes.specs.SectorMaps.{Ascend};
ghost use Rattle.meta_version.specs.Updates.{IsOlder};
ghost use Rattle.cache_definitions.specs.Caches.{block_at, each_cached, with_cover};
ghost use Rattle.cache_definitions.specs.Flags.{but_all};
ghost use Rattle.cache_laws.specs.Steps.{with_changes, with_covers, with_own};
ghost use Rattle.clerk_cache.specs.Dropping.{numbers_of};
ghost use Rattle.core_definitions.specs.LineEffects.{cache_after, with_bytes};
ghost use Rattle.core_definitions.specs.Plans as core;
ghost use Rattle.server_core.specs.Outcomes.{IsOutcome, MayLay, bytes_of, changed_sector, changes_of, moves_of};

use crate::outcome::{BytesSet, Outcome};
use cache_laws::{changes_lie_sector_by_sector, covers_move_sector_by_sector};
use clerk_cache::Cache;
use frang_base::{Change, LockId, Redo, Sector};

// A sector comes under another lock, where it is cached.
fn move_cover(cache: &mut Cache, sector: Sector, cover: LockId)
    ensures entries { cache.new.entries ≡ with_cover cache.old.entries sector.0 cover }
    ensures staying { cache.new.staying ≡ cache.old.staying }
    ensures flying { cache.new.flying ≡ cache.old.flying }
    ensures spare { cache.new.spare ≡ cache.old.spare }
{
    match cache.cover(sector) {
        Some(_) => cache.move_cover(sector, cover),
        None => {}
    }
}

// Sectors come under other locks, one after another.
fn move_covers(cache: &mut Cache, moves: &[(Sector, LockId)])
    ensures entries { cache.new.entries ≡ with_covers cache.old.entries (moves_of moves.now) }
    ensures staying { cache.new.staying ≡ cache.old.staying }
    ensures flying { cache.new.flying ≡ cache.old.flying }
    ensures spare { cache.new.spare ≡ cache.old.spare }
{
    for entry in moves {
        move_cover(cache, entry.0, entry.1);
    }
}

// A change is laid over its sector, under the lock that covers it.
fn lay_change(cache: &mut Cache, change: &Change, mark: u64)
    requires well_formed { is_change change.now ≡ true }
    requires older { IsOlder (block_at cache.old.entries change.now.sector.0) change.now }
    ensures entries { cache.new.entries ≡ with_own mark cache.old.entries change.now }
    ensures staying { cache.new.staying ≡ cache.old.staying }
    ensures flying { cache.new.flying ≡ cache.old.flying }
    ensures spare { cache.new.spare ≡ cache.old.spare }
{
    match cache.cover(change.sector) {
        Some(cover) => cache.change(change, mark, cover),
        None => unreachable!(),
    }
}

// Changes of sectors apart are laid over their sectors, one after another.
fn lay_changes(cache: &mut Cache, changes: &[Change], mark: u64)
    requires { MayLay cache.old.entries changes.now }
    ensures entries { cache.new.entries ≡ with_changes mark cache.old.entries changes.now }
    ensures staying { cache.new.staying ≡ cache.old.staying }
    ensures flying { cache.new.flying ≡ cache.old.flying }
    ensures spare { cache.new.spare ≡ cache.old.spare }
{
    for change in changes {
        lay_change(cache, change, mark);
    }
}

// The changes of a record, none where there is no record.
fn changes_of(redo: &Option<Redo>) -> &[Change]
    ensures { result.now ≡ changes_of redo.now }
{
    match redo {
        Some(redo) => redo.changes.as_slice(),
        None => &[],
    }
}

// Sectors come under other locks, and then changes are laid over their sectors.
fn change_sectors(cache: &mut Cache, moves: &[(Sector, LockId)], changes: &[Change], mark: u64)
    requires { MayLay cache.old.entries changes.now }
    ensures entries { cache.new.entries ≡ each_cached (changed_sector mark changes.now (moves_of moves.now)) cache.old.entries }
    ensures ordered { Ascend cache.old.entries }
    ensures staying { cache.new.staying ≡ cache.old.staying }
    ensures flying { cache.new.flying ≡ cache.old.flying }
    ensures spare { cache.new.spare ≡ cache.old.spare }
{
    covers_move_sector_by_sector();
    changes_lie_sector_by_sector();
    // The sectors ascend, as each look at one says.
    let _cover = cache.cover(Sector(0));
    move_covers(cache, moves);
    lay_changes(cache, changes, mark);
}

// Sectors of file bytes are set. There is room for them.
fn set_bytes(cache: &mut Cache, bytes: &[BytesSet], mark: u64)
    requires { length bytes.now ≤ cache.old.spare }
    ensures entries { cache.new.entries ≡ fold (with_bytes mark) cache.old.entries (map bytes_of bytes.now) }
    ensures staying { cache.new.staying ≡ cache.old.staying }
    ensures flying { cache.new.flying ≡ cache.old.flying }
    ensures spare { cache.old.spare ≤ cache.new.spare + length bytes.now }
{
    for set in bytes {
        cache.set_bytes(set.sector, set.block, mark, set.cover);
    }
}

/// What a commit with this mark makes of a cache.
pub(crate) fn commit_cache(cache: &mut Cache, outcome: &Outcome, mark: u64)
    requires changes { MayLay cache.old.entries (changes_of outcome.now.redo) }
    requires bytes { length outcome.now.bytes.items ≤ cache.old.spare }
    ensures entries { (of_core : core.Outcome) → IsOutcome cache.old.entries outcome.now of_core → cache.new.entries ≡ cache_after mark of_core cache.old.entries }
    ensures staying { cache.new.staying ≡ but_all (numbers_of outcome.now.freed) cache.old.staying }
    ensures flying { cache.new.flying ≡ but_all (numbers_of outcome.now.freed) cache.old.flying }
    ensures spare { cache.old.spare ≤ cache.new.spare + length outcome.now.bytes.items }
{
    change_sectors(cache, &outcome.moves, changes_of(&outcome.redo), mark);
    set_bytes(cache, &outcome.bytes, mark);
    cache.forget_all(outcome.freed.as_slice());
}
