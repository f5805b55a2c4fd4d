// Laws of the cache's definitions.
ghost use Rattle.std.specs.Prelude.{◌≡◌, ◌↔◌, ℕ, None, Some, Ok, Err, Result, is_some, not, true, false};
ghost use Rattle.frang_base.specs.declared.lock.LockId.{LockId};
ghost use Rattle.frang_base.specs.declared.change.Change.{Change};
ghost use Rattle.sector_bytes.specs.Blocks.{Block};
ghost use Rattle.sector_bytes.specs.SectorMaps.{Ascend, value_at};
ghost use Rattle.sector_bytes.specs.Changes.{changed};
ghost use Rattle.cache_definitions.specs.Caches.{Cache, CachedSector, any_cached, dirty, dropped, is_dirty_under, is_under, with_change};
ghost use Rattle.clerk_cache.specs.Marks.{marks_of};

/// A cover is dropped only clean: nothing under the lock is dirty, the dirty sectors are the same before and after, none under the
/// lock is cached any more, and each sector under another lock is as it was.
pub fn covers_are_dropped_clean()
    ensures clean { (lock : LockId) (cache : Cache) → any_cached (is_dirty_under lock) cache ≡ false → (s : ℕ) (cached : CachedSector) → value_at cache s ≡ Some cached → is_under lock cached ≡ true → cached.dirt ≡ None }
    ensures marks { (lock : LockId) (cache : Cache) → any_cached (is_dirty_under lock) cache ≡ false → marks_of (dropped cache lock) ≡ marks_of cache }
    ensures gone { (lock : LockId) (cache : Cache) → Ascend cache → (s : ℕ) (cached : CachedSector) → value_at cache s ≡ Some cached → is_under lock cached ≡ true → value_at (dropped cache lock) s ≡ None }
    ensures others { (lock : LockId) (cache : Cache) → (s : ℕ) (cached : CachedSector) → value_at cache s ≡ Some cached → is_under lock cached ≡ false → value_at (dropped cache lock) s ≡ Some cached }
{}

/// After a change its sector is dirty metadata with the change's mark and under its lock, and holds the changed block.
pub fn a_change_leaves_its_sector_dirty()
    ensures { (cache : Cache) (change : Change) (mark : ℕ) (cover : LockId) (cached : CachedSector) → value_at cache change.sector.0 ≡ Some cached → value_at (with_change cache change mark cover) change.sector.0 ≡ Some (dirty (changed cached.block change) cover mark false) }
{}
