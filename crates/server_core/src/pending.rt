// The sectors of cleared blocks whose zeros aren't acknowledged.
ghost use Rattle.std.specs.Prelude.{◌≡◌, ◌+◌, ◌≤◌, ◌++◌, length};
ghost use Rattle.std.specs.Map.{keys_of};
ghost use Rattle.cache_definitions.specs.Flags.{but};
ghost use Rattle.clerk_cache.specs.Dropping.{numbers_of};
ghost use Rattle.disk_definitions.specs.Written.{ascending};

use frang_base::Sector;
use ordered_map::OrderedMap;

/// A sector isn't among them any more.
pub(crate) fn take_out(pending: &mut OrderedMap<u64, ()>, sector: Sector)
    ensures sectors { keys_of pending.new.entries ≡ but sector.0 (keys_of pending.old.entries) }
    ensures spare { pending.old.spare ≤ pending.new.spare }
{
    // Each stands among them once at most.
    let _count = pending.count();
    pending.remove(&sector.0);
}

/// These sectors are among them from now on. There is room for them.
pub(crate) fn put_in(pending: &mut OrderedMap<u64, ()>, sectors: &[Sector])
    requires { length sectors.now ≤ pending.old.spare }
    ensures sectors { keys_of pending.new.entries ≡ ascending (keys_of pending.old.entries ++ numbers_of sectors.now) }
    ensures spare { pending.old.spare ≤ pending.new.spare + length sectors.now }
{
    let _count = pending.count();
    for sector in sectors {
        pending.put(sector.0, ());
    }
}
