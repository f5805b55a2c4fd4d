// Sectors in order of the locks that cover them.
ghost use Rattle.std.specs.Prelude.{◌≡◌, Some, None, if◌then◌else◌};
ghost use Rattle.std.proofs.Common.{rules};
ghost use Rattle.std.specs.Cmp.{eq_by_cmp_equiv, partial_equiv_from_equiv, partial_order_from_total};
ghost use Rattle.std.specs.Cmp.Rules.{comparing};
ghost use Rattle.std.specs.Ordering.{as_partial_cmp, eq_by_cmp};
ghost use Rattle.lock_definitions.specs.Order.{is_lock, lock_cmp};
ghost use Rattle.clerk_cache.specs.Covers.{cover_cmp, cover_total, first_of};

use frang_base::LockId;
use ordered_map::{OrderedMap, Place};
use std::cmp::Ordering;

/// A sector with the lock that covers it. They ascend by their locks, and those of one lock by their sectors.
#[derive(Clone, Copy)]
pub(crate) struct Covered {
    pub(crate) cover: LockId,
    pub(crate) sector: u64,
}

// The order of locks.
fn compare_locks(a: &LockId, b: &LockId) -> Ordering
    ensures { result ≡ lock_cmp a.now b.now }
{
    a.cmp(b)
}

// The order in which they lie.
fn compare(a: &Covered, b: &Covered) -> Ordering
    ensures { result ≡ cover_cmp a.now b.now }
{
    compare_locks(&a.cover, &b.cover).then(a.sector.cmp(&b.sector))
}

impl PartialEq for Covered {
    ghost eq = { eq_by_cmp cover_cmp };

    ghost laws = { partial_equiv_from_equiv (eq_by_cmp_equiv cover_total) };

    fn eq(&self, other: &Covered) -> bool {
        compare(self, other).is_eq()
    }
}

impl Eq for Covered {
    ghost laws = { eq_by_cmp_equiv cover_total };
}

impl PartialOrd for Covered {
    ghost partial_cmp = { as_partial_cmp cover_cmp };

    ghost laws = { partial_order_from_total cover_total };

    fn partial_cmp(&self, other: &Covered) -> Option<Ordering> {
        Some(compare(self, other))
    }
}

impl Ord for Covered {
    ghost cmp = { cover_cmp };

    ghost total = { cover_total };

    ghost matches_partial_cmp = { Prim.search (comparing, rules) };

    ghost matches_eq = { Prim.search (comparing, rules) };

    fn cmp(&self, other: &Covered) -> Ordering {
        compare(self, other)
    }
}

/// The first sector under a lock, which is looked for from a place on first.
pub(crate) fn first_of(
    covered: &OrderedMap<Covered, ()>,
    near: Option<Place>,
    lock: LockId,
) -> Option<u64>
    ensures { result ≡ first_of lock covered.now.entries }
{
    let from = Covered {
        cover: lock,
        sector: 0,
    };
    match covered.first_from_near(near, &from) {
        Some(entry) => sector_under(entry.0, lock),
        None => None,
    }
}

// The sector is under this lock.
fn is_under(covered: Covered, lock: LockId) -> bool
    ensures { result ≡ is_lock lock covered.cover }
{
    compare_locks(&lock, &covered.cover).is_eq()
}

// The sector, where it is under this lock.
fn sector_under(covered: Covered, lock: LockId) -> Option<u64>
    ensures { result ≡ (if is_lock lock covered.cover then Some covered.sector else None) }
{
    if is_under(covered, lock) {
        Some(covered.sector)
    } else {
        None
    }
}
