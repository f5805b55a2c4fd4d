// Marks in order of the locks that cover their sectors.
ghost use Rattle.std.specs.Prelude.{◌≡◌, Some, None, if◌then◌else◌};
ghost use Rattle.std.proofs.Common.{rules};
ghost use Rattle.std.specs.Cmp.{eq_by_cmp_equiv, partial_equiv_from_equiv, partial_order_from_total};
ghost use Rattle.std.specs.Cmp.Rules.{comparing};
ghost use Rattle.std.specs.Ordering.{as_partial_cmp, eq_by_cmp};
ghost use Rattle.lock_definitions.specs.Order.{is_lock, lock_cmp};
ghost use Rattle.flush_order.specs.Marks.{mark_cmp};
ghost use Rattle.clerk_cache.specs.CoveredMarks.{covered_mark_cmp, covered_mark_total, first_mark_of};

use flush_order::Mark;
use frang_base::{LockId, Sector};
use ordered_map::OrderedMap;
use std::cmp::Ordering;

/// The mark of a sector with the lock that covers it. They ascend by their locks, and those of one lock by their marks.
#[derive(Clone, Copy)]
pub(crate) struct CoveredMark {
    pub(crate) cover: LockId,
    pub(crate) mark: Mark,
}

// The order of locks.
fn compare_locks(a: &LockId, b: &LockId) -> Ordering
    ensures { result ≡ lock_cmp a.now b.now }
{
    a.cmp(b)
}

// The order of marks.
fn compare_marks(a: &Mark, b: &Mark) -> Ordering
    ensures { result ≡ mark_cmp a.now b.now }
{
    a.cmp(b)
}

// The order in which they lie.
fn compare(a: &CoveredMark, b: &CoveredMark) -> Ordering
    ensures { result ≡ covered_mark_cmp a.now b.now }
{
    compare_locks(&a.cover, &b.cover).then(compare_marks(&a.mark, &b.mark))
}

impl PartialEq for CoveredMark {
    ghost eq = { eq_by_cmp covered_mark_cmp };

    ghost laws = { partial_equiv_from_equiv (eq_by_cmp_equiv covered_mark_total) };

    fn eq(&self, other: &CoveredMark) -> bool {
        compare(self, other).is_eq()
    }
}

impl Eq for CoveredMark {
    ghost laws = { eq_by_cmp_equiv covered_mark_total };
}

impl PartialOrd for CoveredMark {
    ghost partial_cmp = { as_partial_cmp covered_mark_cmp };

    ghost laws = { partial_order_from_total covered_mark_total };

    fn partial_cmp(&self, other: &CoveredMark) -> Option<Ordering> {
        Some(compare(self, other))
    }
}

impl Ord for CoveredMark {
    ghost cmp = { covered_mark_cmp };

    ghost total = { covered_mark_total };

    ghost matches_partial_cmp = { Prim.search (comparing, rules) };

    ghost matches_eq = { Prim.search (comparing, rules) };

    fn cmp(&self, other: &CoveredMark) -> Ordering {
        compare(self, other)
    }
}

/// The first mark under a lock.
pub(crate) fn first_mark_of(marks: &OrderedMap<CoveredMark, ()>, lock: LockId) -> Option<Mark>
    ensures { result ≡ first_mark_of lock marks.now.entries }
{
    let from = CoveredMark {
        cover: lock,
        mark: Mark {
            sector: Sector(0),
            mark: 0,
        },
    };
    match marks.first_from(&from) {
        Some(entry) => mark_under(entry.0, lock),
        None => None,
    }
}

// It is under this lock.
fn is_under(covered: CoveredMark, lock: LockId) -> bool
    ensures { result ≡ is_lock lock covered.cover }
{
    compare_locks(&lock, &covered.cover).is_eq()
}

// The mark, where it is under this lock.
fn mark_under(covered: CoveredMark, lock: LockId) -> Option<Mark>
    ensures { result ≡ (if is_lock lock covered.cover then Some covered.mark else None) }
{
    if is_under(covered, lock) {
        Some(covered.mark)
    } else {
        None
    }
}
