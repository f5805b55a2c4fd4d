//! Which dirty sector may be written: log first. A sector that was changed in memory has as its mark the number of the last log
//! sector that names the change, and may be written once the log stands on the disk up to there. The contract promises the first
//! such sector of a list, and that there is none where it says none; over marks in order it is the sector with the least mark. It
//! stands on the base types and on sorted entries.
#![tactic(auto)]

ghost use Rattle.std.specs.Prelude.{◌≡◌, ◌↔◌, ◌<◌, None};
ghost use Rattle.std.specs.List.{All};
ghost use Rattle.flush_order.specs.Marks.{first_reached};

mod laws;

use frang_base::Sector;
pub use laws::the_first_in_order_is_the_least;
use std::cmp::Ordering;

/// A dirty sector, and the number of the log's last sector that must be acknowledged before it may be written.
#[derive(Clone, Copy, PartialEq, Eq)]
pub struct Mark {
    pub sector: Sector,
    pub mark: u64,
}

/// Marks ascend by their numbers, and those of one number by their sectors.
impl Ord for Mark {
    ghost use Rattle.std.proofs.Common.{rules};
    ghost use Rattle.std.specs.Cmp.Rules.{comparing};
    ghost use Rattle.flush_order.specs.Marks.{mark_cmp};

    ghost cmp = { mark_cmp };

    ghost total = { Prim.search (comparing, rules) };

    ghost matches_partial_cmp = { Prim.search (comparing, rules) };

    ghost matches_eq = { Prim.search (comparing, rules) };

    fn cmp(&self, other: &Mark) -> Ordering {
        self.mark
            .cmp(&other.mark)
            .then(self.sector.0.cmp(&other.sector.0))
    }
}

impl PartialOrd for Mark {
    ghost use Rattle.std.proofs.Common.{rules};
    ghost use Rattle.std.specs.Cmp.{partial_order_from_own_ties};
    ghost use Rattle.std.specs.Cmp.Rules.{comparing};
    ghost use Rattle.std.specs.Ordering.{as_partial_cmp};
    ghost use Rattle.flush_order.specs.Marks.{mark_cmp};

    ghost partial_cmp = { as_partial_cmp mark_cmp };

    ghost laws = { partial_order_from_own_ties (Prim.search (comparing, rules)) (Prim.search (comparing, rules)) };

    fn partial_cmp(&self, other: &Mark) -> Option<Ordering> {
        Some(self.cmp(other))
    }
}

/// The first of the dirty sectors that may be written, where the log is acknowledged up to the number `reached`: its mark is at
/// most that number. `None` exactly where there is none. It takes no memory.
pub fn may_go(dirty: &[Mark], reached: u64) -> Option<Sector>
    ensures first { result ≡ first_reached dirty.now reached }
    ensures none { (result ≡ None) ↔ All (λ mark. reached < mark.mark) dirty.now }
{
    let mark = dirty.iter().find(|mark| mark.mark <= reached)?;
    Some(mark.sector)
}
