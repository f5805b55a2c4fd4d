// The counts of faults of the parties.
ghost use Rattle.std.specs.Prelude.{◌≡◌, ◌≤◌, ℕ, slice_index};
ghost use Rattle.frang_outside.specs.FaultyOutside.{with_fault};
ghost use Rattle.frang_outside.specs.Outside.{Rose};

use frang_base::ServerId;

/// No party has a fault.
pub(crate) fn no_faults() -> [u64; 256]
    ensures { (party : ℕ) → slice_index result party ≡ 0 }
{
    [0; 256]
}

/// One fault more of a party. A count stands still at its type's end.
pub(crate) fn count_fault(faults: &mut [u64; 256], party: ServerId)
    ensures counted { faults.new ≡ with_fault faults.old party.0 }
    ensures rose { Rose (slice_index faults.old party.0) (slice_index faults.new party.0) }
    ensures rises { (other : ℕ) → slice_index faults.old other ≤ slice_index faults.new other }
    ensures others { (other : ℕ) → (other ≡ party.0 → ⊥)
        → slice_index faults.new other ≡ slice_index faults.old other }
{
    let party = party.0 as usize;
    faults[party] = faults[party].saturating_add(1);
}
