// The refilling of a copy from the other.
ghost use Rattle.std.specs.Prelude.{◌≡◌, ◌≤◌, ℕ, slice_index};
ghost use Rattle.petal_pair.specs.PairedCopies.{AreCopies, DifferAtMost};
ghost use Rattle.petal_pair.specs.Refilling.{Copies, CopiesSector, PairCopies, faults_refilled, in_use_refilled as refilled_use, missed_refilled};
ghost use Rattle.petal_pair.specs.declared.in_use.InUse.TheVariants.{Both};

use crate::InUse;
use crate::counting::count_fault;
use frang_base::{Sector, ServerId};
use frang_outside::{Failed, Outside, Put, PutFault};

/// Why a copy wasn't refilled. It stays out.
#[derive(Clone, Copy, Debug, PartialEq, Eq)]
pub enum RefillFault {
    /// A get or a put of a copy failed, and its count has risen.
    Failed,
    /// Want of memory.
    NoMemory,
}

/// Copies a sector.
pub(crate) fn copy_sector<F: Outside, T: Outside>(
    from: &mut F,
    to: &mut T,
    sector: Sector,
) -> Result<(), RefillFault>
    ensures { CopiesSector (F.state from.old) (F.state from.new) (T.state to.old) (T.state to.new) sector result }
{
    let bytes = match from.get(ServerId::HOST, sector) {
        Ok(bytes) => bytes,
        Err(Failed) => return Err(RefillFault::Failed),
    };
    let put = Put {
        server: ServerId::HOST,
        behalf: ServerId::HOST,
        stamp: u64::MAX,
        now: 0,
        sector,
        bytes,
    };
    match to.put(&put) {
        Ok(_) => Ok(()),
        Err(PutFault::Failed) => Err(RefillFault::Failed),
        Err(PutFault::NoMemory) => Err(RefillFault::NoMemory),
    }
}

/// Copies the missed sectors, in their order, until one is refused.
pub(crate) fn copy_missed<F: Outside, T: Outside>(
    from: &mut F,
    to: &mut T,
    missed: &[Sector],
) -> Result<(), RefillFault>
    requires { DifferAtMost missed.now (T.state to.old).sectors (F.state from.old).sectors }
    ensures { Copies (F.state from.old) (F.state from.new) (T.state to.old) (T.state to.new) missed.now result }
{
    for sector in missed {
        match copy_sector(from, to, *sector) {
            Ok(()) => {}
            Err(fault) => return Err(fault),
        }
    }
    Ok(())
}

/// Copies the missed sectors to the copy that is out.
pub(crate) fn copy_to_out<A: Outside, B: Outside>(
    first: &mut A,
    second: &mut B,
    in_use: InUse,
    missed: &[Sector],
) -> Result<(), RefillFault>
    requires out { in_use ≡ Both → ⊥ }
    requires copies { AreCopies in_use missed.now (A.state first.old).sectors (B.state second.old).sectors }
    ensures { PairCopies in_use (A.state first.old) (A.state first.new) (B.state second.old) (B.state second.new) missed.now result }
{
    match in_use {
        InUse::Both => unreachable!(),
        InUse::FirstAlone => copy_missed(first, second, missed),
        InUse::SecondAlone => copy_missed(second, first, missed),
    }
}

/// Counts a failed refilling.
pub(crate) fn count_refill(faults: &mut [u64; 256], answer: Result<(), RefillFault>)
    ensures counted { faults.new ≡ faults_refilled faults.old answer }
    ensures rises { (party : ℕ) → slice_index faults.old party ≤ slice_index faults.new party }
{
    if let Err(RefillFault::Failed) = answer {
        count_fault(faults, ServerId::HOST);
    }
}

/// Nothing is missed once the copy is refilled.
pub(crate) fn clear_refilled(missed: &mut Vec<Sector>, answer: Result<(), RefillFault>)
    ensures { missed.new.items ≡ missed_refilled missed.old.items answer }
{
    if answer.is_ok() {
        missed.clear();
    }
}

/// Both copies are in use once the copy is refilled.
pub(crate) fn in_use_refilled(in_use: InUse, answer: Result<(), RefillFault>) -> InUse
    ensures { result ≡ refilled_use in_use answer }
{
    match answer {
        Ok(()) => InUse::Both,
        Err(_) => in_use,
    }
}
