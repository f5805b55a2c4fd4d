// What is asked of a line before it is planned, and of its record.
ghost use Rattle.std.specs.Prelude.{◌≡◌, true};
ghost use Rattle.line_plan.specs.Lines.{TargetFits};
ghost use Rattle.kept_plans.specs.Records.{may_stand};
ghost use Rattle.plan_keeping.specs.Segments.{is_of_disk};
ghost use Rattle.std.specs.List.{list_all};

use frang_base::limits::{SEGMENTS_MAX, TARGET_BYTES_MAX};
use frang_base::{LockId, Mode, Op, Redo};
use log_record::fits;

/// Whether the target of a new link, where the operation makes one, may stand in an inode.
pub(crate) fn target_fits(operation: &Op) -> bool
    ensures { result ≡ true → TargetFits operation.now }
{
    match operation {
        Op::Symlink { target, .. } => target.len() <= TARGET_BYTES_MAX,
        _ => true,
    }
}

/// Whether each segment among these locks is one that a disk may have.
pub(crate) fn are_of_disk(locks: &[(LockId, Mode)]) -> bool
    ensures { result ≡ list_all (λ need. is_of_disk need.0) locks.now }
{
    locks.iter().all(|need| is_of_disk(need.0))
}

fn is_of_disk(lock: LockId) -> bool
    ensures { result ≡ is_of_disk lock }
{
    match lock {
        LockId::Segment(segment) => segment < SEGMENTS_MAX,
        LockId::Log(_) | LockId::Node(_) => true,
    }
}

/// Whether the record of a line, where it has one, may stand in a log.
pub(crate) fn may_stand(redo: &Option<Redo>) -> bool
    ensures { result ≡ may_stand redo.now }
{
    match redo {
        Some(redo) => 1 <= redo.op.0 && fits(redo),
        None => true,
    }
}
