// The outcome of a finished line, as a commit takes it.
ghost use Rattle.std.specs.Prelude.{◌≡◌, ◌≤◌, IfOk, map};
ghost use Rattle.frang_base.specs.declared.limits.TheConstants.{SEGMENTS_MAX};
ghost use Rattle.core_definitions.specs.Plans as core;
ghost use Rattle.kept_plans.specs.Outcomes.{IsOutcomeOf};
ghost use Rattle.planned_lines.specs.Outcomes.{bytes_as, outcome_as};
ghost use Rattle.server_core.specs.Outcomes.{bytes_of};

use crate::moved::moved_sectors;
use frang_base::NoMemory;
use lock_sets::LockSet;
use planned_lines::Finished;
use server_core::{BytesSet, Outcome};
use std::alloc::Global;

/// The outcome of a finished line on a disk of so many segments, and the locks that the line is found to need. Its one refusal is want of memory.
pub(crate) fn outcome_of(
    alloc: Global,
    segments: u32,
    done: Finished,
) -> Result<(Outcome, LockSet), NoMemory>
    requires { segments ≤ SEGMENTS_MAX }
    ensures outcome { IfOk result (λ made. IsOutcomeOf made.0 (outcome_as segments done)) }
    ensures locks { IfOk result (λ made. made.1 ≡ done.locks) }
{
    let Finished {
        reply,
        redo,
        bytes,
        freed,
        moves,
        locks,
    } = done;
    let outcome = Outcome {
        reply,
        redo,
        bytes: bytes_to_set(alloc, &bytes)?,
        freed,
        moves: moved_sectors(alloc, segments, &moves)?,
    };
    Ok((outcome, locks))
}

// The sectors of file bytes, as a commit takes them.
fn bytes_to_set(alloc: Global, bytes: &[planned_lines::BytesSet]) -> Result<Vec<BytesSet>, NoMemory>
    ensures { IfOk result (λ sets. map bytes_of sets.items ≡ map bytes_as bytes.now) }
{
    let mut sets = Vec::new(alloc);
    for set in bytes {
        sets.push(BytesSet {
            sector: set.sector,
            block: set.block,
            cover: set.cover,
        })?;
    }
    Ok(sets)
}
