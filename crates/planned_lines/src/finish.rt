// What a finished line comes to, by its reply and its edits.
ghost use Rattle.std.specs.Prelude.{◌≡◌, ◌≤◌, IfOk};
ghost use Rattle.frang_base.specs.declared.limits.TheConstants.{SEGMENTS_MAX};
ghost use Rattle.disk_definitions.specs.Held.{AreSegments};
ghost use Rattle.disk_definitions.specs.LookedAt.{nodes_in};
ghost use Rattle.core_definitions.specs.Plans.{record_of};
ghost use Rattle.edit_writing.specs.Sectors.{HasNextVersions, at_hand};
ghost use Rattle.plan_steps.specs.Edits.{edits_of};
ghost use Rattle.lock_sets.specs.Seen.{numbers};
ghost use Rattle.planned_lines.specs.Ends.{sight_by};
ghost use Rattle.planned_lines.specs.Outcomes.{IsFinished};

use crate::bytes::bytes_set;
use crate::finished::Finished;
use dir_lookup::Hand;
use edit_moves::moves_of;
use edit_writing::{changes_of, freed_sectors, have_next_versions};
use frang_base::{Changes, NoMemory, OpNo, Redo, Reply, Sector};
use plan_locks::{locks_of_finish, nodes_in};
use plan_steps::{Edit, Outcome};
use std::alloc::Global;

/// What a line comes to that has examined these sectors and is finished so, on a disk of so many segments; its operation has this number. Its one refusal is want
/// of memory, which it says too where the version of a sector that changes has no next one.
pub(crate) fn finished(
    alloc: Global,
    hand: &Hand,
    segments: u32,
    number: u64,
    examined: &[Sector],
    outcome: Outcome,
) -> Result<Finished, NoMemory>
    requires segments { segments ≤ SEGMENTS_MAX }
    requires held { AreSegments hand.now.held.now }
    ensures { IfOk result (IsFinished (sight_by hand.now) number (nodes_in segments (numbers examined.now)) outcome.reply (edits_of outcome.edits.items)) }
{
    let Outcome { reply, edits } = outcome;
    if !have_next_versions(hand, &edits) {
        return Err(NoMemory);
    }
    finished_by(alloc, hand, segments, number, examined, reply, &edits)
}

// By its reply and its edits.
fn finished_by(
    alloc: Global,
    hand: &Hand,
    segments: u32,
    number: u64,
    examined: &[Sector],
    reply: Reply,
    edits: &[Edit],
) -> Result<Finished, NoMemory>
    requires segments { segments ≤ SEGMENTS_MAX }
    requires held { AreSegments hand.now.held.now }
    requires versions { HasNextVersions (at_hand hand.now) (edits_of edits.now) }
    ensures { IfOk result (IsFinished (sight_by hand.now) number (nodes_in segments (numbers examined.now)) reply (edits_of edits.now)) }
{
    let locks = locks_of_finish(alloc, hand, segments, examined, &reply, edits)?;
    let nodes = nodes_in(alloc, segments, examined)?;
    let changes = changes_of(alloc, hand, edits)?;
    let moves = moves_of(alloc, edits)?;
    let bytes = bytes_set(alloc, hand, &nodes, &moves, edits)?;
    let freed = freed_sectors(alloc, edits)?;
    Ok(Finished {
        reply,
        redo: record_of(number, changes),
        bytes,
        freed,
        moves,
        locks,
    })
}

// The record of the changes of an operation, where there are any.
#[tactic(auto, using(crate::proofs::Recording::no_record, crate::proofs::Recording::a_record))]
fn record_of(number: u64, changes: Changes) -> Option<Redo>
    ensures { result ≡ record_of number changes }
{
    if changes.as_slice().is_empty() {
        None
    } else {
        Some(Redo {
            op: OpNo(number),
            changes,
        })
    }
}
