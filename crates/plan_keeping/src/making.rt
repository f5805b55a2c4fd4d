// A plan made to be kept.
ghost use Rattle.std.specs.Prelude.{◌≡◌, ◌≤◌, IfOk};
ghost use Rattle.frang_base.specs.declared.limits.TheConstants.{SEGMENTS_MAX};
ghost use Rattle.planned_lines.specs.declared.finished.PlanEnd.TheVariants as ends;
ghost use Rattle.set_definitions.specs.Seen.{compared};
ghost use Rattle.kept_plans.specs.Bases.{Basis};
ghost use Rattle.kept_plans.specs.Kept.{EndsSo, FinishesWith, IsPlanOn, IsPlanned, unmoved};
ghost use Rattle.plan_keeping.specs.Making.{EndsOn, PlansOn, basis_by, basis_over};

use crate::fits::{are_of_disk, may_stand, target_fits};
use crate::outcome::outcome_of;
use clerk_cache::Cache;
use dir_lookup::Hand;
use frang_base::{NoMemory, Op};
use kept_plans::{FinishedLine, KeptEnd, KeptPlan, PlannedLine};
use line_sight::sight_of;
use lock_sets::Comparison;
use planned_lines::{Finished, PlanEnd, Planned, plan_for_core};
use server_core::Under;
use std::alloc::Global;
use usable_sectors::Usable;

/// A line to be planned: what it asks, the number of its operation and its time, on a disk of so many segments.
#[derive(Clone, Copy)]
pub struct LineToPlan<'a> {
    pub operation: &'a Op,
    pub number: u64,
    pub when: u64,
    pub segments: u32,
}

/// The plan of a line under way over what is cached, to be kept while the line, its set, what it has seen and the usable sectors of the cache stay. The disk has at most 64 segments. Its one
/// refusal is want of memory, which it says too where the line can't be carried out: the target of its new link is too long for an inode, its set has a segment that no disk has, it needs a
/// sector in no region of the disk, a sector that it changes has a version without a next one, or its record may not stand in a log. Over a disk that stands for a tree none of these comes to
/// pass.
pub fn plan_to_keep(
    alloc: Global,
    cache: &Cache,
    under: &Under,
    line: &LineToPlan,
) -> Result<KeptPlan, NoMemory>
    requires { line.now.segments ≤ SEGMENTS_MAX }
    ensures { IfOk result (IsPlanOn (basis_by line.now under.now.under cache.now.entries)) }
{
    let usable = Usable::new(cache, under.set());
    let through = match under.seen().compare(&usable) {
        Comparison::HasMoved(_) => return Ok(KeptPlan::Moved),
        Comparison::HasStopped => false,
        Comparison::HasGoneThrough => true,
    };
    let planned = planned_line(alloc, &usable, under, line, through)?;
    Ok(KeptPlan::Planned(planned))
}

// The plan of a line of which no seen sector has moved; whether the comparison has gone through.
fn planned_line(
    alloc: Global,
    usable: &Usable,
    under: &Under,
    line: &LineToPlan,
    through: bool,
) -> Result<PlannedLine, NoMemory>
    requires segments { line.now.segments ≤ SEGMENTS_MAX }
    requires compared { compared under.now.under.seen usable.now.entries ≡ unmoved through }
    ensures { IfOk result (IsPlanned (basis_over line.now under.now.under usable.now.entries)) }
{
    let Planned { examined, end } = planned(alloc, usable, under, line)?;
    let seen = under.seen().with_more(usable, &examined)?;
    let end = kept_end(alloc, line.segments, end)?;
    Ok(PlannedLine { through, seen, end })
}

// The plan over the usable sectors of what its set has.
fn planned(
    alloc: Global,
    usable: &Usable,
    under: &Under,
    line: &LineToPlan,
) -> Result<Planned, NoMemory>
    requires { line.now.segments ≤ SEGMENTS_MAX }
    ensures { IfOk result (PlansOn (basis_over line.now under.now.under usable.now.entries)) }
{
    let set = under.set();
    if !target_fits(line.operation) || !are_of_disk(set.as_slice()) {
        return Err(NoMemory);
    }
    let sight = sight_of(alloc, line.segments, set, usable)?;
    let hand = Hand {
        sectors: usable,
        held: &sight.held,
        all: sight.all,
    };
    let LineToPlan {
        operation,
        number,
        when,
        segments,
    } = *line;
    let planned = plan_for_core(alloc, &hand, segments, number, when, operation)?;
    Ok(planned)
}

// How a plan ends, as it is kept.
fn kept_end(alloc: Global, segments: u32, end: PlanEnd) -> Result<KeptEnd, NoMemory>
    requires { segments ≤ SEGMENTS_MAX }
    ensures { IfOk result (λ kept. (basis : Basis) → basis.segments ≡ segments → EndsOn basis end → EndsSo basis kept) }
{
    match end {
        PlanEnd::Need { sector, cover } => Ok(KeptEnd::Need { sector, cover }),
        PlanEnd::Segments => Ok(KeptEnd::Segments),
        PlanEnd::Clear { block, locks } => Ok(KeptEnd::Clear { block, locks }),
        PlanEnd::Done(done) => {
            let done = finished_line(alloc, segments, done)?;
            Ok(KeptEnd::Done(done))
        }
    }
}

// A finished line, as it is kept.
fn finished_line(alloc: Global, segments: u32, done: Finished) -> Result<FinishedLine, NoMemory>
    requires { segments ≤ SEGMENTS_MAX }
    ensures { IfOk result (λ line. (basis : Basis) → basis.segments ≡ segments → EndsOn basis (ends.Done done) → FinishesWith basis line.outcome line.locks) }
{
    let (outcome, locks) = outcome_of(alloc, segments, done)?;
    if !may_stand(&outcome.redo) {
        return Err(NoMemory);
    }
    Ok(FinishedLine { outcome, locks })
}
