// The plan as its caller has it.
ghost use Rattle.std.specs.Prelude.{◌≡◌, [], IfOk, map};
ghost use Rattle.meta_version.specs.declared.plan.Plan.TheVariants as plan;
ghost use Rattle.disk_definitions.specs.Held.{AreSegments};
ghost use Rattle.disk_definitions.specs.Plans.{Plan as Planned};
ghost use Rattle.disk_definitions.specs.Written as written;
ghost use Rattle.dir_lookup.specs.Planned.{planned, sector_by, write_by};
ghost use Rattle.dir_lookup.specs.Reading.{Read};
ghost use Rattle.plan_steps.specs.Edits.{edits_of};
ghost use Rattle.plan_steps.specs.Ends.{Comes};
ghost use Rattle.edit_writing.specs.Sectors.{EndsWithNextVersions, HasNextVersions, at_hand};

use crate::{byte_writes, changes_of, freed_sectors};
use dir_lookup::Hand;
use frang_base::{Changes, NoMemory, Reply};
use meta_version::{ByteWrites, Plan, SectorList};
use plan_steps::{Outcome, Stop};
use std::alloc::Global;

/// The plan as it ended: what it needs, or its reply with what its edits write. Its one refusal is want of memory, which the plan may
/// have ended with. What `changes_of` asks of its edits is asked here.
pub fn finish(alloc: Global, hand: &Hand, ended: Result<Outcome, Stop>) -> Result<Plan, NoMemory>
    requires segments { AreSegments hand.now.held.now }
    requires versions { EndsWithNextVersions (at_hand hand.now) ended }
    ensures { (p : Read Planned) → Comes p ended → IfOk result (λ plan. plan ≡ planned hand.now.sectors.now.entries hand.now.held.now p) }
{
    match ended {
        Ok(outcome) => done(alloc, hand, outcome),
        Err(Stop::Need(sector)) => Ok(Plan::Need(sector)),
        Err(Stop::Segments) => Ok(Plan::Segments),
        Err(Stop::Clear { block }) => Ok(Plan::Clear { block }),
        Err(Stop::Refused(reply)) => Ok(unchanged(alloc, reply)),
        Err(Stop::NoMemory) => Err(NoMemory),
    }
}

// The reply with what the edits write.
fn done(alloc: Global, hand: &Hand, outcome: Outcome) -> Result<Plan, NoMemory>
    requires segments { AreSegments hand.now.held.now }
    requires versions { HasNextVersions (at_hand hand.now) (edits_of outcome.edits.items) }
    ensures { IfOk result (λ done. done ≡ plan.Done outcome.reply (written.changes_of (at_hand hand.now) (edits_of outcome.edits.items)) (map write_by (written.byte_writes (edits_of outcome.edits.items))) (map sector_by (written.freed_sectors (edits_of outcome.edits.items)))) }
{
    let Outcome { reply, edits } = outcome;
    Ok(Plan::Done {
        reply,
        changes: changes_of(alloc, hand, &edits)?,
        bytes: byte_writes(alloc, &edits)?,
        freed: freed_sectors(alloc, &edits)?,
    })
}

// The reply, and nothing is written.
fn unchanged(alloc: Global, reply: Reply) -> Plan
    ensures { result ≡ plan.Done reply [] [] [] }
{
    Plan::Done {
        reply,
        changes: Changes::from_vec(Vec::new(alloc)),
        bytes: ByteWrites::from_vec(Vec::new(alloc)),
        freed: SectorList::from_vec(Vec::new(alloc)),
    }
}
