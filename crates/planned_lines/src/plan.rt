// The plan of a line for the core.
ghost use Rattle.std.specs.Prelude.{◌≡◌, ◌≤◌, IfOk, Some};
ghost use Rattle.std.specs.Option.{option_map};
ghost use Rattle.frang_base.specs.declared.limits.TheConstants.{SEGMENTS_MAX};
ghost use Rattle.frang_base.specs.declared.op.Op.{Op};
ghost use Rattle.disk_definitions.specs.Ask.{Ask};
ghost use Rattle.disk_definitions.specs.CoversAtHand.{cover_among};
ghost use Rattle.disk_definitions.specs.Held.{AreSegments};
ghost use Rattle.disk_definitions.specs.Lines.{plan_of_line, resolved};
ghost use Rattle.disk_definitions.specs.LookedAt.{nodes_in};
ghost use Rattle.disk_definitions.specs.Numbered.{sector_at};
ghost use Rattle.disk_definitions.specs.Plans.{Plan};
ghost use Rattle.core_definitions.specs.Plans.{examined_in, nodes_looked_at};
ghost use Rattle.dir_lookup.specs.Hands.{over, seen};
ghost use Rattle.line_plan.specs.Ends.{ClearsFor, Ends};
ghost use Rattle.line_plan.specs.Lines.{TargetFits};
ghost use Rattle.lock_sets.specs.Seen.{numbers};
ghost use Rattle.planned_lines.specs.Ends.{EndsAs, sight_by};

use crate::finish::finished;
use crate::finished::{PlanEnd, Planned};
use dir_lookup::{Hand, Looked};
use edit_moves::cover_among;
use frang_base::{LockId, NoMemory, Op, Sector};
use line_plan::{LineEnd, plan_line};
use plan_locks::{locks_of_clear, nodes_in};
use std::alloc::Global;

/// The plan of a line for the core, over what the line may use of a disk of so many segments, at most 64; it needn't be of any disk. `number` is the number of its
/// operation, which a new node has as its birth, and `when` its time. The nodes at whose inodes it looked are told by the sectors that it examined. Its one refusal
/// is want of memory, which it says too where a needed sector is in no region of the disk, and where the version of a sector that it changes has no next one: over
/// a disk that stands for a tree neither comes to pass.
pub fn plan_for_core(
    alloc: Global,
    hand: &Hand,
    segments: u32,
    number: u64,
    when: u64,
    op: &Op,
) -> Result<Planned, NoMemory>
    requires fits { TargetFits op.now }
    requires segments { segments ≤ SEGMENTS_MAX }
    requires held { AreSegments hand.now.held.now }
    ensures examined { IfOk result (λ planned. numbers planned.examined.items ≡ examined_in (plan_of_line (seen hand.now) number when op.now) (sight_by hand.now)) }
    ensures ends { IfOk result (λ planned. EndsAs segments number (nodes_looked_at segments (plan_of_line (seen hand.now) number when op.now) (sight_by hand.now)) op.now (sight_by hand.now) (plan_of_line (seen hand.now) number when op.now) planned.end) }
{
    let mut looked = Looked::new(alloc);
    let line_end = plan_line(alloc, hand, number, when, op, &mut looked)?;
    let examined = looked.sectors()?;
    let end = ended(alloc, hand, segments, number, &examined, line_end)?;
    Ok(Planned { examined, end })
}

// How a line ends that has examined these sectors and whose plan ends so.
fn ended(
    alloc: Global,
    hand: &Hand,
    segments: u32,
    number: u64,
    examined: &[Sector],
    end: LineEnd,
) -> Result<PlanEnd, NoMemory>
    requires segments { segments ≤ SEGMENTS_MAX }
    requires held { AreSegments hand.now.held.now }
    ensures { IfOk result (λ ended. (operation : Op) (program : Ask Plan) → Ends (over program hand.now) end → ClearsFor (over (resolved operation) hand.now) end → EndsAs segments number (nodes_in segments (numbers examined.now)) operation (sight_by hand.now) program ended) }
{
    match end {
        LineEnd::Need(sector) => {
            let cover = needed_cover(alloc, hand, segments, examined, sector)?;
            Ok(PlanEnd::Need { sector, cover })
        }
        LineEnd::Segments => Ok(PlanEnd::Segments),
        LineEnd::Clear { block, over } => {
            let locks = locks_of_clear(alloc, segments, examined, &over, block)?;
            Ok(PlanEnd::Clear { block, locks })
        }
        LineEnd::Done(outcome) => {
            let done = finished(alloc, hand, segments, number, examined, outcome)?;
            Ok(PlanEnd::Done(done))
        }
    }
}

// The cover of a needed sector.
fn needed_cover(
    alloc: Global,
    hand: &Hand,
    segments: u32,
    examined: &[Sector],
    sector: Sector,
) -> Result<LockId, NoMemory>
    requires { segments ≤ SEGMENTS_MAX }
    ensures { IfOk result (λ cover. option_map (cover_among hand.now.sectors.now.entries hand.now.held.now (nodes_in segments (numbers examined.now))) (sector_at segments sector.0) ≡ Some cover) }
{
    let nodes = nodes_in(alloc, segments, examined)?;
    cover_among(hand, segments, &nodes, sector).ok_or(NoMemory)
}
