// How a line ends.
ghost use Rattle.std.specs.Prelude.{◌≡◌, ℕ, List, IfOk, OnOk, Err};
ghost use Rattle.tree_definitions.specs.Perform.{Goes};
ghost use Rattle.disk_definitions.specs.Plans.{Plan};
ghost use Rattle.dir_lookup.specs.Reading.{Read, Gives};
ghost use Rattle.plan_steps.specs.Ends as plans;
ghost use Rattle.line_plan.specs.Ends.{ClearsFor, Comes};

use frang_base::{NoMemory, Op, Sector};
use plan_steps::{Outcome, Stop};
use std::alloc::Global;

/// How a line ends over what is at hand.
#[derive(Drop)]
pub enum LineEnd {
    /// It is done with a reply and the edits that make it, none where it is refused.
    Done(Outcome),
    /// This sector is needed and isn't cached, the first such.
    Need(Sector),
    /// Nothing free was found in the held segments, and they aren't all.
    Segments,
    /// This small block has to be cleared first, for this operation over paths without links, to which the walks of the line lead.
    Clear { block: u32, over: Op },
}

// How a line ends whose walks lead to the operation `over`, by how that ends.
pub(crate) fn line_end(
    alloc: Global,
    ended: Result<Outcome, Stop>,
    over: Op,
) -> Result<LineEnd, NoMemory>
    ensures comes { (p : Read Plan) → plans.Comes p ended → Comes p result }
    ensures memory { OnOk result (ended ≡ Err Stop.NoMemory → ⊥) }
    ensures clears { (trail : List ℕ) → IfOk result (ClearsFor (Gives (record { step = Goes over; trail = trail }))) }
{
    match ended {
        Ok(outcome) => Ok(LineEnd::Done(outcome)),
        Err(Stop::Refused(reply)) => Ok(LineEnd::Done(Outcome::unchanged(alloc, reply))),
        Err(Stop::Need(sector)) => Ok(LineEnd::Need(sector)),
        Err(Stop::Segments) => Ok(LineEnd::Segments),
        Err(Stop::Clear { block }) => Ok(LineEnd::Clear { block, over }),
        Err(Stop::NoMemory) => Err(NoMemory),
    }
}
