//! What a plan looked at, in order, beside what it comes to with some sectors at hand: the definition of a trace, and laws by which traces of parts make
//! the trace of a whole, and by which the sectors of a trace are those of the plan's looks over the disk, before the first that is missing. Each law is the
//! contract of a public function with an empty body. The crates that follow what a line has seen rest on them. It stands on the definitions of plans and on
//! the laws of where they look.

ghost use Rattle.disk_definitions.specs.Walks.{Walked};
ghost use Rattle.disk_definitions.specs.Plans.{Plan};
ghost use Rattle.disk_definitions.specs.Traces.{TracesGoOn, TracesMeet};
ghost use Rattle.plan_laws.specs.Laws.{TracesFollowLooks, TracedIsAtHand, SegmentsAreTraced};

/// The trace of one computation and then another is that of the first and behind it that of the second, unless a sector of the first is missing. What it
/// comes to is what the computation meets. Segments that are at hand come in front, one after another.
pub fn a_trace_goes_on_as_the_computation_does()
    ensures on { TracesGoOn Walked Plan }
    ensures met { TracesMeet Plan }
    ensures segments { SegmentsAreTraced Plan }
{}

/// Each sector of a trace is at hand, and the one that is needed isn't. Where what is at hand of the sectors of a trace is a disk's, they are those at which
/// the computation looks over the disk, in order, up to the first that isn't at hand.
pub fn a_trace_is_of_the_looks_before_the_first_missing_one()
    ensures at_hand { TracedIsAtHand Plan }
    ensures looks { TracesFollowLooks Plan }
{}
