//! What the failed calls of a run of the core account for: of each server its answers `io`, and its deaths that the lines said don't call for, are each at most
//! the calls of it that failed. Each law is the contract of a public function with no result. They stand on the definitions of transcripts and of the core, and
//! on the transcripts of its runs; nothing is asked of the disk.

ghost use Rattle.core_transcripts.specs.Ends.{ClockEnds, EndIsTold, NothingToDoIsTold};
ghost use Rattle.core_transcripts.specs.Within.{RunsAreWithinTheirFaults};

use crate::records::{records_are_transcripts, runs_have_their_faults};
use core_laws::{nothing_to_do_is_the_end, who_rests_has_nothing};

/// Over every run from an opening of a script whose lines have numbers of their own the lines said are a transcript, but for which lines of the tree they are, by
/// faults that tell of the calls that failed in the run and of no others; and of each server the answers `io`, and the deaths that nothing else explains, are each
/// at most as many as its failed calls.
pub fn runs_are_within_their_faults()
    ensures within { RunsAreWithinTheirFaults }
{
    who_rests_has_nothing();
    runs_have_their_faults();
    records_are_transcripts();
}

/// Over every run from an opening of such a script it is over exactly where a halt was answered, the end was said or a call of the host failed; the clock comes to
/// its last moment at most; and where nothing may happen one of these three was so, a line is kept by the gate, or the clock is at its last moment.
pub fn the_end_is_told()
    ensures over { EndIsTold }
    ensures clock { ClockEnds }
    ensures nothing { NothingToDoIsTold }
{
    who_rests_has_nothing();
    nothing_to_do_is_the_end();
}
