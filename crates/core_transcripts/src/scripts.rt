//! What the runs of the core say of a script that was read: its lines meet what the laws on runs ask of a script, so that the lines said in each of its runs are a
//! well-formed transcript, but for which lines the tree has, and within the calls that failed. Each law is the contract of a public function with no result. They
//! stand on the grammar of scripts and on the transcripts of the core's runs.

ghost use Rattle.core_transcripts.specs.Scripts.{ApartIsOwn, ReadScriptsAreNumbered, RunsOfReadScriptsSayTranscripts, RunsOfReadScriptsAreWithinTheirFaults};

use crate::answers::read_scripts_have_own_numbers;
use crate::faults::runs_are_within_their_faults;
use crate::records::records_are_transcripts;
use script_definitions::what_is_read_is_in_the_grammar;

/// The lines of a script that was read have numbers of their own, and the host's ask what a host is asked. That no two lines have one number is, said by a test,
/// that they have their own.
pub fn read_scripts_are_numbered()
    ensures numbered { ReadScriptsAreNumbered }
    ensures own { ApartIsOwn }
{
    what_is_read_is_in_the_grammar();
    read_scripts_have_own_numbers();
}

/// Over every run from an opening of a script that was read the lines said are a transcript of it, but for which lines of the tree they are, whatever faults tell of
/// each call that fails; and by those of the run itself they are within its failed calls.
pub fn read_scripts_are_transcribed()
    ensures transcripts { RunsOfReadScriptsSayTranscripts }
    ensures within { RunsOfReadScriptsAreWithinTheirFaults }
{
    read_scripts_are_numbered();
    records_are_transcripts();
    runs_are_within_their_faults();
}
