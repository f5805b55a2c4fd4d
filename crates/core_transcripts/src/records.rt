//! The lines that are said in a run of the core are a well-formed transcript of its script, but for which lines the tree has: each answer, death, renewal,
//! recovery and note comes where a transcript has it, and the tree and the end come last. Each law is the contract of a public function with no result. They
//! stand on the definitions of transcripts and of the core, and on its facts; nothing is asked of the disk.

ghost use Rattle.core_transcripts.specs.Faults.{RunHasItsFaults};
ghost use Rattle.core_transcripts.specs.Transcripts.{RunsSayTranscripts};

use core_laws::who_rests_has_nothing;

/// Each run has faults that tell of each of its calls that fails, and of no others.
pub fn runs_have_their_faults()
    ensures theirs { RunHasItsFaults }
{}

/// Over every run from an opening the lines said are a transcript of the script, but for which lines of the tree they are: where the script's lines have
/// numbers of their own and the host's ask what a host is asked, and whatever faults tell of each call that fails.
pub fn records_are_transcripts()
    ensures transcripts { RunsSayTranscripts }
{
    who_rests_has_nothing();
}
