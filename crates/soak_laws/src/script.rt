// The script of a soak, by what is asked of scripts. Each law is the contract of a public function with an empty body.
ghost use Rattle.std.specs.Prelude.{ℕ, IsTrue};
ghost use Rattle.frang_soak.specs.Scripts.{soak_script};
ghost use Rattle.script_places.specs.Placed.{ascends};
ghost use Rattle.core_transcripts.specs.Transcripts.{IsNumbered};

/// The numbers of the lines of a soak's script ascend.
pub fn soak_scripts_ascend()
    ensures ascend { (n : ℕ) → IsTrue (ascends (soak_script n)) }
{}

/// Its lines have numbers of their own, and the host's ask what a host is asked.
pub fn soak_scripts_are_numbered()
    ensures numbered { (n : ℕ) → IsNumbered (soak_script n) }
{}
