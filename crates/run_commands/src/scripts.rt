// The script that a file is.
ghost use Rattle.std.specs.Prelude.{◌≡◌, IfOk, IsTrue};
ghost use Rattle.frang_outside.specs.Files.{NoneFell};
ghost use Rattle.script_places.specs.Placed.{ascends};
ghost use Rattle.run_commands.specs.Steps.{GivesScript, ReadsScript};

use crate::end::RunEnd;
use frang_base::Script;
use frang_base::limits::SCRIPT_BYTES_MAX;
use frang_outside::{FileFault, Files};
use script_lang::{ReadFault, read_script};
use script_places::read_scripts_ascend;
use std::alloc::Global;

// The script that bytes are.
fn script_in(alloc: Global, bytes: &[u8]) -> Result<Script, RunEnd>
    ensures gives { GivesScript bytes.now result }
    ensures ascends { IfOk result (λ script. IsTrue (ascends script)) }
{
    read_scripts_ascend();
    match read_script(alloc, bytes) {
        Ok(script) => Ok(script),
        Err(ReadFault::Bad(fault)) => Err(RunEnd::BadScript(fault)),
        Err(ReadFault::NoMemory) => Err(RunEnd::NoMemory),
    }
}

/// The script that a file is. The numbers of its lines ascend.
pub(crate) fn script_of_file<F: Files>(
    alloc: Global,
    name: &str,
    files: &mut F,
) -> Result<Script, RunEnd>
    ensures files { (F.state files.new).holds ≡ (F.state files.old).holds }
    ensures counts { NoneFell (F.state files.old) (F.state files.new) }
    ensures outcome { ReadsScript (F.state files.old) (F.state files.new) name.now result }
    ensures ascends { IfOk result (λ script. IsTrue (ascends script)) }
{
    match files.read(alloc, name, SCRIPT_BYTES_MAX as u64) {
        Ok(bytes) => script_in(alloc, &bytes),
        Err(FileFault::Failed) => Err(RunEnd::ScriptFailed),
        Err(FileFault::TooLong) => Err(RunEnd::ScriptTooLong),
        Err(FileFault::NoMemory) => Err(RunEnd::NoMemory),
    }
}
