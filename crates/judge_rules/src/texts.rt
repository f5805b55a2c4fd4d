// The judge of texts: a script and said lines as bytes.
ghost use Rattle.std.specs.Prelude.{◌≤◌, IfOk};
ghost use Rattle.frang_base.specs.declared.limits.TheConstants.{SEGMENTS_MAX};
ghost use Rattle.judge_rules.specs.Texts.{IsJudged};

use crate::trial::{Found, judge};
use frang_base::NoMemory;
use said_files::{SaidFault, read_saids};
use script_lang::{ReadFault, read_script};
use std::alloc::Global;

/// What is judged of a script and said lines as texts: their verdict, or the first line of the script that is bad, or that of the said lines.
#[derive(Drop)]
pub enum Judged {
    Found(Found),
    BadScript { line: u32 },
    BadLine { line: u64 },
}

/// What is judged of these texts, on a fresh disk of so many segments; where faults are granted, each count has risen from the start. A bad
/// script counts before a bad line. Its one refusal is want of memory.
pub fn judge_texts(
    alloc: Global,
    script: &[u8],
    said: &[u8],
    segments: u32,
    granted: bool,
) -> Result<Judged, NoMemory>
    requires { segments ≤ SEGMENTS_MAX }
    ensures { IfOk result (IsJudged script.now said.now segments granted) }
{
    let script = match read_script(alloc, script) {
        Ok(script) => script,
        Err(ReadFault::Bad(fault)) => return Ok(Judged::BadScript { line: fault.line }),
        Err(ReadFault::NoMemory) => return Err(NoMemory),
    };
    let saids = match read_saids(alloc, said) {
        Ok(saids) => saids,
        Err(SaidFault::Bad { line }) => return Ok(Judged::BadLine { line }),
        Err(SaidFault::NoMemory) => return Err(NoMemory),
    };
    let found = judge(alloc, script.as_slice(), segments, granted, &saids)?;
    Ok(Judged::Found(found))
}
