// The soak.
ghost use Rattle.std.specs.Prelude.{◌≡◌, Ok};
ghost use Rattle.quiet_outside.specs.KeptLines.{NoneTold};
ghost use Rattle.run_commands.specs.Soaking.{EndsSoak, HasSoaked, said_end};
ghost use Rattle.std.specs.Prelude.{ℕ, List, Result};
ghost use Rattle.frang_outside.specs.Outside.{State};

use crate::end::RunEnd;
use crate::running::run_end;
use frang_base::limits::SEGMENTS_DEFAULT;
use frang_base::{NoMemory, Text};
use frang_outside::{Gate, Outside, SayFault};
use frang_soak::soak_script;
use hall_scripts::{RunFault, StartDisk, run_script};
use quiet_outside::{Quiet, soak_line};
use soak_laws::soak_scripts_ascend;
use std::alloc::Global;
use std::sync::Wait;
use std::thread::Threads;

// How the report was said.
fn said_end(said: Result<(), SayFault>) -> RunEnd
    ensures { result ≡ said_end said }
{
    match said {
        Ok(()) => RunEnd::Done,
        Err(SayFault::Failed) => RunEnd::Mute { said: 0 },
        Err(SayFault::NoMemory) => RunEnd::NoMemory,
    }
}

// Says the report on the lines of a soak.
fn say_report<O: Outside>(alloc: Global, number: u64, lines: &[Text], mut out: O) -> (RunEnd, O)
    ensures { (first : State) → HasSoaked number first (O.state out) (Ok tt) lines.now → EndsSoak number first (O.state result.1) result.0 }
{
    match soak_line(alloc, number, lines) {
        Ok(line) => {
            let said = out.say(line.as_slice());
            (said_end(said), out)
        }
        Err(NoMemory) => (RunEnd::NoMemory, out),
    }
}

// The end of a soak whose run ended so.
fn end_soak<O: Outside>(
    alloc: Global,
    number: u64,
    ended: Result<(), RunFault>,
    lines: &[Text],
    out: O,
) -> (RunEnd, O)
    ensures { (first : State) → HasSoaked number first (O.state out) ended lines.now → EndsSoak number first (O.state result.1) result.0 }
{
    match ended {
        Ok(()) => say_report(alloc, number, lines, out),
        Err(_) => (run_end(ended), out),
    }
}

/// Runs the script of the soak of this number on a fresh disk of 16 segments, on threads, whose lines pass the gate, and then says one line: how many lines were answered, how many of
/// them `ok`, how many files the tree has, and their bytes. No other line reaches the outside. Where the run doesn't come to its end, none does.
pub fn soak<R: Threads + Wait + Sync, O: Outside + Send, G: Gate + Sync>(
    rt: &R,
    alloc: Global,
    number: u64,
    out: O,
    gate: &G,
) -> (RunEnd, O)
    requires { NoneTold (O.state out).acts }
    ensures { EndsSoak number (O.state out) (O.state result.1) result.0 }
{
    soak_scripts_ascend();
    let script = match soak_script(alloc, number) {
        Ok(script) => script,
        Err(NoMemory) => return (RunEnd::NoMemory, out),
    };
    let disk = StartDisk::Fresh {
        segments: SEGMENTS_DEFAULT,
    };
    let quiet = Quiet::new(alloc, out, 0);
    let (ended, quiet) = run_script(rt, alloc, script, disk, None, quiet, gate);
    let (out, lines) = quiet.parts();
    end_soak(alloc, number, ended, &lines, out)
}
