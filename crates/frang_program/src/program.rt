// The program as a function of the runtime.
ghost use Rattle.std.specs.Prelude.{◌≡◌};
ghost use Rattle.std.specs.Process.{exit_status};

use crate::explaining::explain;
use frang_outside::{DirFiles, NoGate, StdOutside};
use frang_top::{Status, frang};
use progress_line::{Place, Shown};
use std::alloc::Global;
use std::env;
use std::io::IsTerminal;
use std::process::ExitCode;
use std::rt::Runtime;
use std::sync::Wait;
use std::thread::Threads;

fn exit_code(status: &Status) -> ExitCode
    ensures { exit_status result ≡ status.now.code }
{
    ExitCode::from(status.code)
}

// The words after the program's name.
fn given_words<R: Runtime>(alloc: Global, rt: &R) -> anyhow::Result<Vec<String>> {
    let mut words = Vec::new(alloc);
    for word in env::args(rt)?.skip(1) {
        words.push(String::from_str(alloc, word.as_str())?)?;
    }
    Ok(words)
}

// Whether the words are of a command that runs servers.
fn is_run(words: &[String]) -> bool {
    match words.first() {
        Some(word) => matches!(word.as_str(), "run" | "soak"),
        None => false,
    }
}

// Where the line that shows how far a command has come is to stand.
fn place_of(words: &[String], error: &impl IsTerminal, output: &impl IsTerminal) -> Place {
    if !is_run(words) || !error.is_terminal() {
        Place::Nowhere
    } else if output.is_terminal() {
        Place::AmongLines
    } else {
        Place::Apart
    }
}

// How the call with these words ends over the real files and the real outside.
fn status_of<R: Runtime + Threads + Wait + Send + Sync>(
    alloc: Global,
    rt: &R,
    words: &[String],
    place: Place,
) -> anyhow::Result<Status> {
    let mut files = DirFiles::new(rt.clone()?);
    let out = StdOutside::new(alloc, rt.clone()?);
    let out = Shown::new(out, rt.clone()?, place);
    let (status, out) = frang(rt, alloc, words, &mut files, out, &NoGate);
    let _ = out.close();
    Ok(status)
}

/// Does what the words after the program's name ask, and gives the status with which the process is to end. Where it isn't 0, its line
/// of numbers stands on standard error, and below it what it means in words, with the thing that is wrong: the word of a script's line,
/// the option and its value, the file. An error comes where the arguments can't be had, or where standard error takes no line. Where standard
/// error is a terminal, one line on it shows how far a run or a soak has come, and is gone at the end.
pub fn run_program<R: Runtime + Threads + Wait + Send + Sync>(
    alloc: Global,
    rt: &R,
    error: &impl IsTerminal,
    output: &impl IsTerminal,
) -> anyhow::Result<ExitCode> {
    let words = given_words(alloc, rt)?;
    let place = place_of(&words, error, output);
    let status = status_of(alloc, rt, &words, place)?;
    explain(alloc, rt, &words, &status)?;
    Ok(exit_code(&status))
}
