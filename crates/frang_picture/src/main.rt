//! The program `frang_picture SAID [--script SCRIPT] [--out F]`: an SVG of a run from its said lines, into a file, or said as it stands. With the
//! script, what was asked is told too. It ends with status 0 where the picture is drawn, 2 where
//! the words are none of its own, 3 for want of memory, 4 where a file can't be read or written, 6 where a line is no said line, 7 where the
//! script isn't one, and 8 where a file is too long.
#![tactic(auto)]

mod words;

use crate::words::{Words, words_of};
use frang_base::limits::{IMAGE_BYTES_MAX, SCRIPT_BYTES_MAX};
use frang_base::{NoMemory, Said, Script};
use frang_outside::{DirFiles, FileFault, Files};
use run_picture::{SaidFault, Source, picture, read_saids, svg};
use script_lang::{ReadFault, read_script};
use std::alloc::Global;
use std::env;
use std::process::ExitCode;

// Why no picture is drawn.
#[derive(Clone, Copy)]
enum Stop {
    Words,
    NoMemory,
    File,
    TooLong,
    Said(u64),
    Script(u32),
}

impl From<NoMemory> for Stop {
    fn from(_: NoMemory) -> Self {
        Stop::NoMemory
    }
}

impl From<FileFault> for Stop {
    fn from(fault: FileFault) -> Self {
        match fault {
            FileFault::Failed => Stop::File,
            FileFault::TooLong => Stop::TooLong,
            FileFault::NoMemory => Stop::NoMemory,
        }
    }
}

impl From<SaidFault> for Stop {
    fn from(fault: SaidFault) -> Self {
        match fault {
            SaidFault::NoMemory => Stop::NoMemory,
            SaidFault::Bad { line } => Stop::Said(line),
        }
    }
}

impl From<ReadFault> for Stop {
    fn from(fault: ReadFault) -> Self {
        match fault {
            ReadFault::NoMemory => Stop::NoMemory,
            ReadFault::Bad(fault) => Stop::Script(fault.line),
        }
    }
}

impl Stop {
    // The status, and the number of the line that is wrong, or 0.
    fn status(self) -> (u8, u64) {
        match self {
            Stop::Words => (2, 0),
            Stop::NoMemory => (3, 0),
            Stop::File => (4, 0),
            Stop::Said(line) => (6, line),
            Stop::Script(line) => (7, u64::from(line)),
            Stop::TooLong => (8, 0),
        }
    }
}

// The lines of a text, without their line feeds; none where it isn't UTF-8.
fn lines_of(alloc: Global, bytes: &[u8]) -> Result<Vec<&str>, NoMemory> {
    let mut lines = Vec::new(alloc);
    if let Ok(text) = str::from_utf8(bytes) {
        for line in text.lines() {
            lines.push(line)?;
        }
    }
    Ok(lines)
}

// The text of the picture of said lines with their script.
fn with_script<F: Files>(
    alloc: Global,
    files: &mut F,
    saids: &[Said],
    name: &str,
) -> Result<String, Stop> {
    let bytes = files.read(alloc, name, SCRIPT_BYTES_MAX as u64)?;
    let script: Script = read_script(alloc, &bytes)?;
    let texts = lines_of(alloc, &bytes)?;
    let source = Source {
        script: &script,
        texts: &texts,
    };
    let drawn = picture(alloc, saids, Some(source))?;
    Ok(svg(alloc, &drawn)?)
}

// The text of the picture that the words ask for.
fn drawn<F: Files>(alloc: Global, files: &mut F, words: &Words) -> Result<String, Stop> {
    let bytes = files.read(alloc, words.said, IMAGE_BYTES_MAX)?;
    let saids = read_saids(alloc, &bytes)?;
    match words.script {
        Some(name) => with_script(alloc, files, &saids, name),
        None => {
            let drawn = picture(alloc, &saids, None)?;
            Ok(svg(alloc, &drawn)?)
        }
    }
}

// Puts the text into the file that is asked for; gives it back where none is.
fn kept<F: Files>(files: &mut F, words: &Words, text: String) -> Result<Option<String>, Stop> {
    match words.out {
        Some(name) => {
            files.write(name, text.as_bytes())?;
            Ok(None)
        }
        None => Ok(Some(text)),
    }
}

// Does what the words ask; the text is given back that is to be printed.
fn answered<F: Files>(
    alloc: Global,
    files: &mut F,
    given: &[String],
) -> Result<Option<String>, Stop> {
    match words_of(given) {
        Some(words) => {
            let text = drawn(alloc, files, &words)?;
            kept(files, &words, text)
        }
        None => Err(Stop::Words),
    }
}

// The words after the program's name.
fn given_words(alloc: Global, rt: &HostRuntime) -> anyhow::Result<Vec<String>> {
    let mut words = Vec::new(alloc);
    for word in env::args(rt)?.skip(1) {
        words.push(String::from_str(alloc, word.as_str())?)?;
    }
    Ok(words)
}

fn main(rt: HostRuntime) -> anyhow::Result<ExitCode> {
    let alloc = rt.alloc();
    let given = given_words(alloc, &rt)?;
    let mut files = DirFiles::new(rt.clone()?);
    match answered(alloc, &mut files, &given) {
        Ok(Some(text)) => {
            print!(rt; "{text}")?;
            Ok(ExitCode::from(0))
        }
        Ok(None) => Ok(ExitCode::from(0)),
        Err(stop) => {
            let (status, line) = stop.status();
            eprintln!(rt; "frang_picture: status {status} line {line}")?;
            if status == 2 {
                eprintln!(rt; "frang_picture SAID [--script SCRIPT] [--out F]")?;
            }
            Ok(ExitCode::from(status))
        }
    }
}
