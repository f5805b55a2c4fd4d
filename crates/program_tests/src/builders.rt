// Calls of the program over files and an outside in memory, and what they say.
ghost use Rattle.quiet_outside.specs.KeptLines.{NoneTold};

use frang_base::NoMemory;
use frang_outside::{Act, MemFiles, MemOutside, NoGate, Outside};
use frang_top::{Status, frang};
use std::alloc::{AllocError, Global};
use std::process::Abort;
use std::sync::Wait;
use std::test::Fail;
use std::thread::Threads;

pub const DONE: Status = Status {
    code: 0,
    line: 0,
    at: 0,
    sector: 0,
};

pub fn words_of(alloc: Global, words: &[&str]) -> Result<Vec<String>, AllocError> {
    let mut made = Vec::new(alloc);
    for word in words {
        made.push(String::from_str(alloc, word)?)?;
    }
    Ok(made)
}

// The words of a line, parted by blanks.
pub fn words_in(alloc: Global, line: &str) -> Result<Vec<String>, NoMemory> {
    let mut words = Vec::new(alloc);
    for word in line.split_whitespace() {
        words.push(String::from_str(alloc, word)?)?;
    }
    Ok(words)
}

// The lines said, one after another.
pub fn lines_said(alloc: Global, acts: &[Act]) -> Result<Vec<u8>, NoMemory> {
    let mut text = Vec::new(alloc);
    for act in acts {
        if let Act::Said(line) = act {
            text.extend_from_slice(line.as_slice())?;
        }
    }
    Ok(text)
}

// How a call ended, how many acts it made, and the lines that it said.
#[derive(Drop)]
pub struct Told {
    pub status: Status,
    pub acts: usize,
    pub text: Vec<u8>,
}

// How a call with these words ends, and the outside that it leaves. Nothing was said there before.
pub fn call<R: Threads + Wait + Sync, O: Outside + Send>(
    rt: &R,
    alloc: Global,
    words: &[String],
    files: &mut MemFiles,
    out: O,
) -> (Status, O)
    requires { NoneTold (O.state out).acts }
{
    frang(rt, alloc, words, files, out, &NoGate)
}

// What a call with these words tells where the file `s` holds this script.
pub fn tell(
    rt: &(impl Threads + Wait + Sync),
    alloc: Global,
    words: &[&str],
    script: &[u8],
) -> Result<Told, NoMemory> {
    let words = words_of(alloc, words)?;
    tell_words(rt, alloc, &words, script)
}

// The same of words that are owned.
pub fn tell_words(
    rt: &(impl Threads + Wait + Sync),
    alloc: Global,
    words: &[String],
    script: &[u8],
) -> Result<Told, NoMemory> {
    let mut files = MemFiles::new(alloc);
    files.put_file("s", script)?;
    tell_over(rt, alloc, words, &mut files)
}

fn tell_over(
    rt: &(impl Threads + Wait + Sync),
    alloc: Global,
    words: &[String],
    files: &mut MemFiles,
) -> Result<Told, NoMemory> {
    let (status, out) = call(rt, alloc, words, files, MemOutside::new(alloc));
    told_by(alloc, status, out.acts())
}

// What a call that ended so, with these acts, tells.
pub fn told_by(alloc: Global, status: Status, acts: &[Act]) -> Result<Told, NoMemory> {
    let text = lines_said(alloc, acts)?;
    Ok(Told {
        status,
        acts: acts.len(),
        text,
    })
}

// A script, and what its run says.
pub type Run = (&'static str, &'static str);

pub fn expect_runs(
    rt: &(impl Abort + Threads + Wait + Sync),
    alloc: Global,
    runs: &[Run],
) -> Result<(), Fail> {
    for (script, wanted) in runs {
        let told = tell(rt, alloc, &["run", "s"], script.as_bytes())?;
        assert!(rt;
            told.status == DONE && told.text.as_slice() == wanted.as_bytes(),
            "{script}"
        );
    }
    Ok(())
}
