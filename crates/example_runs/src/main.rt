//! Does each example, scripts in the order of events that 0 picks, and compares what is said with the text beside it. The files of `examples/` are those of this crate's data, and the
//! program prints a line for each script that it found, and for each command on an image. Where all are as said, it goes on as the program
//! `frang` itself: its stored run asks for a script of exactly as many bytes as a script may have, whose lines follow.
#![tactic(auto)]

use frang_outside::{Act, DirFiles, Files, MemOutside, NoGate};
use frang_program::run_program;
use frang_top::{Status, frang};
use std::alloc::Global;
use std::collections::BTreeSet;
use std::fs;
use std::process::ExitCode;
use std::rt::Runtime;
use std::sync::Wait;
use std::thread::Threads;

// The images, by their names before `.image`.
static IMAGES: [&str; 2] = ["logs", "unreached"];

// The commands on images, with what stands behind the image. What is said of `logs.image` by `log` stands in `logs.log.said`.
static COMMANDS: [(&str, &str); 4] = [("recover", ""), ("tree", ""), ("log", "1"), ("fsck", "")];

// Adds a file's name before `.frang`, where it ends so.
fn add_script(alloc: Global, names: &mut BTreeSet<String>, file: &str) -> anyhow::Result<()> {
    if let Some(name) = file.strip_suffix(".frang") {
        let name = String::from_str(alloc, name)?;
        names.insert(name)?;
    }
    Ok(())
}

// The names of the scripts in this folder, in order of their bytes.
fn script_names<R: Runtime>(rt: &R, alloc: Global) -> anyhow::Result<BTreeSet<String>> {
    let mut names = BTreeSet::new(alloc);
    for entry in fs::read_dir(rt, ".")? {
        let entry = entry?;
        add_script(alloc, &mut names, entry.file_name())?;
    }
    Ok(names)
}

fn lines_said(alloc: Global, acts: &[Act]) -> anyhow::Result<Vec<u8>> {
    let mut text = Vec::new(alloc);
    for act in acts {
        if let Act::Said(line) = act {
            text.extend_from_slice(line.as_slice())?;
        }
    }
    Ok(text)
}

// The sentence of a status, where there is memory for it.
fn sentence_of(alloc: Global, status: &Status) -> String {
    match status.sentence(alloc) {
        Ok(sentence) => sentence,
        Err(_) => String::new(alloc),
    }
}

// What the program says on standard error of a status; where memory is short, without its sentence.
fn explained(alloc: Global, status: &Status) -> anyhow::Result<String> {
    let (code, line, at) = (status.code, status.line, status.at);
    if code == 0 {
        return Ok(String::new(alloc));
    }
    let sentence = sentence_of(alloc, status);
    let words = sentence.as_str();
    Ok(format!(in alloc; "frang: status {code} line {line} at {at}\nfrang: {words}\n")?)
}

// The lines said, and then what is said on standard error.
fn told_by(alloc: Global, status: &Status, acts: &[Act]) -> anyhow::Result<Vec<u8>> {
    let mut text = lines_said(alloc, acts)?;
    text.extend_from_slice(explained(alloc, status)?.as_bytes())?;
    Ok(text)
}

// The words of a line, parted by blanks.
fn words_of(alloc: Global, line: &str) -> anyhow::Result<Vec<String>> {
    let mut words = Vec::new(alloc);
    for word in line.split_whitespace() {
        words.push(String::from_str(alloc, word)?)?;
    }
    Ok(words)
}

// Whether a call with the words of this line tells this.
fn is_told<R: Threads + Wait + Sync, F: Files>(
    rt: &R,
    alloc: Global,
    files: &mut F,
    line: &str,
    wanted: &[u8],
) -> anyhow::Result<bool> {
    let words = words_of(alloc, line)?;
    is_told_by(rt, alloc, files, &words, wanted)
}

fn is_told_by<R: Threads + Wait + Sync, F: Files>(
    rt: &R,
    alloc: Global,
    files: &mut F,
    words: &[String],
    wanted: &[u8],
) -> anyhow::Result<bool> {
    let (status, out) = frang(rt, alloc, words, files, MemOutside::new(alloc), &NoGate);
    let text = told_by(alloc, &status, out.acts())?;
    Ok(text.as_slice() == wanted)
}

// Whether a call with the words of this line says what the text has, and then what its status means.
fn is_as_said<R: Threads + Wait + Sync, F: Files>(
    rt: &R,
    alloc: Global,
    files: &mut F,
    line: &str,
    told: &str,
) -> anyhow::Result<bool> {
    match files.read(alloc, told, u64::MAX) {
        Ok(wanted) => is_told(rt, alloc, files, line, &wanted),
        Err(_) => Ok(false),
    }
}

fn is_run_as_said<R: Threads + Wait + Sync, F: Files>(
    rt: &R,
    alloc: Global,
    files: &mut F,
    name: &str,
) -> anyhow::Result<bool> {
    let line = format!(in alloc; "run {name}.frang --order 0")?;
    let told = format!(in alloc; "{name}.said")?;
    is_as_said(rt, alloc, files, line.as_str(), told.as_str())
}

fn is_image_as_said<R: Threads + Wait + Sync, F: Files>(
    rt: &R,
    alloc: Global,
    files: &mut F,
    name: &str,
    command: &str,
    last: &str,
) -> anyhow::Result<bool> {
    let line = format!(in alloc; "{command} {name}.image {last}")?;
    let told = format!(in alloc; "{name}.{command}.said")?;
    is_as_said(rt, alloc, files, line.as_str(), told.as_str())
}

// Prints whether an example is as said, and gives that.
fn report<R: Runtime>(rt: &R, example: &str, is_as_said: bool) -> anyhow::Result<bool> {
    if is_as_said {
        println!(rt; "{example} is as said")?;
    } else {
        println!(rt; "{example} differs")?;
    }
    Ok(is_as_said)
}

// Prints whether what a command says of an image is as said, and gives that.
fn report_image<R: Runtime + Threads + Wait + Sync, F: Files>(
    rt: &R,
    alloc: Global,
    files: &mut F,
    name: &str,
    command: &str,
    last: &str,
) -> anyhow::Result<bool> {
    let same = is_image_as_said(rt, alloc, files, name, command, last)?;
    let example = format!(in alloc; "{name} {command}")?;
    report(rt, example.as_str(), same)
}

fn are_images_as_said<R: Runtime + Threads + Wait + Sync, F: Files>(
    rt: &R,
    alloc: Global,
    files: &mut F,
) -> anyhow::Result<bool> {
    let mut all = true;
    for name in IMAGES {
        for (command, last) in COMMANDS {
            all &= report_image(rt, alloc, files, name, command, last)?;
        }
    }
    Ok(all)
}

fn are_scripts_as_said<R: Runtime + Threads + Wait + Sync, F: Files>(
    rt: &R,
    alloc: Global,
    files: &mut F,
) -> anyhow::Result<bool> {
    let mut all = true;
    for name in &script_names(rt, alloc)? {
        let same = is_run_as_said(rt, alloc, files, name.as_str())?;
        all &= report(rt, name.as_str(), same)?;
    }
    Ok(all)
}

fn are_all_as_said<R: Runtime + Threads + Wait + Send + Sync>(
    rt: &R,
    alloc: Global,
) -> anyhow::Result<bool> {
    let mut files = DirFiles::new(rt.clone()?);
    let scripts = are_scripts_as_said(rt, alloc, &mut files)?;
    let images = are_images_as_said(rt, alloc, &mut files)?;
    Ok(scripts && images)
}

fn main(rt: HostRuntime) -> anyhow::Result<ExitCode> {
    let alloc = rt.alloc();
    if !are_all_as_said(&rt, alloc)? {
        return Ok(ExitCode::from(1));
    }
    run_program(alloc, &rt, &rt.stderr(), &rt.stdout())
}
