// What a status means, said on standard error with the thing that is wrong. No contract speaks of it.
use command_line::command_of;
use command_words::{Command, DiskChoice, ImageCommand, RunCommand};
use error_words::{Wrong, what_is_wrong, word_at_fault};
use frang_base::NoMemory;
use frang_base::limits::SCRIPT_BYTES_MAX;
use frang_outside::{DirFiles, FileFault, Files};
use frang_top::{COMMANDS, Status};
use std::alloc::Global;
use std::fs;
use std::rt::Runtime;

// The kind of an image whose replayed disk stands for no tree.
const NO_TREE: u32 = 8;

// The files of a command: the script and the image that it reads, and the figures and the image that it writes.
#[derive(Clone, Copy)]
struct FilesOf<'a> {
    script: Option<&'a str>,
    image: Option<&'a str>,
    figures: Option<&'a str>,
    save: Option<&'a str>,
}

impl<'a> FilesOf<'a> {
    // The file of which a status speaks that names one by its line: the script by 0, and the image.
    fn told_by(&self, status: &Status) -> Option<&'a str> {
        if status.line == 0 {
            self.script
        } else {
            self.image
        }
    }
}

fn files_of_run<'a>(run: &RunCommand<'a>) -> FilesOf<'a> {
    let image = match run.disk {
        DiskChoice::Fresh { .. } => None,
        DiskChoice::Image { image } => Some(image),
    };
    FilesOf {
        script: Some(run.script),
        image,
        figures: run.board.map(|board| board.file),
        save: run.save,
    }
}

fn files_of<'a>(command: &Command<'a>) -> FilesOf<'a> {
    let (image, save) = match *command {
        Command::Run(run) => return files_of_run(&run),
        Command::OnImage(ImageCommand::Recover { image, save }) => (Some(image), save),
        Command::OnImage(
            ImageCommand::Tree { image }
            | ImageCommand::Log { image, .. }
            | ImageCommand::Fsck { image },
        ) => (Some(image), None),
        Command::Soak { .. } => (None, None),
    };
    FilesOf {
        script: None,
        image,
        figures: None,
        save,
    }
}

// The line of a text with this number, from 1, where it is UTF-8.
fn line_at(bytes: &[u8], number: u32) -> Option<&str> {
    let before = number.checked_sub(1)?;
    let line = bytes.split(|byte| *byte == b'\n').nth(before as usize)?;
    std::str::from_utf8(line).ok()
}

// The word at fault of a script's line.
fn fault_in(alloc: Global, bytes: &[u8], status: &Status) -> Result<Option<String>, NoMemory> {
    let (Some(line), Ok(kind)) = (line_at(bytes, status.line), u8::try_from(status.at)) else {
        return Ok(None);
    };
    match word_at_fault(alloc, line, kind)? {
        Some(word) => Ok(Some(String::from_str(alloc, word)?)),
        None => Ok(None),
    }
}

// Where memory is short nothing is told.
fn or_none(told: Result<Option<String>, NoMemory>) -> Option<String> {
    match told {
        Ok(told) => told,
        Err(NoMemory) => None,
    }
}

// The same of the script in a file.
fn script_fault<R: Runtime>(
    alloc: Global,
    rt: &R,
    name: &str,
    status: &Status,
) -> anyhow::Result<Option<String>> {
    let mut files = DirFiles::new(rt.clone()?);
    match files.read(alloc, name, SCRIPT_BYTES_MAX as u64) {
        Ok(bytes) => Ok(or_none(fault_in(alloc, &bytes, status))),
        Err(FileFault::Failed | FileFault::TooLong | FileFault::NoMemory) => Ok(None),
    }
}

// A file's name, and why it can't be read.
fn unread<R: Runtime>(alloc: Global, rt: &R, name: &str) -> anyhow::Result<Option<String>> {
    match fs::metadata(rt, name) {
        Ok(told) if told.is_dir() => Ok(Some(format!(in alloc; "{name}: it is a folder")?)),
        Ok(_) => Ok(Some(format!(in alloc; "{name}")?)),
        Err(error) => Ok(Some(format!(in alloc; "{name}: {error}")?)),
    }
}

// The file that can't be written, or the two of which one can't.
fn unwritten(alloc: Global, files: &FilesOf<'_>) -> anyhow::Result<Option<String>> {
    match (files.figures, files.save) {
        (Some(figures), Some(save)) => Ok(Some(format!(in alloc; "{figures} or {save}")?)),
        (Some(name), None) | (None, Some(name)) => Ok(Some(String::from_str(alloc, name)?)),
        (None, None) => Ok(None),
    }
}

// What is wrong with an image that a command reads.
fn image_fault(alloc: Global, name: &str, status: &Status) -> anyhow::Result<Option<String>> {
    if status.line == NO_TREE {
        Ok(Some(format!(in alloc; "frang fsck {name} tells what is wrong with it")?))
    } else {
        Ok(Some(String::from_str(alloc, name)?))
    }
}

// The thing that is wrong, of a command whose files these are.
fn thing<R: Runtime>(
    alloc: Global,
    rt: &R,
    files: &FilesOf<'_>,
    status: &Status,
) -> anyhow::Result<Option<String>> {
    if status.code == 7 {
        return unwritten(alloc, files);
    }
    let name = match status.code {
        1 => files.script,
        4 | 8 => files.told_by(status),
        6 => files.image,
        _ => None,
    };
    let Some(name) = name else {
        return Ok(None);
    };
    match status.code {
        1 => script_fault(alloc, rt, name, status),
        4 => unread(alloc, rt, name),
        6 => image_fault(alloc, name, status),
        _ => Ok(Some(String::from_str(alloc, name)?)),
    }
}

fn thing_by_words<R: Runtime>(
    alloc: Global,
    rt: &R,
    words: &[String],
    status: &Status,
) -> anyhow::Result<Option<String>> {
    match command_of(alloc, words) {
        Ok(Some(command)) => thing(alloc, rt, &files_of(&command), status),
        Ok(None) | Err(NoMemory) => Ok(None),
    }
}

// The sentence of a status, and behind it the thing that is wrong.
fn explain_sentence<R: Runtime>(
    alloc: Global,
    rt: &R,
    words: &[String],
    status: &Status,
) -> anyhow::Result<()> {
    let Ok(sentence) = status.sentence(alloc) else {
        return Ok(());
    };
    let sentence = sentence.as_str();
    match thing_by_words(alloc, rt, words, status)? {
        Some(thing) => {
            let thing = thing.as_str();
            eprintln!(rt; "frang: {sentence}: {thing}")?;
        }
        None => eprintln!(rt; "frang: {sentence}")?,
    }
    Ok(())
}

// The usage of the command that the words name, or of all.
fn show_usage<R: Runtime>(rt: &R, wrong: &Wrong) -> anyhow::Result<()> {
    if let Some(place) = wrong.command
        && place < COMMANDS.len()
    {
        let command = COMMANDS[place];
        eprintln!(rt; "frang {command}")?;
        return Ok(());
    }
    for command in COMMANDS {
        eprintln!(rt; "frang {command}")?;
    }
    Ok(())
}

// What is wrong with words that are no command, and how they are used.
fn explain_words<R: Runtime>(alloc: Global, rt: &R, words: &[String]) -> anyhow::Result<()> {
    let Ok(wrong) = what_is_wrong(alloc, words) else {
        return Ok(());
    };
    let text = wrong.text.as_str();
    eprintln!(rt; "frang: {text}")?;
    show_usage(rt, &wrong)
}

/// Says on standard error what a status that isn't 0 means: a line of numbers, and a line of words with the thing that is wrong, which is left out where memory is short; where the words are
/// no command, the command's usage.
pub(crate) fn explain<R: Runtime>(
    alloc: Global,
    rt: &R,
    words: &[String],
    status: &Status,
) -> anyhow::Result<()> {
    let (code, line, at) = (status.code, status.line, status.at);
    if code == 0 {
        return Ok(());
    }
    eprintln!(rt; "frang: status {code} line {line} at {at}")?;
    if code == 2 {
        explain_words(alloc, rt, words)
    } else {
        explain_sentence(alloc, rt, words, status)
    }
}
