// What a status means, in words.
ghost use Rattle.std.specs.Prelude.{◌≡◌, IfOk, string_bytes};
ghost use Rattle.frang_top.specs.Sentences.{fault_with, fault_words, file_words, kind_words, sentence};

use crate::outcome::Status;
use frang_base::NoMemory;
use frang_base::limits::{
    SCRIPT_BYTES_MAX, SCRIPT_LINES_MAX, SERVERS, TARGET_BYTES_MAX, WRITE_BYTES_MAX,
};
use image_commands::fault_sentence;
use script_definitions::LineFault;
use std::alloc::Global;

/// The commands of the program, a line each: the words, and what they ask.
pub const COMMANDS: [&str; 6] = [
    "run SCRIPT [--image F] [--save F] [--order N] [--segments S] [--board N --board-to F]  runs a script on the disk of image F, or on a fresh one of S segments, 1 to 64 (else 16), on threads, or in the order of events that N picks, and saves the disk behind it; with --board a further thread reads N times, 1 to 1000, while it goes on, how many lines were said, answers, deaths and recoveries, which are written to a file",
    "recover IMAGE [--save F]  says what each log keeps and the tree of the replayed disk, saves it in F",
    "tree IMAGE  says the tree of an image's replayed disk",
    "log IMAGE SERVER  says the records of a log, 0 to 255",
    "fsck IMAGE  says the report of the check of an image's replayed disk, as a line of JSON",
    "soak N  runs 4,014 lines that N draws, of four servers on threads, and says how many were answered, how many of them ok, and the files of the tree with their bytes",
];

// The fault whose kind has this number.
fn fault_with(kind: u64) -> Option<LineFault>
    ensures { result ≡ fault_with kind }
{
    match kind {
        1 => Some(LineFault::NotText),
        2 => Some(LineFault::UnknownWord),
        3 => Some(LineFault::MissingWord),
        4 => Some(LineFault::ExtraWord),
        5 => Some(LineFault::BadNumber),
        6 => Some(LineFault::BadPath),
        7 => Some(LineFault::BadServer),
        8 => Some(LineFault::TooManyLines),
        9 => Some(LineFault::ScriptTooLong),
        10 => Some(LineFault::TextTooLong),
        11 => Some(LineFault::AfterHalt),
        _ => None,
    }
}

fn fault_words(alloc: Global, fault: LineFault) -> Result<String, NoMemory>
    ensures { IfOk result (λ text. string_bytes text ≡ fault_words fault) }
{
    let text = match fault {
        LineFault::NotText => {
            format!(in alloc; "not UTF-8, or a word with a control character")?
        }
        LineFault::UnknownWord => {
            format!(in alloc; "an unknown word where a command must stand")?
        }
        LineFault::MissingWord => format!(in alloc; "a word is missing")?,
        LineFault::ExtraWord => format!(in alloc; "a word too many")?,
        LineFault::BadNumber => format!(in alloc; "not a number, or out of range")?,
        LineFault::BadPath => format!(in alloc; "not a path")?,
        LineFault::BadServer => {
            let last = SERVERS - 1;
            format!(in alloc; "not a server, which are 0 to {last}")?
        }
        LineFault::TooManyLines => format!(in alloc; "more than {SCRIPT_LINES_MAX} lines")?,
        LineFault::ScriptTooLong => format!(in alloc; "more than {SCRIPT_BYTES_MAX} bytes")?,
        LineFault::TextTooLong => {
            format!(in alloc;
                "a text of more than {WRITE_BYTES_MAX} bytes, or a target of more than {TARGET_BYTES_MAX}"
            )?
        }
        LineFault::AfterHalt => format!(in alloc; "a command after halt")?,
    };
    Ok(text)
}

// The words for the kind of a script's first fault, by its number.
fn kind_words(alloc: Global, kind: u64) -> Result<String, NoMemory>
    ensures { IfOk result (λ text. string_bytes text ≡ kind_words kind) }
{
    match fault_with(kind) {
        Some(fault) => fault_words(alloc, fault),
        None => Ok(format!(in alloc; "an unknown fault")?),
    }
}

// The file that this number stands for.
fn file_words(line: u32) -> &'static str
    ensures { result.now ≡ file_words line }
{
    if line == 0 { "script" } else { "image" }
}

impl Status {
    /// What the status means, in one line of words without a line feed: for a bad script its first bad line and the fault, for a line that
    /// wasn't said the number of lines that were, for a damaged image what is wrong with it and where.
    pub fn sentence(&self, alloc: Global) -> Result<String, NoMemory>
        ensures { IfOk result (λ text. string_bytes text ≡ sentence self.now) }
    {
        let line = self.line;
        let at = self.at;
        let file = file_words(line);
        let text = match self.code {
            0 => format!(in alloc; "all was done")?,
            1 => {
                let fault = kind_words(alloc, at)?;
                let words = fault.as_str();
                format!(in alloc; "line {line}: {words}")?
            }
            2 => format!(in alloc; "the words are no command; the commands are")?,
            3 => format!(in alloc; "want of memory")?,
            4 => format!(in alloc; "the {file} can't be read")?,
            5 => format!(in alloc; "a line can't be said, after {at} lines")?,
            6 => {
                let fault = fault_sentence(alloc, u64::from(line), at, self.sector)?;
                let words = fault.as_str();
                format!(in alloc; "image: {words}")?
            }
            7 => format!(in alloc; "a file can't be written")?,
            8 => format!(in alloc; "the {file} has more than {at} bytes")?,
            9 => format!(in alloc; "the disk fails at sector {at}")?,
            _ => format!(in alloc; "an unknown status")?,
        };
        Ok(text)
    }
}
