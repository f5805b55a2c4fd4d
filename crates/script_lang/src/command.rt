// What a line asks.
ghost use Rattle.std.specs.Prelude.{◌≡◌};
ghost use Rattle.std.specs.List.{list_all};
ghost use Rattle.std.specs.Str.{bytes_eq};
ghost use Rattle.script_definitions.specs.Numerals.{is_digit};
ghost use Rattle.script_definitions.specs.ScriptWords.{words_of, word_text, word_among, server_word, symlink_of, write_of, fill_of, truncate_of, read_of, writes_of, crash_of, op_with, op_of, host_op_of, server_of, server_line, host_line, asked_of};
ghost use Rattle.script_lang.specs.Answers.{Gives};
ghost use Rattle.script_lang.specs.Words.{alone};

use crate::arguments::{byte, number, offset, path, path_alone, paths, text};
use crate::refusal::Refusal;
use crate::words::{four_words, next_word, no_words, one_word, three_words, two_words};
use frang_base::limits::{
    FILE_BYTES_MAX, LINE_TICKS_MAX, READ_BYTES_MAX, SERVERS, TARGET_BYTES_MAX, WRITE_BYTES_MAX,
};
use frang_base::{HostOp, Op, ServerId, What};
use script_definitions::{Asked, LineFault, ServerWord, number_within};
use std::alloc::Global;

// The greatest number of a write at which a server may be told to die.
const WRITES_MAX: u32 = 1_000_000;

// Words that a path follows alone.
const PATH_WORDS: [ServerWord; 8] = [
    ServerWord::Create,
    ServerWord::Mkdir,
    ServerWord::Unlink,
    ServerWord::Rmdir,
    ServerWord::Stat,
    ServerWord::List,
    ServerWord::Readlink,
    ServerWord::Time,
];

// Words that a path and more follow.
const LONGER_WORDS: [ServerWord; 7] = [
    ServerWord::Link,
    ServerWord::Rename,
    ServerWord::Symlink,
    ServerWord::Write,
    ServerWord::Fill,
    ServerWord::Truncate,
    ServerWord::Read,
];

// Words that no path follows.
const BARE_WORDS: [ServerWord; 6] = [
    ServerWord::Sync,
    ServerWord::Mount,
    ServerWord::Unmount,
    ServerWord::Crash,
    ServerWord::Cut,
    ServerWord::Stall,
];

fn word_text(word: ServerWord) -> &'static [u8]
    ensures { result.now ≡ word_text word }
{
    match word {
        ServerWord::Create => b"create",
        ServerWord::Mkdir => b"mkdir",
        ServerWord::Unlink => b"unlink",
        ServerWord::Rmdir => b"rmdir",
        ServerWord::Stat => b"stat",
        ServerWord::List => b"list",
        ServerWord::Readlink => b"readlink",
        ServerWord::Time => b"time",
        ServerWord::Link => b"link",
        ServerWord::Rename => b"rename",
        ServerWord::Symlink => b"symlink",
        ServerWord::Write => b"write",
        ServerWord::Fill => b"fill",
        ServerWord::Truncate => b"truncate",
        ServerWord::Read => b"read",
        ServerWord::Sync => b"sync",
        ServerWord::Mount => b"mount",
        ServerWord::Unmount => b"unmount",
        ServerWord::Crash => b"crash",
        ServerWord::Cut => b"cut",
        ServerWord::Stall => b"stall",
    }
}

fn has_text(word: ServerWord, text: &[u8]) -> bool
    ensures { result ≡ bytes_eq text.now (word_text word) }
{
    text == word_text(word)
}

// The one of these words that has this text.
fn word_among(words: &[ServerWord], text: &[u8]) -> Option<ServerWord>
    ensures { result ≡ word_among words.now text.now }
{
    for word in words {
        if has_text(*word, text) {
            return Some(*word);
        }
    }
    None
}

fn server_word(text: &[u8]) -> Option<ServerWord>
    ensures { result ≡ server_word text.now }
{
    if let Some(found) = word_among(&PATH_WORDS, text) {
        return Some(found);
    }
    if let Some(found) = word_among(&LONGER_WORDS, text) {
        return Some(found);
    }
    word_among(&BARE_WORDS, text)
}

#[tactic(auto, unfolding(script_definitions::specs::ScriptWords::symlink_of))]
fn symlink(alloc: Global, words: &[u8]) -> Result<Op, Refusal>
    ensures { Gives (symlink_of (words_of words.now)) result }
{
    let (at, target) = two_words(words)?;
    let path = path(alloc, at)?;
    let target = text(alloc, target, TARGET_BYTES_MAX)?;
    Ok(Op::Symlink { path, target })
}

#[tactic(auto, unfolding(script_definitions::specs::ScriptWords::write_of))]
fn write(alloc: Global, words: &[u8]) -> Result<Op, Refusal>
    ensures { Gives (write_of (words_of words.now)) result }
{
    let (at, off, bytes) = three_words(words)?;
    let path = path(alloc, at)?;
    let off = offset(off)?;
    let bytes = text(alloc, bytes, WRITE_BYTES_MAX)?;
    Ok(Op::Write { path, off, bytes })
}

#[tactic(auto, unfolding(script_definitions::specs::ScriptWords::fill_of))]
fn fill(alloc: Global, words: &[u8]) -> Result<Op, Refusal>
    ensures { Gives (fill_of (words_of words.now)) result }
{
    let (at, off, len, digits) = four_words(words)?;
    let path = path(alloc, at)?;
    let off = offset(off)?;
    let len = number(len, 1, FILE_BYTES_MAX as u32)?;
    let byte = byte(digits)?;
    Ok(Op::Fill {
        path,
        off,
        len,
        byte,
    })
}

#[tactic(auto, unfolding(script_definitions::specs::ScriptWords::truncate_of))]
fn truncate(alloc: Global, words: &[u8]) -> Result<Op, Refusal>
    ensures { Gives (truncate_of (words_of words.now)) result }
{
    let (at, len) = two_words(words)?;
    let path = path(alloc, at)?;
    let len = offset(len)?;
    Ok(Op::Truncate { path, len })
}

#[tactic(auto, unfolding(script_definitions::specs::ScriptWords::read_of))]
fn read(alloc: Global, words: &[u8]) -> Result<Op, Refusal>
    ensures { Gives (read_of (words_of words.now)) result }
{
    let (at, off, len) = three_words(words)?;
    let path = path(alloc, at)?;
    let off = offset(off)?;
    let len = number(len, 1, READ_BYTES_MAX as u32)?;
    Ok(Op::Read { path, off, len })
}

// A count of writes.
fn writes(words: &[u8]) -> Result<u32, LineFault>
    ensures { result ≡ writes_of (words_of words.now) }
{
    number(one_word(words)?, 1, WRITES_MAX)
}

// At once, or at a write.
fn crash(words: &[u8]) -> Result<Op, LineFault>
    ensures { result ≡ crash_of (words_of words.now) }
{
    if next_word(words).is_none() {
        return Ok(Op::Crash);
    }
    let k = writes(words)?;
    Ok(Op::CrashAt { k })
}

// The server that a word of digits names.
#[tactic(auto, using(script_definitions::proofs::NumeralLaws::number_in_most))]
fn server(word: &[u8]) -> Result<ServerId, LineFault>
    ensures { result ≡ server_of word.now }
{
    match number_within(word, 0, SERVERS as u32 - 1) {
        Some(number) => Ok(ServerId(number as u8)),
        None => Err(LineFault::BadServer),
    }
}

// What needs no more words.
fn alone(op: Op, words: &[u8]) -> Result<Op, LineFault>
    ensures { result ≡ alone op (words_of words.now) }
{
    no_words(words)?;
    Ok(op)
}

// What a word asks with the words that follow it.
fn op_with(alloc: Global, word: ServerWord, words: &[u8]) -> Result<Op, Refusal>
    ensures { Gives (op_with word (words_of words.now)) result }
{
    match word {
        ServerWord::Create => path_alone(alloc, words).map(|path| Op::Create { path }),
        ServerWord::Mkdir => path_alone(alloc, words).map(|path| Op::Mkdir { path }),
        ServerWord::Unlink => path_alone(alloc, words).map(|path| Op::Unlink { path }),
        ServerWord::Rmdir => path_alone(alloc, words).map(|path| Op::Rmdir { path }),
        ServerWord::Stat => path_alone(alloc, words).map(|path| Op::Stat { path }),
        ServerWord::List => path_alone(alloc, words).map(|path| Op::List { path }),
        ServerWord::Readlink => path_alone(alloc, words).map(|path| Op::Readlink { path }),
        ServerWord::Time => path_alone(alloc, words).map(|path| Op::Time { path }),
        ServerWord::Link => paths(alloc, words).map(|(path, to)| Op::Link { path, to }),
        ServerWord::Rename => paths(alloc, words).map(|(path, to)| Op::Rename { path, to }),
        ServerWord::Symlink => symlink(alloc, words),
        ServerWord::Write => write(alloc, words),
        ServerWord::Fill => fill(alloc, words),
        ServerWord::Truncate => truncate(alloc, words),
        ServerWord::Read => read(alloc, words),
        ServerWord::Sync => Ok(alone(Op::Sync, words)?),
        ServerWord::Mount => Ok(alone(Op::Mount, words)?),
        ServerWord::Unmount => Ok(alone(Op::Unmount, words)?),
        ServerWord::Crash => Ok(crash(words)?),
        ServerWord::Cut => Ok(Op::CutAt { k: writes(words)? }),
        ServerWord::Stall => Ok(alone(Op::Stall, words)?),
    }
}

// What a server is asked.
fn op_of(alloc: Global, words: &[u8]) -> Result<Op, Refusal>
    ensures { Gives (op_of (words_of words.now)) result }
{
    let Some((word, rest)) = next_word(words) else {
        return Err(Refusal::Bad(LineFault::MissingWord));
    };
    match server_word(word) {
        Some(word) => op_with(alloc, word, rest),
        None => Err(Refusal::Bad(LineFault::UnknownWord)),
    }
}

// What the host is asked.
fn host_op(word: &[u8], words: &[u8]) -> Result<HostOp, LineFault>
    ensures { result ≡ host_op_of word.now (words_of words.now) }
{
    if word == b"barrier".as_slice() {
        no_words(words)?;
        return Ok(HostOp::Barrier);
    }
    if word == b"halt".as_slice() {
        no_words(words)?;
        return Ok(HostOp::Halt);
    }
    if word == b"tick".as_slice() {
        let n = number(one_word(words)?, 1, LINE_TICKS_MAX as u32)?;
        return Ok(HostOp::Tick { n });
    }
    Err(LineFault::UnknownWord)
}

fn server_line(alloc: Global, word: &[u8], words: &[u8]) -> Result<Asked, Refusal>
    ensures { Gives (server_line word.now (words_of words.now)) result }
{
    let who = server(word)?;
    let op = op_of(alloc, words)?;
    Ok(Asked {
        who,
        what: What::Server(op),
    })
}

fn host_line(word: &[u8], words: &[u8]) -> Result<Asked, LineFault>
    ensures { result ≡ host_line word.now (words_of words.now) }
{
    let op = host_op(word, words)?;
    Ok(Asked {
        who: ServerId::HOST,
        what: What::Host(op),
    })
}

fn are_digits(word: &[u8]) -> bool
    ensures { result ≡ list_all is_digit word.now }
{
    word.iter().all(|byte| byte.is_ascii_digit())
}

// What the words of a line ask.
pub fn asked(alloc: Global, line: &[u8]) -> Result<Asked, Refusal>
    ensures { Gives (asked_of (words_of line.now)) result }
{
    let Some((word, words)) = next_word(line) else {
        return Err(Refusal::Bad(LineFault::MissingWord));
    };
    if are_digits(word) {
        return server_line(alloc, word, words);
    }
    Ok(host_line(word, words)?)
}
