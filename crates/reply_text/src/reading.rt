// Said lines from bytes.
ghost use Rattle.std.specs.Prelude.{◌≡◌, IfOk, IfSome, IfNone, option_map, option_and_then};
ghost use Rattle.frang_base.specs.declared.reply.Reply.TheVariants as reply;
ghost use Rattle.frang_base.specs.declared.said.Said.{Said};
ghost use Rattle.frang_base.specs.declared.said.Said.TheVariants as said;
ghost use Rattle.tree_definitions.specs.SaidLines.{said_line};
ghost use Rattle.script_definitions.specs.Numerals.{count_at};
ghost use Rattle.std.specs.Option.{option_copied};
ghost use Rattle.frang_base.specs.PathText.{parts_left};
ghost use Rattle.script_definitions.specs.SaidReading.{IsProperSaid, sole, names_of, target_at, op_at, shown_of, reply_among, state_replies, place_replies, limit_replies, plain_at, full_at, nospace_of, short_reply_from, reply_from, reply_of, answer_of, by_of, recovering_of, keeps_of, recovered_of, note_from, first_of_parts, kind_from, node_from, said_from, said_in, without_feed, said_of};

use crate::parts::{
    is_end, is_path_text, is_target, log, name_list, op_number, point, same, server, sole_count,
    sole_part, sole_server, some_bytes, two_counts, who,
};
use frang_base::{NoMemory, OpNo, Reply, Said, ServerId, Text, cut};
use script_definitions::count;
use std::alloc::Global;

// A reply on the state of a server.
fn state_reply(word: &[u8]) -> Option<Reply>
    ensures { result ≡ reply_among state_replies word.now }
{
    if same(word, b"ok") {
        return Some(Reply::Ok);
    }
    if same(word, b"mounted") {
        return Some(Reply::Mounted);
    }
    if same(word, b"down") {
        return Some(Reply::Down);
    }
    if same(word, b"expired") {
        return Some(Reply::Expired);
    }
    if same(word, b"io") {
        return Some(Reply::Io);
    }
    if same(word, b"already") {
        return Some(Reply::Already);
    }
    None
}

// A reply on what stands at a path.
fn place_reply(word: &[u8]) -> Option<Reply>
    ensures { result ≡ reply_among place_replies word.now }
{
    if same(word, b"exist") {
        return Some(Reply::Exist);
    }
    if same(word, b"noent") {
        return Some(Reply::NoEnt);
    }
    if same(word, b"notdir") {
        return Some(Reply::NotDir);
    }
    if same(word, b"isdir") {
        return Some(Reply::IsDir);
    }
    if same(word, b"notempty") {
        return Some(Reply::NotEmpty);
    }
    if same(word, b"loop") {
        return Some(Reply::Loop);
    }
    None
}

// A reply on what isn't possible or within a limit.
fn limit_reply(word: &[u8]) -> Option<Reply>
    ensures { result ≡ reply_among limit_replies word.now }
{
    if same(word, b"inval") {
        return Some(Reply::Inval);
    }
    if same(word, b"mlink") {
        return Some(Reply::MLink);
    }
    if same(word, b"dirfull") {
        return Some(Reply::DirFull);
    }
    if same(word, b"badoffset") {
        return Some(Reply::BadOffset);
    }
    if same(word, b"toobig") {
        return Some(Reply::TooBig);
    }
    None
}

// The reply of this one word.
fn plain_reply(word: &[u8]) -> Option<Reply>
    ensures { result ≡ plain_at word.now }
{
    if let Some(reply) = state_reply(word) {
        return Some(reply);
    }
    if let Some(reply) = place_reply(word) {
        return Some(reply);
    }
    limit_reply(word)
}

// What there is no space for.
fn full_reply(word: &[u8]) -> Option<Reply>
    ensures { result ≡ full_at word.now }
{
    match word {
        b"inode" => Some(Reply::NoInode),
        b"dir" => Some(Reply::NoDirBlock),
        b"large" => Some(Reply::NoLarge),
        _ => None,
    }
}

// What follows `nospace`.
fn nospace_reply(rest: Option<&[u8]>) -> Option<Reply>
    ensures { result ≡ first_of_parts nospace_of (parts_left 32 (option_copied rest.entry)) }
{
    let (word, rest) = cut(rest?, b' ');
    if same(word, b"data") {
        let m = sole_count(rest)?;
        return Some(Reply::NoBlock { m });
    }
    if !is_end(rest) {
        return None;
    }
    full_reply(word)
}

// A reply with numbers, or of one word.
fn short_reply(word: &[u8], rest: Option<&[u8]>) -> Option<Reply>
    ensures { result ≡ short_reply_from word.now (parts_left 32 (option_copied rest.entry)) }
{
    if same(word, b"file") {
        let (size, links) = two_counts(rest, b' ')?;
        return Some(Reply::File { size, links });
    }
    if same(word, b"dir") {
        let entries = sole_count(rest)?;
        return Some(Reply::Dir { entries });
    }
    if same(word, b"link") {
        let len = sole_count(rest)?;
        return Some(Reply::Symlink { len });
    }
    if same(word, b"time") {
        let (run, tick) = point(sole_part(rest, b' ')?)?;
        return Some(Reply::Time { run, tick });
    }
    if same(word, b"nospace") {
        return nospace_reply(rest);
    }
    if !is_end(rest) {
        return None;
    }
    plain_reply(word)
}

// The bytes that are shown: none, or those of the one part that is left.
fn shown_reply(alloc: Global, rest: Option<&[u8]>) -> Result<Option<Reply>, NoMemory>
    ensures { IfOk result (λ r. r ≡ option_map reply.Shown (shown_of (parts_left 32 (option_copied rest.entry)))) }
{
    if is_end(rest) {
        return Ok(Some(Reply::Shown(Text::new(alloc))));
    }
    let Some(digits) = sole_part(rest, b' ') else {
        return Ok(None);
    };
    match some_bytes(alloc, digits)? {
        Some(bytes) => Ok(Some(Reply::Shown(bytes))),
        None => Ok(None),
    }
}

fn names_reply(alloc: Global, rest: Option<&[u8]>) -> Result<Option<Reply>, NoMemory>
    ensures { IfOk result (λ r. r ≡ option_map reply.Names (names_of (parts_left 32 (option_copied rest.entry)))) }
{
    match name_list(alloc, rest)? {
        Some(names) => Ok(Some(Reply::Names(names))),
        None => Ok(None),
    }
}

fn target_reply(alloc: Global, rest: Option<&[u8]>) -> Result<Option<Reply>, NoMemory>
    ensures { IfOk result (λ r. r ≡ option_map reply.Target (sole target_at (parts_left 32 (option_copied rest.entry)))) }
{
    match sole_part(rest, b' ') {
        Some(target) if is_target(target) => {
            let target = Text::of(alloc, target)?;
            Ok(Some(Reply::Target(target)))
        }
        _ => Ok(None),
    }
}

// A reply, all that is left.
fn read_reply(alloc: Global, rest: Option<&[u8]>) -> Result<Option<Reply>, NoMemory>
    ensures { IfOk result (λ r. r ≡ reply_of (parts_left 32 (option_copied rest.entry))) }
{
    let Some(left) = rest else {
        return Ok(None);
    };
    let (word, rest) = cut(left, b' ');
    if same(word, b"data") {
        return shown_reply(alloc, rest);
    }
    if same(word, b"names") {
        return names_reply(alloc, rest);
    }
    if same(word, b"target") {
        return target_reply(alloc, rest);
    }
    Ok(short_reply(word, rest))
}

// After the number of a line: who was asked, and the reply.
fn read_answer(alloc: Global, line: u32, rest: Option<&[u8]>) -> Result<Option<Said>, NoMemory>
    ensures { IfOk result (λ s. s ≡ answer_of line (parts_left 32 (option_copied rest.entry))) }
{
    let Some(left) = rest else {
        return Ok(None);
    };
    let (part, rest) = cut(left, b' ');
    let Some(server) = who(part) else {
        return Ok(None);
    };
    match read_reply(alloc, rest)? {
        Some(reply) => Ok(Some(Said::Answer {
            server,
            line,
            reply,
        })),
        None => Ok(None),
    }
}

// By whom a server is recovered.
fn read_by(rest: Option<&[u8]>) -> Option<ServerId>
    ensures { result ≡ by_of (parts_left 32 (option_copied rest.entry)) }
{
    let (word, rest) = cut(rest?, b' ');
    if !same(word, b"by") {
        return None;
    }
    who(sole_part(rest, b' ')?)
}

fn read_recovering(rest: Option<&[u8]>) -> Option<Said>
    ensures { result ≡ recovering_of (parts_left 32 (option_copied rest.entry)) }
{
    let (part, rest) = cut(rest?, b' ');
    let server = server(part)?;
    let by = read_by(rest)?;
    Some(Said::Recovering { server, by })
}

// What a recovered log kept.
fn read_keeps(rest: Option<&[u8]>) -> Option<OpNo>
    ensures { result ≡ keeps_of (parts_left 32 (option_copied rest.entry)) }
{
    let (word, rest) = cut(rest?, b' ');
    if !same(word, b"keeps") {
        return None;
    }
    op_number(sole_part(rest, b' ')?)
}

fn read_recovered(rest: Option<&[u8]>) -> Option<Said>
    ensures { result ≡ recovered_of (parts_left 32 (option_copied rest.entry)) }
{
    let (part, rest) = cut(rest?, b' ');
    let server = log(part)?;
    let keeps = read_keeps(rest)?;
    Some(Said::Recovered { server, keeps })
}

// A note by its first word.
fn note(word: &[u8], rest: Option<&[u8]>) -> Option<Said>
    ensures { result ≡ note_from word.now (parts_left 32 (option_copied rest.entry)) }
{
    if same(word, b"dead") {
        let server = sole_server(rest)?;
        return Some(Said::Dead { server });
    }
    if same(word, b"recovering") {
        return read_recovering(rest);
    }
    if same(word, b"recovered") {
        return read_recovered(rest);
    }
    if same(word, b"renewed") {
        let server = sole_server(rest)?;
        return Some(Said::Renewed { server });
    }
    if same(word, b"backup") {
        let line = sole_count(rest)?;
        return Some(Said::Backup { line });
    }
    if same(word, b"locks") {
        let line = sole_count(rest)?;
        return Some(Said::Locks { line });
    }
    if same(word, b"end") && is_end(rest) {
        return Some(Said::End);
    }
    None
}

// What follows `!`.
fn read_note(rest: Option<&[u8]>) -> Option<Said>
    ensures { result ≡ first_of_parts note_from (parts_left 32 (option_copied rest.entry)) }
{
    let (word, rest) = cut(rest?, b' ');
    note(word, rest)
}

// What follows the path of a node: its kind, size and links.
fn node_kind(rest: Option<&[u8]>) -> Option<(u8, u32, u32)>
    ensures { result ≡ first_of_parts kind_from (parts_left 32 (option_copied rest.entry)) }
{
    let (word, rest) = cut(rest?, b' ');
    if same(word, b"file") {
        let (size, links) = two_counts(rest, b' ')?;
        return Some((1, size, links));
    }
    if same(word, b"dir") {
        let entries = sole_count(rest)?;
        return Some((2, entries, 0));
    }
    if same(word, b"link") {
        let len = sole_count(rest)?;
        return Some((3, len, 0));
    }
    None
}

// What follows `=`.
fn read_node(alloc: Global, rest: Option<&[u8]>) -> Result<Option<Said>, NoMemory>
    ensures { IfOk result (λ s. s ≡ first_of_parts node_from (parts_left 32 (option_copied rest.entry))) }
{
    let Some(left) = rest else {
        return Ok(None);
    };
    let (path, rest) = cut(left, b' ');
    if !is_path_text(path) {
        return Ok(None);
    }
    let Some((kind, size, links)) = node_kind(rest) else {
        return Ok(None);
    };
    let path = Text::of(alloc, path)?;
    Ok(Some(Said::Node {
        path,
        kind,
        size,
        links,
    }))
}

fn read_redo(rest: Option<&[u8]>) -> Option<Said>
    ensures { result ≡ option_map said.Redo (sole op_at (parts_left 32 (option_copied rest.entry))) }
{
    let op = op_number(sole_part(rest, b' ')?)?;
    Some(Said::Redo { op })
}

fn read_numbered(
    alloc: Global,
    number: &[u8],
    rest: Option<&[u8]>,
) -> Result<Option<Said>, NoMemory>
    ensures { IfOk result (λ s. s ≡ option_and_then (λ line. answer_of line (parts_left 32 (option_copied rest.entry))) (count_at number.now)) }
{
    match count(number) {
        Some(line) => read_answer(alloc, line, rest),
        None => Ok(None),
    }
}

// The line that a text without its line feed is.
fn read_text(alloc: Global, text: &[u8]) -> Result<Option<Said>, NoMemory>
    ensures { IfOk result (λ s. s ≡ said_in text.now) }
{
    let (part, rest) = cut(text, b' ');
    if same(part, b"!") {
        return Ok(read_note(rest));
    }
    if same(part, b"=") {
        return read_node(alloc, rest);
    }
    if same(part, b"#") {
        return Ok(read_redo(rest));
    }
    read_numbered(alloc, part, rest)
}

fn without_feed(bytes: &[u8]) -> Option<&[u8]>
    ensures { option_copied result ≡ without_feed bytes.now }
{
    match bytes {
        [text @ .., b'\n'] => Some(text),
        _ => None,
    }
}

fn read_said(alloc: Global, bytes: &[u8]) -> Result<Option<Said>, NoMemory>
    ensures { IfOk result (λ s. s ≡ said_of bytes.now) }
{
    match without_feed(bytes) {
        Some(text) => read_text(alloc, text),
        None => Ok(None),
    }
}

/// The line that these bytes are, with its line feed. `None` exactly where they are the bytes of no line that can be said; report
/// lines are none.
pub fn read_line(alloc: Global, bytes: &[u8]) -> Result<Option<Said>, NoMemory>
    ensures exact { IfOk result (λ s. s ≡ said_of bytes.now) }
    // What is read can be said, and these are its bytes.
    ensures found { IfOk result (λ r. IfSome r (λ s. IsProperSaid s × (said_line s ≡ bytes.now))) }
    // Where nothing is read, they are the bytes of no line that can be said.
    ensures none { IfOk result (λ r. IfNone r ((s : Said) → IsProperSaid s → said_line s ≡ bytes.now → ⊥)) }
{
    match read_said(alloc, bytes)? {
        Some(said) => Ok(Some(said)),
        None => Ok(None),
    }
}
