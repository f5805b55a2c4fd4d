// A script from bytes.
ghost use Rattle.std.specs.Prelude.{◌≡◌, ◌&&◌, ◌==◌, false, not, length, List, IfOk};
ghost use Rattle.std.specs.List.{list_any};
ghost use Rattle.std.specs.Str.{is_utf8};
ghost use Rattle.std.specs.Str.Lines.{lines};
ghost use Rattle.script_definitions.specs.ScriptWords.{is_blank, words_of};
ghost use Rattle.frang_base.specs.declared.script.Line.{Line};
ghost use Rattle.script_definitions.specs.ScriptGrammar.{IsScriptText};
ghost use Rattle.script_definitions.specs.ScriptText.{is_control, is_text, is_comment, is_skipped, judged, fault_at, numbered, script_from, script_of};
ghost use Rattle.tree_definitions.specs.Transcript.{is_halt};
ghost use Rattle.script_lang.specs.Answers.{Gives, GivesNumbered, IfBad};

use crate::command::asked;
use crate::refusal::{ReadFault, Refusal};
use crate::words::{is_blank, next_line, next_word};
use frang_base::limits::{SCRIPT_BYTES_MAX, SCRIPT_LINES_MAX};
use frang_base::{HostOp, Line, Script, What};
use script_definitions::{Asked, LineFault, ScriptFault};
use std::alloc::Global;

fn is_control(byte: u8) -> bool
    ensures { result ≡ is_control byte }
{
    byte < b' ' || byte == 127
}

fn any_control(line: &[u8]) -> bool
    ensures { result ≡ list_any (λ b. not (is_blank b) && is_control b) line.now }
{
    line.iter()
        .any(|byte| !is_blank(*byte) && is_control(*byte))
}

// Whether a word of the line has a byte that no word may have.
#[tactic(auto, using(crate::proofs::Texts::control_in_words))]
fn has_control(line: &[u8]) -> bool
    ensures { result ≡ list_any (λ word. list_any is_control word) (words_of line.now) }
{
    any_control(line)
}

#[tactic(auto, using(crate::proofs::Texts::utf8_found, crate::proofs::Texts::utf8_refused))]
fn is_utf8(line: &[u8]) -> bool
    ensures { result ≡ is_utf8 line.now }
{
    match str::from_utf8(line) {
        Ok(_) => true,
        Err(_) => false,
    }
}

fn is_text(line: &[u8]) -> bool
    ensures { result ≡ is_text line.now }
{
    is_utf8(line) && !has_control(line)
}

fn is_comment(line: &[u8]) -> bool
    ensures { result ≡ is_comment line.now }
{
    match line {
        [] => false,
        [first, ..] => *first == b'#',
    }
}

fn has_no_words(line: &[u8]) -> bool
    ensures { result ≡ (length (words_of line.now) == 0) }
{
    next_word(line).is_none()
}

fn is_skipped(line: &[u8]) -> bool
    ensures { result ≡ is_skipped line.now }
{
    is_comment(line) || has_no_words(line)
}

// What a line asks; nothing, where it is skipped.
fn judge(alloc: Global, line: &[u8], halted: bool) -> Result<Option<Asked>, Refusal>
    ensures { Gives (judged halted line.now) result }
{
    if is_skipped(line) {
        return Ok(None);
    }
    if !is_text(line) {
        return Err(Refusal::Bad(LineFault::NotText));
    }
    if halted {
        return Err(Refusal::Bad(LineFault::AfterHalt));
    }
    let asked = asked(alloc, line)?;
    Ok(Some(asked))
}

fn fault_at(line: u32, fault: LineFault) -> ScriptFault
    ensures { result ≡ fault_at line fault }
{
    ScriptFault {
        line,
        kind: fault.kind(),
    }
}

fn judge_numbered(
    alloc: Global,
    number: u32,
    line: &[u8],
    halted: bool,
) -> Result<Option<Asked>, ReadFault>
    ensures { GivesNumbered (numbered number (judged halted line.now)) result }
{
    match judge(alloc, line, halted) {
        Ok(asked) => Ok(asked),
        Err(Refusal::Bad(fault)) => Err(ReadFault::Bad(fault_at(number, fault))),
        Err(Refusal::NoMemory) => Err(ReadFault::NoMemory),
    }
}

fn is_halt(what: &What) -> bool
    ensures { result ≡ is_halt what.now }
{
    match what {
        What::Host(HostOp::Halt) => true,
        _ => false,
    }
}

#[tactic(auto, using(crate::proofs::ReadingLines::skipped_turn, crate::proofs::ReadingLines::asked_turn, crate::proofs::ReadingLines::bad_turn, crate::proofs::ReadingLines::many_turn, crate::proofs::ReadingLines::end_turn))]
fn read_lines(alloc: Global, bytes: &[u8]) -> Result<Script, ReadFault>
    ensures { GivesNumbered (script_from 1 false (lines bytes.now)) result }
{
    let mut script = Script::new(alloc);
    let mut halted = false;
    let mut number = 0u32;
    let mut rest = bytes;
    while let Some((line, after)) = next_line(rest) {
        number += 1;
        if number > SCRIPT_LINES_MAX {
            return Err(ReadFault::Bad(fault_at(number, LineFault::TooManyLines)));
        }
        rest = after;
        let Some(asked) = judge_numbered(alloc, number, line, halted)? else {
            continue;
        };
        halted = halted || is_halt(&asked.what);
        script.push(Line {
            number,
            who: asked.who,
            what: asked.what,
        })?;
    }
    Ok(script)
}

/// The script of these bytes. `Bad` comes exactly where they are none, with the first bad line, counted from 1, and the kind of
/// its first fault; more than 1,048,576 bytes are kind 9 at line 0. What is read takes memory in proportion to the bytes.
#[tactic(auto, using(crate::proofs::ScriptAnswers::read_found, crate::proofs::ScriptAnswers::read_none))]
pub fn read_script(alloc: Global, bytes: &[u8]) -> Result<Script, ReadFault>
    ensures exact { GivesNumbered (script_of bytes.now) result }
    // What is read is in the grammar.
    ensures found { IfOk result (λ script. IsScriptText bytes.now script) }
    // Bad bytes are no script of the grammar.
    ensures none { IfBad result ((script : List Line) → IsScriptText bytes.now script → ⊥) }
{
    if bytes.len() > SCRIPT_BYTES_MAX {
        return Err(ReadFault::Bad(fault_at(0, LineFault::ScriptTooLong)));
    }
    read_lines(alloc, bytes)
}
