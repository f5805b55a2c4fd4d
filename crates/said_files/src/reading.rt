// The said lines of a text.
ghost use Rattle.std.specs.Prelude.{◌+◌, ◌-◌, ◌^◌, ◌<◌, ◌≤◌, ℕ, List, [], ◌∷◌, IfOk};
ghost use Rattle.said_files.specs.Reading.{Answers, PushedLine, TakesByte, at_end, behind, saids_from};

use frang_base::{NoMemory, Said};
use reply_text::read_line;
use std::alloc::{AllocFailed, Global};

/// Why a text isn't one of said lines: want of memory, or the number of the first line, from 1, that can't be said.
#[derive(Clone, Copy, Debug, PartialEq, Eq)]
pub enum SaidFault {
    NoMemory,
    Bad { line: u64 },
}

impl From<NoMemory> for SaidFault {
    ghost use Rattle.std.specs.Prelude.{◌≡◌};
    ghost use Rattle.said_files.specs.declared.reading.SaidFault.TheVariants.{NoMemory as Want};

    ghost from_gives = { λ _ e. e ≡ Want };

    fn from(_: NoMemory) -> Self {
        SaidFault::NoMemory
    }
}

impl<T: Drop> From<AllocFailed<T>> for SaidFault {
    ghost use Rattle.std.specs.Prelude.{◌≡◌};
    ghost use Rattle.said_files.specs.declared.reading.SaidFault.TheVariants.{NoMemory as Want};

    ghost from_gives = { λ _ e. e ≡ Want };

    fn from(_: AllocFailed<T>) -> Self {
        SaidFault::NoMemory
    }
}

// Adds the line of these bytes, of this number.
fn push_line(alloc: Global, line: u64, text: &[u8], saids: &mut Vec<Said>) -> Result<(), SaidFault>
    ensures { PushedLine line text.now saids.old.items saids.new.items result }
{
    match read_line(alloc, text)? {
        Some(said) => {
            saids.push(said)?;
            Ok(())
        }
        None => Err(SaidFault::Bad { line }),
    }
}

// Takes a byte more of the line of this number: the number of the line of the byte behind it.
fn take_byte(
    alloc: Global,
    line: u64,
    byte: u8,
    text: &mut Vec<u8>,
    saids: &mut Vec<Said>,
) -> Result<u64, SaidFault>
    requires { line < 2 ^ 64 - 1 }
    ensures takes { (bytes : List ℕ) → TakesByte (behind saids.old.items (saids_from line text.old.items (byte ∷ bytes))) saids.new.items text.new.items bytes result }
    ensures few { IfOk result (λ next. next ≤ line + 1) }
{
    text.push(byte)?;
    if byte != b'\n' {
        return Ok(line);
    }
    push_line(alloc, line, text, saids)?;
    text.clear();
    Ok(line + 1)
}

// What stands behind the last line feed is no line.
fn end(line: u64, text: &[u8], saids: Vec<Said>) -> Result<Vec<Said>, SaidFault>
    ensures { Answers (behind saids.items (at_end line text.now)) result }
{
    if text.is_empty() {
        return Ok(saids);
    }
    Err(SaidFault::Bad { line })
}

/// The said lines that bytes are, each with its line feed. `Bad` comes exactly where a line is none that can be said, with the number of the
/// first such line; what follows the last line feed is one too.
pub fn read_saids(alloc: Global, bytes: &[u8]) -> Result<Vec<Said>, SaidFault>
    ensures { Answers (saids_from 1 [] bytes.now) result }
{
    let mut saids = Vec::new(alloc);
    let mut text = Vec::new(alloc);
    let mut line = 1u64;
    for byte in bytes {
        match take_byte(alloc, line, *byte, &mut text, &mut saids) {
            Ok(next) => line = next,
            Err(fault) => return Err(fault),
        }
    }
    end(line, &text, saids)
}
