// The said lines of a text.
use frang_base::{NoMemory, Said};
use reply_text::read_line;
use std::alloc::Global;

/// Why a text isn't one of said lines: want of memory, or the number of the first line, from 1, that can't be said.
#[derive(Clone, Copy, Debug, PartialEq, Eq)]
pub enum SaidFault {
    NoMemory,
    Bad { line: u64 },
}

impl From<NoMemory> for SaidFault {
    fn from(_: NoMemory) -> Self {
        SaidFault::NoMemory
    }
}

// Adds the line of these bytes. `None` where they are none that can be said.
fn push_line(alloc: Global, text: &[u8], saids: &mut Vec<Said>) -> Result<Option<()>, NoMemory> {
    match read_line(alloc, text)? {
        Some(said) => {
            saids.push(said)?;
            Ok(Some(()))
        }
        None => Ok(None),
    }
}

/// The said lines that bytes are, each with its line feed. What follows the last line feed is no line.
pub fn read_saids(alloc: Global, bytes: &[u8]) -> Result<Vec<Said>, SaidFault> {
    let mut saids = Vec::new(alloc);
    let mut text = Vec::new(alloc);
    let mut line = 1u64;
    for byte in bytes {
        push_byte(&mut text, *byte)?;
        if *byte == b'\n' {
            if push_line(alloc, &text, &mut saids)?.is_none() {
                return Err(SaidFault::Bad { line });
            }
            text.clear();
            line = line.saturating_add(1);
        }
    }
    if !text.is_empty() {
        return Err(SaidFault::Bad { line });
    }
    Ok(saids)
}

fn push_byte(text: &mut Vec<u8>, byte: u8) -> Result<(), NoMemory> {
    text.push(byte)?;
    Ok(())
}
