// The forms by which tests show what was read: words, and numbers and texts behind blanks.
use frang_base::{NoMemory, Script};
use script_lang::{ReadFault, read_script};
use std::alloc::Global;

/// Adds a word.
pub fn add(word: &[u8], to: &mut Vec<u8>) -> Result<(), NoMemory> {
    to.extend_from_slice(word)?;
    Ok(())
}

/// Adds a blank and a text.
pub fn add_text(text: &[u8], to: &mut Vec<u8>) -> Result<(), NoMemory> {
    to.push(b' ')?;
    add(text, to)
}

/// Adds a blank and a number.
pub fn add_number(alloc: Global, n: u64, to: &mut Vec<u8>) -> Result<(), NoMemory> {
    let text = format!(in alloc; " {n}")?;
    add(text.as_bytes(), to)
}

/// The script of these bytes, or the line and the kind of its first fault. Want of memory has neither.
pub fn read(alloc: Global, script: &[u8]) -> Result<Script, (u32, u8)> {
    match read_script(alloc, script) {
        Ok(script) => Ok(script),
        Err(ReadFault::Bad(fault)) => Err((fault.line, fault.kind)),
        Err(ReadFault::NoMemory) => Err((0, 0)),
    }
}
