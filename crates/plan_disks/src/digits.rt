// Bytes as text.
use frang_base::NoMemory;
use std::fmt::Write;

/// Adds bytes in hexadecimal digits; from four of the same byte on in short, as `(00*4)`. Its one refusal is want of memory.
pub(crate) fn add_digits(text: &mut String, bytes: &[u8]) -> Result<(), NoMemory> {
    let mut last = 0;
    let mut count = 0_usize;
    for byte in bytes {
        if *byte != last {
            add_run(text, last, count)?;
            count = 0;
        }
        last = *byte;
        count = count.saturating_add(1);
    }
    add_run(text, last, count)
}

// So many times the same byte.
fn add_run(text: &mut String, byte: u8, count: usize) -> Result<(), NoMemory> {
    if count > 3 {
        write!(text, "({byte:02x}*{count})")?;
        return Ok(());
    }
    for _ in 0..count {
        write!(text, "{byte:02x}")?;
    }
    Ok(())
}
