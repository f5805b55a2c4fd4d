// Bytes as a text that may stand in an SVG.
use frang_base::NoMemory;
use std::alloc::Global;

// Whether a character stands for itself: neither a control character nor one that XML doesn't have.
fn is_shown(c: char) -> bool {
    let code = c as u32;
    code >= 32 && (code < 127 || code > 159) && code != 0xfffe && code != 0xffff
}

/// Adds a text, with control characters spelled out.
pub fn push_text(text: &mut String, words: &str) -> Result<(), NoMemory> {
    for c in words.chars() {
        if is_shown(c) {
            text.push(c)?;
        } else {
            let code = c as u32;
            write!(text, "\\u{code:04x}")?;
        }
    }
    Ok(())
}

fn push_bytes(text: &mut String, bytes: &[u8]) -> Result<(), NoMemory> {
    for byte in bytes {
        let b = *byte;
        if b >= 32 && b < 127 {
            text.push(char::from(b))?;
        } else {
            write!(text, "\\x{b:02x}")?;
        }
    }
    Ok(())
}

/// The text of bytes: as it stands where it is UTF-8, but for control characters; else with bytes that aren't ASCII as two digits.
pub fn shown_text(alloc: Global, bytes: &[u8]) -> Result<String, NoMemory> {
    let mut text = String::new(alloc);
    match str::from_utf8(bytes) {
        Ok(words) => push_text(&mut text, words)?,
        Err(_) => push_bytes(&mut text, bytes)?,
    }
    Ok(text)
}

/// Adds a text with what XML reserves spelled out.
pub fn push_escaped(out: &mut String, text: &str) -> Result<(), NoMemory> {
    for c in text.chars() {
        match c {
            '&' => out.push_str("&amp;")?,
            '<' => out.push_str("&lt;")?,
            '>' => out.push_str("&gt;")?,
            '"' => out.push_str("&quot;")?,
            _ => out.push(c)?,
        }
    }
    Ok(())
}
