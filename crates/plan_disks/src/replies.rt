// Replies in words, as answers say them.
use frang_base::{NoMemory, Reply, Said, ServerId};
use reply_text::write_line;
use std::alloc::Global;

// The bytes `0 0 ` before the reply to line 0 of server 0.
const BEFORE_REPLY: usize = 4;

/// Adds the words of a reply. Its one refusal is want of memory.
pub fn add_reply(alloc: Global, text: &mut String, reply: &Reply) -> Result<(), NoMemory> {
    let line = line_of(alloc, reply)?;
    add_words(text, &line)
}

// The line that says the reply.
fn line_of(alloc: Global, reply: &Reply) -> Result<Vec<u8>, NoMemory> {
    let reply = reply.try_copy()?;
    let answer = Said::Answer {
        line: 0,
        server: ServerId(0),
        reply,
    };
    let mut line = Vec::new(alloc);
    write_line(alloc, &answer, &mut line)?;
    Ok(line)
}

// What a line says after the line and the server that it answers.
fn add_words(text: &mut String, line: &[u8]) -> Result<(), NoMemory> {
    for byte in line.iter().skip(BEFORE_REPLY) {
        if *byte != b'\n' {
            text.push(char::from(*byte))?;
        }
    }
    Ok(())
}
