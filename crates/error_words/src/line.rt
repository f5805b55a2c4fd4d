// The word at fault of a line that is refused.
use frang_base::{NoMemory, PathFault, parse_path};
use script_definitions::LineFault;
use script_lang::{ReadFault, read_script};
use std::alloc::Global;

// The words of a line, parted by blanks.
fn words_of(alloc: Global, line: &str) -> Result<Vec<&str>, NoMemory> {
    let mut words = Vec::new(alloc);
    for word in line.split_whitespace() {
        words.push(word)?;
    }
    Ok(words)
}

fn is_number(word: &str) -> bool {
    word.as_bytes().iter().all(u8::is_ascii_digit)
}

// The number of the fault of these words as a line of their own, 0 where they have none.
fn kind_of(alloc: Global, words: &[&str]) -> Result<u8, NoMemory> {
    let line = joined(alloc, words)?;
    match read_script(alloc, line.as_bytes()) {
        Ok(_) => Ok(0),
        Err(ReadFault::Bad(fault)) => Ok(fault.kind),
        Err(ReadFault::NoMemory) => Err(NoMemory),
    }
}

fn joined(alloc: Global, words: &[&str]) -> Result<String, NoMemory> {
    let mut line = String::new(alloc);
    for word in words {
        line.push_str(word)?;
        line.push_str(" ")?;
    }
    Ok(line)
}

// Behind a server's number stands the command, and a word of the host's is the first.
fn unknown<'a>(words: &[&'a str]) -> Option<&'a str> {
    match words.first() {
        Some(first) if is_number(first) => words.get(1).copied(),
        first => first.copied(),
    }
}

fn is_path(alloc: Global, word: &str) -> Result<bool, NoMemory> {
    match parse_path(alloc, word.as_bytes()) {
        Ok(_) => Ok(true),
        Err(PathFault::NoMemory) => Err(NoMemory),
        Err(_) => Ok(false),
    }
}

// The first word behind the command that is no path.
fn no_path<'a>(alloc: Global, words: &[&'a str]) -> Result<Option<&'a str>, NoMemory> {
    for word in words.iter().skip(2) {
        if !is_path(alloc, word)? {
            return Ok(Some(*word));
        }
    }
    Ok(None)
}

// The words with a number in the place of one, which is a byte's too.
fn with_number<'a>(
    alloc: Global,
    words: &[&'a str],
    place: usize,
) -> Result<Vec<&'a str>, NoMemory> {
    let mut changed = Vec::new(alloc);
    for (at, word) in words.iter().enumerate() {
        changed.push(if at == place { "11" } else { *word })?;
    }
    Ok(changed)
}

// Whether a word would be right as a number: it is no path, and with one in its place the fault is another or none.
fn lacks_number(alloc: Global, words: &[&str], place: usize, word: &str) -> Result<bool, NoMemory> {
    if word.starts_with('/') {
        return Ok(false);
    }
    let changed = with_number(alloc, words, place)?;
    Ok(kind_of(alloc, &changed)? != LineFault::BadNumber.kind())
}

// The place of the first word behind the command.
fn first_behind(words: &[&str]) -> usize {
    match words.first() {
        Some(first) if is_number(first) => 2,
        _ => 1,
    }
}

// The first word that would be right as another number, or of several such the first that is none.
fn no_number<'a>(alloc: Global, words: &[&'a str]) -> Result<Option<&'a str>, NoMemory> {
    for (place, word) in words.iter().enumerate().skip(first_behind(words)) {
        if lacks_number(alloc, words, place, word)? {
            return Ok(Some(*word));
        }
    }
    Ok(words.iter().skip(3).find(|word| !is_number(word)).copied())
}

// The first word behind as many as would do.
fn extra<'a>(alloc: Global, words: &[&'a str]) -> Result<Option<&'a str>, NoMemory> {
    for count in 1..words.len() {
        if kind_of(alloc, &words[..count])? == 0 {
            return Ok(words.get(count).copied());
        }
    }
    Ok(None)
}

/// The word at fault of a line that alone is refused with a fault of this kind, by its number: an unknown word, one too many, what is no number, path or server. `None` where no one word is.
/// Its one refusal is want of memory.
pub fn word_at_fault(alloc: Global, line: &str, kind: u8) -> Result<Option<&str>, NoMemory> {
    let words = words_of(alloc, line)?;
    if kind == LineFault::UnknownWord.kind() {
        Ok(unknown(&words))
    } else if kind == LineFault::BadServer.kind() {
        Ok(words.first().copied())
    } else if kind == LineFault::BadPath.kind() {
        no_path(alloc, &words)
    } else if kind == LineFault::BadNumber.kind() {
        no_number(alloc, &words)
    } else if kind == LineFault::ExtraWord.kind() {
        extra(alloc, &words)
    } else {
        Ok(None)
    }
}
