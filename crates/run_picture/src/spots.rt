// What is known of each said line before anything is drawn: its place, what it shows, and the words that tell of it.
use crate::moments::{Moment, moment_of};
use crate::struck::struck_of;
use crate::texts::{push_text, shown_text};
use frang_base::{Line, NoMemory, Said, Script};
use reply_text::write_line;
use std::alloc::Global;

/// The width of a gap between columns, in which the names of the lanes stand.
pub const NAME_GAP: u32 = 72;
// How many columns there are between two gaps.
const COLUMNS: usize = 100;

/// Whether there is a gap before the column of this number, from 0.
pub fn has_gap(column: usize) -> bool {
    column > 0 && column % COLUMNS == 0
}

/// A script, with its text line by line.
#[derive(Clone, Copy)]
pub struct Source<'a> {
    pub script: &'a Script,
    pub texts: &'a [&'a str],
}

/// A said line: where its column begins, what it shows, the words that tell of it, and whether it is an answer that a later recovery removes.
#[derive(Drop)]
pub struct Spot {
    pub x: u32,
    pub moment: Moment,
    pub title: String,
    pub struck: bool,
}

// The line of the script that a said line answers.
fn line_of<'a>(script: &'a Script, said: &Said) -> Option<&'a Line> {
    match said {
        Said::Answer { line: number, .. } => {
            let wanted = *number;
            let lines = script.as_slice();
            match lines.binary_search_by(|line| line.number.cmp(&wanted)) {
                Ok(place) => lines.get(place),
                Err(_) => None,
            }
        }
        _ => None,
    }
}

// The lines of the script that the said lines answer.
fn lines_of<'a>(
    alloc: Global,
    source: &Option<Source<'a>>,
    saids: &[Said],
) -> Result<Vec<Option<&'a Line>>, NoMemory> {
    let mut lines = Vec::new(alloc);
    for said in saids {
        match source {
            Some(source) => lines.push(line_of(source.script, said))?,
            None => lines.push(None)?,
        }
    }
    Ok(lines)
}

// Adds the text of the script's line with a number.
fn push_asked(source: &Option<Source>, number: u32, title: &mut String) -> Result<(), NoMemory> {
    let Some(source) = source else {
        return Ok(());
    };
    if let Some(text) = source.texts.get((number as usize).saturating_sub(1)) {
        title.push_str(" : ")?;
        push_text(title, text)?;
    }
    Ok(())
}

// The words that tell of a said line: itself, and the text of the script's line that it answers.
fn title_of(
    alloc: Global,
    source: &Option<Source>,
    said: &Said,
    line: Option<&Line>,
) -> Result<String, NoMemory> {
    let mut bytes = Vec::new(alloc);
    write_line(alloc, said, &mut bytes)?;
    // Its line feed stays out.
    bytes.truncate(bytes.len().saturating_sub(1));
    let mut title = shown_text(alloc, &bytes)?;
    if let Some(line) = line {
        push_asked(source, line.number, &mut title)?;
    }
    Ok(title)
}

/// The said lines, the first at a place and each other a step further, behind a gap where there is one; with the script, where it is given.
pub fn spots_of(
    alloc: Global,
    source: &Option<Source>,
    saids: &[Said],
    (first, step): (u32, u32),
) -> Result<Vec<Spot>, NoMemory> {
    let lines = lines_of(alloc, source, saids)?;
    let struck = struck_of(alloc, saids, &lines)?;
    let mut spots = Vec::new(alloc);
    let mut x = first;
    for (i, (said, line)) in saids.iter().zip(lines.iter()).enumerate() {
        if has_gap(i) {
            x = x.saturating_add(NAME_GAP);
        }
        spots.push(Spot {
            x,
            moment: moment_of(alloc, said, *line)?,
            title: title_of(alloc, source, said, *line)?,
            struck: struck.get(i).copied() == Some(true),
        })?;
        x = x.saturating_add(step);
    }
    Ok(spots)
}
