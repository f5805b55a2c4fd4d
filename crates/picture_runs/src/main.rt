//! Draws runs of 1, 4 and 16 servers, and lines with names that an SVG must spell out, and prints for each what of its picture holds: that no two
//! words overlap, that all lies within it, and that its text is well-formed; and for a run whose recovery removes answers, how many are struck out.
#![tactic(auto)]

mod xml;

use crate::xml::is_well_formed;
use frang_base::limits::SCRIPT_BYTES_MAX;
use frang_base::{NoMemory, Said, Text};
use frang_outside::{DirFiles, Files};
use run_picture::{
    LABEL_HEIGHT, Label, Picture, Role, SaidFault, Source, picture, read_saids, svg,
};
use script_lang::read_script;
use std::alloc::Global;

// The runs, by their names before `.said` and `.frang`.
static RUNS: [&str; 3] = ["servers_1", "servers_4", "servers_16"];

fn overlap(a: &Label, b: &Label) -> bool {
    a.x < b.x.saturating_add(b.width)
        && b.x < a.x.saturating_add(a.width)
        && a.y < b.y.saturating_add(LABEL_HEIGHT)
        && b.y < a.y.saturating_add(LABEL_HEIGHT)
}

// Whether a label overlaps one of those from a place on.
fn overlaps_any(label: &Label, labels: &[Label], from: usize) -> bool {
    labels.iter().skip(from).any(|other| overlap(label, other))
}

// Whether no two labels overlap.
fn lie_apart(labels: &[Label]) -> bool {
    for (i, label) in labels.iter().enumerate() {
        if overlaps_any(label, labels, i.saturating_add(1)) {
            return false;
        }
    }
    true
}

// Whether all bars and labels lie within the picture.
fn lies_within(drawn: &Picture) -> bool {
    drawn.labels.iter().all(|l| l.x.saturating_add(l.width) <= drawn.width && l.y <= drawn.height)
        && drawn.bars.iter().all(|b| {
            b.x.saturating_add(b.width) <= drawn.width
                && b.y.saturating_add(b.height) <= drawn.height
        })
}

// What holds of a picture.
fn told_of(alloc: Global, name: &str, drawn: &Picture) -> Result<String, NoMemory> {
    let text = svg(alloc, drawn)?;
    let apart = lie_apart(&drawn.labels);
    let within = lies_within(drawn);
    let formed = is_well_formed(alloc, text.as_bytes())?;
    Ok(format!(in alloc; "{name}: apart {apart}, within {within}, well-formed {formed}")?)
}

// Reads the said lines of a run; none where they can't be read.
fn saids_of(alloc: Global, bytes: &[u8]) -> Result<Vec<Said>, NoMemory> {
    match read_saids(alloc, bytes) {
        Ok(saids) => Ok(saids),
        Err(SaidFault::Bad { .. }) => Ok(Vec::new(alloc)),
        Err(SaidFault::NoMemory) => Err(NoMemory),
    }
}

// The picture of a run's lines with its script; none where it is a bad script.
fn drawn_run(alloc: Global, lines: &[u8], bytes: &[u8]) -> Result<Option<Picture>, NoMemory> {
    let saids = saids_of(alloc, lines)?;
    match read_script(alloc, bytes) {
        Ok(script) => {
            let source = Source {
                script: &script,
                texts: &[],
            };
            Ok(Some(picture(alloc, &saids, Some(source))?))
        }
        Err(_) => Ok(None),
    }
}

// What holds of the picture of a run's lines with its script.
fn told_of_run(alloc: Global, name: &str, lines: &[u8], bytes: &[u8]) -> Result<String, NoMemory> {
    match drawn_run(alloc, lines, bytes)? {
        Some(drawn) => told_of(alloc, name, &drawn),
        None => Ok(format!(in alloc; "{name}: a bad script")?),
    }
}

// The same, of a run by its name; its files lie here.
fn told_of_files<F: Files>(alloc: Global, files: &mut F, name: &str) -> Result<String, NoMemory> {
    let said = format!(in alloc; "{name}.said")?;
    let frang = format!(in alloc; "{name}.frang")?;
    let limit = SCRIPT_BYTES_MAX as u64;
    let Ok(lines) = files.read(alloc, said.as_str(), limit) else {
        return Ok(format!(in alloc; "{name}: no lines")?);
    };
    let Ok(bytes) = files.read(alloc, frang.as_str(), limit) else {
        return Ok(format!(in alloc; "{name}: no script")?);
    };
    told_of_run(alloc, name, &lines, &bytes)
}

fn push_node(alloc: Global, saids: &mut Vec<Said>, path: &[u8]) -> Result<(), NoMemory> {
    let mut text = Text::new(alloc);
    for byte in path {
        text.push(*byte)?;
    }
    saids.push(Said::Node {
        path: text,
        kind: 1,
        size: 0,
        links: 1,
    })?;
    Ok(())
}

// Lines of a tree whose paths XML doesn't take as they stand: with what it reserves, what is no UTF-8, and characters that it doesn't have.
fn nodes(alloc: Global) -> Result<Vec<Said>, NoMemory> {
    let mut saids = Vec::new(alloc);
    push_node(alloc, &mut saids, b"/<a&\"b'>")?;
    push_node(alloc, &mut saids, b"/]]>")?;
    push_node(alloc, &mut saids, b"/\xff\xc3")?;
    push_node(alloc, &mut saids, b"/\xef\xbf\xbf\xc2\x85")?;
    Ok(saids)
}

fn told_of_names(alloc: Global) -> Result<String, NoMemory> {
    let saids = nodes(alloc)?;
    let drawn = picture(alloc, &saids, None)?;
    told_of(alloc, "names", &drawn)
}

// A run whose recovery keeps its second line: the fourth, which is the first behind it that changes the tree, is removed, and so is the fifth.
static REMOVED_SCRIPT: &[u8] = b"0 mount\n0 create /a\n0 sync\n0 create /b\n0 crash\n";

static REMOVED_LINES: &[u8] =
    b"1 0 mounted\n2 0 ok\n3 0 ok\n4 0 ok\n! dead 0\n5 0 ok\n! recovering 0 by -\n! recovered 0 keeps 1.2\n= / dir 1\n= /a file 0 1\n! end\n";

// How many marks are struck out, beside the one in the legend.
fn struck_in(drawn: &Picture) -> usize {
    drawn
        .bars
        .iter()
        .filter(|bar| bar.role == Role::Struck)
        .count()
        .saturating_sub(1)
}

fn told_of_removal(alloc: Global) -> Result<String, NoMemory> {
    match drawn_run(alloc, REMOVED_LINES, REMOVED_SCRIPT)? {
        Some(drawn) => {
            let struck = struck_in(&drawn);
            Ok(format!(in alloc; "removed: {struck} of 5")?)
        }
        None => Ok(format!(in alloc; "removed: a bad script")?),
    }
}

fn print_told(rt: &HostRuntime, told: Result<String, NoMemory>) -> anyhow::Result<()> {
    match told {
        Ok(text) => println!(rt; "{text}")?,
        Err(NoMemory) => println!(rt; "want of memory")?,
    }
    Ok(())
}

fn main(rt: HostRuntime) -> anyhow::Result<()> {
    let alloc = rt.alloc();
    let mut files = DirFiles::new(rt.clone()?);
    for name in RUNS {
        print_told(&rt, told_of_files(alloc, &mut files, name))?;
    }
    print_told(&rt, told_of_names(alloc))?;
    print_told(&rt, told_of_removal(alloc))
}
