// The figures of a run in a file.
ghost use Rattle.std.specs.Prelude.{◌≡◌, ◌≤◌, IfOk, string_bytes};
ghost use Rattle.frang_base.specs.declared.limits.TheConstants.{SEGMENTS_MAX};
ghost use Rattle.frang_outside.specs.Files.{NoneFell};
ghost use Rattle.command_words.specs.Views.{text_of};
ghost use Rattle.run_commands.specs.Running.{figures_line, figures_text};
ghost use Rattle.run_commands.specs.Steps.{WritesAndSaves, WritesFigures};

use crate::end::RunEnd;
use crate::running::save_asked;
use frang_base::NoMemory;
use frang_board::Figures;
use frang_outside::{FileFault, Files, Outside};
use std::alloc::Global;

fn figures_line(alloc: Global, figures: &Figures) -> Result<String, NoMemory>
    ensures { IfOk result (λ text. string_bytes text ≡ figures_line figures.now) }
{
    let said = figures.said;
    let answered = figures.answered;
    let dead = figures.dead;
    let recovered = figures.recovered;
    Ok(format!(in alloc; "{said} {answered} {dead} {recovered}\n")?)
}

// A line each.
fn figures_text(alloc: Global, list: &[Figures]) -> Result<String, NoMemory>
    ensures { IfOk result (λ text. string_bytes text ≡ figures_text list.now) }
{
    let mut text = String::new(alloc);
    for figures in list {
        let line = figures_line(alloc, figures)?;
        text.push_str(line.as_str())?;
    }
    Ok(text)
}

fn write_figures<F: Files>(
    alloc: Global,
    file: &str,
    list: &[Figures],
    files: &mut F,
) -> Result<(), RunEnd>
    ensures counts { NoneFell (F.state files.old) (F.state files.new) }
    ensures writes { WritesFigures (F.state files.old) (F.state files.new) file.now list.now result }
{
    let text = match figures_text(alloc, list) {
        Ok(text) => text,
        Err(NoMemory) => return Err(RunEnd::NoMemory),
    };
    match files.write(file, text.as_bytes()) {
        Ok(()) => Ok(()),
        Err(FileFault::Failed) => Err(RunEnd::WriteFailed),
        Err(FileFault::NoMemory) => Err(RunEnd::NoMemory),
        Err(FileFault::TooLong) => unreachable!(),
    }
}

/// Writes the figures to their file, and saves the disk behind that, where that is asked.
pub(crate) fn write_and_save<F: Files, O: Outside>(
    alloc: Global,
    file: &str,
    list: &[Figures],
    save: Option<&str>,
    segments: u32,
    files: &mut F,
    out: O,
) -> (RunEnd, O)
    requires { segments ≤ SEGMENTS_MAX }
    ensures { WritesAndSaves file.entry.now list.entry.now (text_of save.entry) segments (F.state files.old) (F.state files.new) (O.state out) (O.state result.1) result.0 }
{
    match write_figures(alloc, file, list, files) {
        Ok(()) => save_asked(alloc, save, segments, files, out),
        Err(end) => (end, out),
    }
}
