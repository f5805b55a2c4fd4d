// A script run as it is asked.
ghost use Rattle.std.specs.Prelude.{◌≡◌, ◌≤◌, IsTrue, None, Some};
ghost use Rattle.frang_base.specs.declared.limits.TheConstants.{SEGMENTS_MAX};
ghost use Rattle.script_places.specs.Placed.{ascends};
ghost use Rattle.command_words.specs.Commands.{is_other_file};
ghost use Rattle.command_words.specs.Views.{MayRun, asks_of, board_of, text_of};
ghost use Rattle.hall_scripts.specs.Runs.{Leaves, beginning_of, may_begin};
ghost use Rattle.run_commands.specs.Running.{EndsRun, HasRun, IsComplete, IsScript, OnlySaves, run_end};
ghost use Rattle.run_commands.specs.Steps.{SavesAsked, save_end};

use crate::end::RunEnd;
use crate::figures::write_and_save;
use crate::images::disk_of_image;
use crate::scripts::script_of_file;
use command_words::{BoardChoice, DiskChoice, RunCommand};
use disk_saving::{SaveFault, save_disk};
use frang_base::Script;
use frang_outside::{Files, Gate, Outside};
use hall_scripts::{RunFault, StartDisk, run_script, run_script_watched};
use std::alloc::Global;
use std::sync::Wait;
use std::thread::Threads;

// How a run ended, where nothing is saved.
pub(crate) fn run_end(ended: Result<(), RunFault>) -> RunEnd
    ensures { result ≡ run_end ended }
{
    match ended {
        Ok(()) => RunEnd::Done,
        Err(RunFault::Mute { said }) => RunEnd::Mute { said },
        Err(RunFault::Fault { sector }) => RunEnd::Fault { sector },
        Err(RunFault::NoMemory) => RunEnd::NoMemory,
    }
}

// How a save ended.
fn save_end(saved: Result<(), SaveFault>) -> RunEnd
    ensures { result ≡ save_end saved }
{
    match saved {
        Ok(()) => RunEnd::Done,
        Err(SaveFault::Failed { sector }) => RunEnd::Fault { sector },
        Err(SaveFault::WriteFailed) => RunEnd::WriteFailed,
        Err(SaveFault::NoMemory) => RunEnd::NoMemory,
    }
}

/// Saves the disk, where that is asked.
pub(crate) fn save_asked<F: Files, O: Outside>(
    alloc: Global,
    save: Option<&str>,
    segments: u32,
    files: &mut F,
    mut out: O,
) -> (RunEnd, O)
    requires { segments ≤ SEGMENTS_MAX }
    ensures { SavesAsked (text_of save.entry) segments (F.state files.old) (F.state files.new) (O.state out) (O.state result.1) result.0 }
{
    match save {
        None => (RunEnd::Done, out),
        Some(name) => {
            let saved = save_disk(alloc, &mut out, segments, name, files);
            (save_end(saved), out)
        }
    }
}

// Runs a script on a disk, and saves the disk behind it, where that is asked.
fn run_unread<R: Threads + Wait + Sync, F: Files, O: Outside + Send, G: Gate + Sync>(
    rt: &R,
    alloc: Global,
    script: Script,
    disk: StartDisk<'_>,
    order: Option<u64>,
    save: Option<&str>,
    files: &mut F,
    out: O,
    gate: &G,
) -> (RunEnd, O)
    requires script { IsTrue (ascends script) }
    requires disk { IsTrue (may_begin disk) }
    ensures ends { EndsRun None (text_of save.entry) (F.state files.old) (F.state files.new) (O.state out) (O.state result.1) script (beginning_of disk.entry) result.0 }
    ensures leaves { Leaves script (beginning_of disk.entry) (O.state out) (O.state result.1) }
    ensures files { OnlySaves None (text_of save.entry) result.0 (F.state files.old).holds (F.state files.new).holds }
{
    let segments = disk.segments();
    let (ended, out) = run_script(rt, alloc, script, disk, order, out, gate);
    match ended {
        Ok(()) => save_asked(alloc, save, segments, files, out),
        Err(_) => (run_end(ended), out),
    }
}

// The same on threads, while its figures are read, which are written to their file before the disk is saved.
fn run_read<R: Threads + Wait + Sync, F: Files, O: Outside + Send, G: Gate + Sync>(
    rt: &R,
    alloc: Global,
    script: Script,
    disk: StartDisk<'_>,
    board: BoardChoice<'_>,
    save: Option<&str>,
    files: &mut F,
    out: O,
    gate: &G,
) -> (RunEnd, O)
    requires script { IsTrue (ascends script) }
    requires disk { IsTrue (may_begin disk) }
    requires other { IsTrue (is_other_file board.file.now (text_of save)) }
    ensures ends { EndsRun (Some (board_of board.entry)) (text_of save.entry) (F.state files.old) (F.state files.new) (O.state out) (O.state result.1) script (beginning_of disk.entry) result.0 }
    ensures leaves { Leaves script (beginning_of disk.entry) (O.state out) (O.state result.1) }
    ensures files { OnlySaves (Some (board_of board.entry)) (text_of save.entry) result.0 (F.state files.old).holds (F.state files.new).holds }
{
    let segments = disk.segments();
    let (ended, out) = run_script_watched(rt, alloc, script, disk, board.reads, out, gate);
    match ended {
        Ok(list) => write_and_save(alloc, board.file, &list, save, segments, files, out),
        Err(fault) => (run_end(Err(fault)), out),
    }
}

// Runs a script on a disk, and writes what is asked for behind it.
fn run_and_save<R: Threads + Wait + Sync, F: Files, O: Outside + Send, G: Gate + Sync>(
    rt: &R,
    alloc: Global,
    script: Script,
    disk: StartDisk<'_>,
    command: &RunCommand<'_>,
    files: &mut F,
    out: O,
    gate: &G,
) -> (RunEnd, O)
    requires script { IsTrue (ascends script) }
    requires disk { IsTrue (may_begin disk) }
    requires may { MayRun command.now }
    ensures ends { EndsRun (asks_of command.now).board (asks_of command.now).save (F.state files.old) (F.state files.new) (O.state out) (O.state result.1) script (beginning_of disk.entry) result.0 }
    ensures leaves { Leaves script (beginning_of disk.entry) (O.state out) (O.state result.1) }
    ensures files { OnlySaves (asks_of command.now).board (asks_of command.now).save result.0 (F.state files.old).holds (F.state files.new).holds }
{
    match command.board {
        None => run_unread(
            rt,
            alloc,
            script,
            disk,
            command.order,
            command.save,
            files,
            out,
            gate,
        ),
        Some(board) => run_read(
            rt,
            alloc,
            script,
            disk,
            board,
            command.save,
            files,
            out,
            gate,
        ),
    }
}

// Runs a script on the disk that is asked for.
fn run_on_disk<R: Threads + Wait + Sync, F: Files, O: Outside + Send, G: Gate + Sync>(
    rt: &R,
    alloc: Global,
    script: Script,
    command: &RunCommand<'_>,
    files: &mut F,
    out: O,
    gate: &G,
) -> (RunEnd, O)
    requires script { IsScript (F.state files.old).holds command.now.script.now script }
    requires ascends { IsTrue (ascends script) }
    requires may { MayRun command.now }
    ensures run { HasRun (asks_of command.now) (F.state files.old) (F.state files.new) (O.state out) (O.state result.1) result.0 }
    ensures files { OnlySaves (asks_of command.now).board (asks_of command.now).save result.0 (F.state files.old).holds (F.state files.new).holds }
{
    match command.disk {
        DiskChoice::Fresh { segments } => {
            let disk = StartDisk::Fresh { segments };
            run_and_save(rt, alloc, script, disk, command, files, out, gate)
        }
        DiskChoice::Image { image } => match disk_of_image(rt, alloc, image, files) {
            Ok(found) => {
                let disk = StartDisk::Image {
                    param: found.param,
                    disk: &found.disk,
                };
                run_and_save(rt, alloc, script, disk, command, files, out, gate)
            }
            Err(end) => (end, out),
        },
    }
}

/// Runs the script of a file as it is asked, and hands the outside back with how that ended: on a fresh disk or on that of an image, whose logs are replayed first, as its next run; in an
/// order of events that a number picks, or on threads, whose lines pass the gate. Where a name is given and the run came to its end, the disk that the outside then has is saved: the host
/// gets each sector of its regions, ascending, and the file is the image of that disk.
///
/// Where the figures of the run are asked for, one more worker reads so often, while it goes on, how many lines were said, how many of them answers, deaths and recoveries. Where the run came to
/// its end, what it read is written to the file, a line each, and behind it a line of the whole run's figures, before the disk is saved.
///
/// The script is read first, then the image; where either isn't there or isn't one, nothing is put or said. No file is written but those of the figures and of the saved disk, and these only where
/// the run came to its end.
pub fn run<R: Threads + Wait + Sync, F: Files, O: Outside + Send, G: Gate + Sync>(
    rt: &R,
    alloc: Global,
    command: &RunCommand<'_>,
    files: &mut F,
    out: O,
    gate: &G,
) -> (RunEnd, O)
    requires { MayRun command.now }
    ensures run { HasRun (asks_of command.now) (F.state files.old) (F.state files.new) (O.state out) (O.state result.1) result.0 }
    ensures files { OnlySaves (asks_of command.now).board (asks_of command.now).save result.0 (F.state files.old).holds (F.state files.new).holds }
    // Where all is there and nothing fails, all is done, unless memory is short.
    ensures complete { IsComplete (asks_of command.now) (F.state files.old) (F.state files.new) (O.state out) (O.state result.1) result.0 }
{
    run_asked(rt, alloc, command, files, out, gate)
}

// The same, but for what is there where all is.
fn run_asked<R: Threads + Wait + Sync, F: Files, O: Outside + Send, G: Gate + Sync>(
    rt: &R,
    alloc: Global,
    command: &RunCommand<'_>,
    files: &mut F,
    out: O,
    gate: &G,
) -> (RunEnd, O)
    requires { MayRun command.now }
    ensures run { HasRun (asks_of command.now) (F.state files.old) (F.state files.new) (O.state out) (O.state result.1) result.0 }
    ensures files { OnlySaves (asks_of command.now).board (asks_of command.now).save result.0 (F.state files.old).holds (F.state files.new).holds }
{
    match script_of_file(alloc, command.script, files) {
        Ok(script) => run_on_disk(rt, alloc, script, command, files, out, gate),
        Err(end) => (end, out),
    }
}
