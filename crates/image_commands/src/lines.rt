// The lines of a disk.
ghost use Rattle.std.specs.Prelude.{◌≡◌, ◌↔◌, ◌++◌, length, map, true, is_some, IfOk, OnOk};
ghost use Rattle.sector_bytes.specs.Sectors.{sectors_of, Sectors};
ghost use Rattle.disk_definitions.specs.Params.{param_in};
ghost use Rattle.disk_replay.specs.Laid.{AreGreatest};
ghost use Rattle.report_definitions.specs.Laws.{StandsForSome};
ghost use Rattle.image_commands.specs.Lines.{recovered_below, recovered_line, redo_line, IsCheck, IsLog};
ghost use Rattle.image_commands.specs.Recovered.{GivesRecovery, GivesReplayed};

use disk_definitions::Disk;
use disk_replay::{records_of, replay_in_place, replay_with_greatest};
use frang_base::limits::LOGS;
use frang_base::{NoMemory, OpNo, Redo, Said, ServerId};
use fsck_report::{check_sectors, report_line};
use std::alloc::Global;
use std::thread::Threads;

// Whether a disk stands for a tree.
fn stands<R: Threads + Sync>(rt: &R, alloc: Global, disk: &Disk) -> Result<bool, NoMemory>
    requires { is_some (param_in (sectors_of disk.now 0)) ≡ true }
    ensures { IfOk result (λ b. (b ≡ true) ↔ StandsForSome (sectors_of disk.now)) }
{
    let report = check_sectors(rt, alloc, disk)?;
    Ok(report.stands)
}

/// A disk once its logs are replayed, where it stands for a tree. `None` exactly where it stands for none.
pub fn sound_replay<R: Threads + Sync>(
    rt: &R,
    alloc: Global,
    disk: Disk,
) -> Result<Option<Disk>, NoMemory>
    requires { is_some (param_in (sectors_of disk 0)) ≡ true }
    ensures { IfOk result (GivesReplayed disk) }
{
    let new = replay_in_place(alloc, disk)?;
    let sound = stands(rt, alloc, &new)?;
    if !sound {
        return Ok(None);
    }
    Ok(Some(new))
}

// The lines of records, in order.
fn record_lines(alloc: Global, records: &[Redo]) -> Result<Vec<Said>, NoMemory>
    ensures { IfOk result (λ lines. lines.items ≡ map redo_line records.now) }
{
    let mut lines = Vec::new(alloc);
    for record in records {
        lines.push(Said::Redo { op: record.op })?;
    }
    Ok(lines)
}

/// The lines of the records of a log, and the end.
pub fn log_said(alloc: Global, disk: &Disk, server: u8) -> Result<Vec<Said>, NoMemory>
    ensures { IfOk result (λ lines. IsLog server disk.now lines.items) }
{
    let records = records_of(alloc, disk, ServerId(server))?;
    let mut lines = record_lines(alloc, &records)?;
    lines.push(Said::End)?;
    Ok(lines)
}

/// The line of the report of the check of a disk, once its logs are replayed.
pub fn check_said<R: Threads + Sync>(
    rt: &R,
    alloc: Global,
    disk: Disk,
) -> Result<Vec<Said>, NoMemory>
    requires { is_some (param_in (sectors_of disk 0)) ≡ true }
    ensures { IfOk result (λ lines. IsCheck disk lines.items) }
{
    let new = replay_in_place(alloc, disk)?;
    let report = check_sectors(rt, alloc, &new)?;
    let line = report_line(alloc, &report)?;
    let mut lines = Vec::new(alloc);
    lines.push(Said::Shown(line))?;
    Ok(lines)
}

// Adds the line of a log, where it held a record.
fn push_recovered(server: u8, greatest: Option<OpNo>, lines: &mut Vec<Said>) -> Result<(), NoMemory>
    ensures { OnOk result (lines.new.items ≡ lines.old.items ++ recovered_line server greatest) }
{
    match greatest {
        Some(keeps) => {
            lines.push(Said::Recovered {
                server: ServerId(server),
                keeps,
            })?;
            Ok(())
        }
        None => Ok(()),
    }
}

// The lines of the logs that held a record, ascending, by the greatest operation that each held.
fn recovered_said(alloc: Global, greatest: &[Option<OpNo>]) -> Result<Vec<Said>, NoMemory>
    requires { length greatest.now ≡ LOGS }
    ensures { IfOk result (λ lines. (sectors : Sectors) → AreGreatest LOGS sectors greatest.now → lines.items ≡ recovered_below sectors LOGS) }
{
    let mut lines = Vec::new(alloc);
    for server in 0..LOGS {
        push_recovered(server as u8, greatest[server], &mut lines)?;
    }
    Ok(lines)
}

/// A disk once its logs are replayed, with the lines of a recovery before those of its tree.
#[derive(Drop)]
pub struct Recovery {
    pub disk: Disk,
    pub before: Vec<Said>,
}

/// The replayed disk, where it stands for a tree, with the lines of the logs that hold a record. `None` exactly where it stands for no tree.
pub fn recovery_of<R: Threads + Sync>(
    rt: &R,
    alloc: Global,
    disk: Disk,
) -> Result<Option<Recovery>, NoMemory>
    requires { is_some (param_in (sectors_of disk 0)) ≡ true }
    ensures { IfOk result (GivesRecovery disk) }
{
    let replay = replay_with_greatest(alloc, disk)?;
    let before = recovered_said(alloc, &replay.greatest)?;
    let sound = stands(rt, alloc, &replay.disk)?;
    if !sound {
        return Ok(None);
    }
    Ok(Some(Recovery {
        disk: replay.disk,
        before,
    }))
}
