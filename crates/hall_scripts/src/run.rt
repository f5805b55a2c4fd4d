// A run of a machine on a disk.
ghost use Rattle.std.specs.Prelude.{◌≡◌, ◌<◌, IsTrue, List};
ghost use Rattle.core_definitions.specs.Runs.{first_state};
ghost use Rattle.core_definitions.specs.Settings.{setting_of};
ghost use Rattle.frang_base.specs.declared.script.Line.{Line};
ghost use Rattle.frang_hall.specs.Finishing.{Ran};
ghost use Rattle.sector_bytes.specs.Sectors.{Sectors};
ghost use Rattle.hall_scripts.specs.Runs.{Ends, IsOpened, Opens, beginning_of, came_to, may_begin, opened_by};

use crate::disk::StartDisk;
use crate::fault::RunFault;
use frang_base::NoMemory;
use frang_hall::{Finish, Machine, run_drawn, run_machine};
use frang_outside::{Gate, Outside};
use opening::{OpenFault, open_fresh, open_image};
use std::sync::Wait;
use std::thread::Threads;

// How the opening ended.
fn opened_by(opened: Result<(), OpenFault>) -> Result<(), RunFault>
    ensures { result ≡ opened_by opened }
{
    match opened {
        Ok(()) => Ok(()),
        Err(OpenFault::Failed { sector }) => Err(RunFault::Fault { sector }),
        Err(OpenFault::NoMemory) => Err(RunFault::NoMemory),
    }
}

// Puts the opening of a disk.
fn open_disk<O: Outside>(out: &mut O, disk: StartDisk<'_>) -> Result<(), OpenFault>
    requires { IsTrue (may_begin disk) }
    ensures { IsOpened disk.entry (O.state out.old) (O.state out.new) result }
{
    match disk {
        StartDisk::Fresh { segments } => open_fresh(out, segments),
        StartDisk::Image { param, disk } => open_image(out, &param, disk),
    }
}

/// The same of an outside that is handed back.
pub(crate) fn open<O: Outside>(mut out: O, disk: StartDisk<'_>) -> (Result<(), RunFault>, O)
    requires { IsTrue (may_begin disk) }
    ensures { Opens (beginning_of disk.entry) (O.state out) (O.state result.1) result.0 }
{
    let opened = open_disk(&mut out, disk);
    (opened_by(opened), out)
}

// Runs a machine: in an order of events that a number picks, or on threads.
fn run_in<R: Threads + Wait + Sync, M: Machine + Send, O: Outside + Send, G: Gate + Sync>(
    rt: &R,
    machine: M,
    order: Option<u64>,
    workers: u8,
    out: O,
    gate: &G,
) -> (Result<Finish, NoMemory>, O)
    requires workers { 0 < workers }
    requires first { M.stands machine (first_state (M.setting machine) (O.state out).sectors) }
    ensures ran { Ran (M.setting machine) (O.state out) (O.state result.1) result.0 }
{
    match order {
        Some(order) => run_drawn(rt, machine, out, order),
        None => run_machine(rt, machine, out, workers, gate),
    }
}

/// What a finish tells.
pub(crate) fn came_to(finish: Result<Finish, NoMemory>) -> Result<(), RunFault>
    ensures { result ≡ came_to finish }
{
    match finish {
        Err(NoMemory) => Err(RunFault::NoMemory),
        Ok(
            Finish {
                mute: true,
                said,
                ..
            },
        ) => Err(RunFault::Mute { said }),
        Ok(
            Finish {
                mute: false,
                fault: Some(sector),
                ..
            },
        ) => Err(RunFault::Fault { sector }),
        Ok(
            Finish {
                mute: false,
                fault: None,
                ..
            },
        ) => Ok(()),
    }
}

/// Opens a disk, and runs a machine from there.
pub(crate) fn run_from<
    R: Threads + Wait + Sync,
    M: Machine + Send,
    O: Outside + Send,
    G: Gate + Sync,
>(
    rt: &R,
    machine: M,
    disk: StartDisk<'_>,
    order: Option<u64>,
    workers: u8,
    out: O,
    gate: &G,
) -> (Result<(), RunFault>, O)
    requires disk { IsTrue (may_begin disk) }
    requires workers { 0 < workers }
    requires first { (sectors : Sectors) → M.stands machine (first_state (M.setting machine) sectors) }
    ensures { (script : List Line) → M.setting machine ≡ setting_of script (beginning_of disk.entry).segments (beginning_of disk.entry).run → Ends script (beginning_of disk.entry) (O.state out) (O.state result.1) result.0 }
{
    let (opened, out) = open(out, disk);
    match opened {
        Ok(()) => {
            let (finish, out) = run_in(rt, machine, order, workers, out, gate);
            (came_to(finish), out)
        }
        Err(fault) => (Err(fault), out),
    }
}
