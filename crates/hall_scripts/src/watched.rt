// A run of a machine on a disk that is watched.
ghost use Rattle.std.specs.Prelude.{◌≡◌, ◌<◌, IsTrue, List};
ghost use Rattle.core_definitions.specs.Runs.{first_state};
ghost use Rattle.core_definitions.specs.Settings.{setting_of};
ghost use Rattle.frang_base.specs.declared.script.Line.{Line};
ghost use Rattle.sector_bytes.specs.Sectors.{Sectors};
ghost use Rattle.hall_scripts.specs.Runs.{beginning_of, may_begin};
ghost use Rattle.hall_scripts.specs.Watched.{EndsWatched, figures_read};

use crate::disk::StartDisk;
use crate::fault::RunFault;
use crate::run::{came_to, open};
use frang_base::NoMemory;
use frang_board::Figures;
use frang_hall::{Finish, Machine};
use frang_outside::{Gate, Outside};
use std::alloc::Global;
use std::sync::Wait;
use std::thread::Threads;
use watched_hall::run_machine_watched;

// The figures that were read, where the run came to its end.
fn figures_read(came: Result<(Finish, Vec<Figures>), NoMemory>) -> Result<Vec<Figures>, RunFault>
    ensures { result ≡ figures_read came }
{
    match came {
        Err(NoMemory) => Err(RunFault::NoMemory),
        Ok((finish, figures)) => match came_to(Ok(finish)) {
            Ok(()) => Ok(figures),
            Err(fault) => Err(fault),
        },
    }
}

/// Opens a disk, and runs a machine from there on threads, watched by so many reads.
pub(crate) fn watch_from<
    R: Threads + Wait + Sync,
    M: Machine + Send,
    O: Outside + Send,
    G: Gate + Sync,
>(
    rt: &R,
    alloc: Global,
    machine: M,
    disk: StartDisk<'_>,
    reads: u32,
    workers: u8,
    out: O,
    gate: &G,
) -> (Result<Vec<Figures>, RunFault>, O)
    requires disk { IsTrue (may_begin disk) }
    requires workers { 0 < workers }
    requires first { (sectors : Sectors) → M.stands machine (first_state (M.setting machine) sectors) }
    ensures { (script : List Line) → M.setting machine ≡ setting_of script (beginning_of disk.entry).segments (beginning_of disk.entry).run → EndsWatched script (beginning_of disk.entry) (O.state out) (O.state result.1) reads result.0 }
{
    let (opened, out) = open(out, disk);
    match opened {
        Ok(()) => {
            let (came, out) = run_machine_watched(rt, alloc, machine, out, workers, gate, reads);
            (figures_read(came), out)
        }
        Err(fault) => (Err(fault), out),
    }
}
