// A run of a script on a disk.
ghost use Rattle.std.specs.Prelude.{IsTrue};
ghost use Rattle.script_places.specs.Placed.{ascends};
ghost use Rattle.hall_scripts.specs.Runs.{Ends, Leaves, beginning_of, may_begin};
ghost use Rattle.hall_scripts.specs.Watched.{EndsWatched};

use crate::disk::StartDisk;
use crate::fault::RunFault;
use crate::run::run_from;
use crate::watched::watch_from;
use crate::workers::workers_for;
use frang_base::{NoMemory, Script};
use frang_board::Figures;
use frang_outside::{Gate, Outside};
use hall_world::HallWorld;
use std::alloc::Global;
use std::sync::Wait;
use std::thread::Threads;

/// Runs a script on a fresh disk of so many segments, 1 to 64, or on that of an image as its next run, and hands the outside back. Where an order is given one worker runs it, and its
/// number picks the events; else as many threads as the script names servers, at least one, which call the gate. The numbers of the script's lines ascend. What the other sectors hold isn't
/// looked at; over sectors of zeros the run is one from the opening of that disk.
///
/// The memory of the world is taken first. Then the opening is put, and then the run is made.
pub fn run_script<R: Threads + Wait + Sync, O: Outside + Send, G: Gate + Sync>(
    rt: &R,
    alloc: Global,
    script: Script,
    disk: StartDisk<'_>,
    order: Option<u64>,
    out: O,
    gate: &G,
) -> (Result<(), RunFault>, O)
    requires script { IsTrue (ascends script) }
    requires disk { IsTrue (may_begin disk) }
    // Each result comes by its cause.
    ensures ends { Ends script (beginning_of disk.entry) (O.state out) (O.state result.1) result.0 }
    // Whatever the result, the outside has the opening's puts, or the first of them, and behind them what a run of the core leaves.
    ensures leaves { Leaves script (beginning_of disk.entry) (O.state out) (O.state result.1) }
{
    let workers = workers_for(script.as_slice());
    match HallWorld::new(alloc, script, disk.segments(), disk.run()) {
        Ok(machine) => run_from(rt, machine, disk, order, workers, out, gate),
        Err(NoMemory) => (Err(RunFault::NoMemory), out),
    }
}

/// The same on threads, watched by one worker more: so often it reads, while the run goes on, what the lines said come to, and after each read it calls the gate with the host's number and the
/// number of answers that it read. Where the run came to its end, what it read is given back, and behind that the figures of the whole run.
pub fn run_script_watched<R: Threads + Wait + Sync, O: Outside + Send, G: Gate + Sync>(
    rt: &R,
    alloc: Global,
    script: Script,
    disk: StartDisk<'_>,
    reads: u32,
    out: O,
    gate: &G,
) -> (Result<Vec<Figures>, RunFault>, O)
    requires script { IsTrue (ascends script) }
    requires disk { IsTrue (may_begin disk) }
    // Each result comes by its cause, and the figures are of the record of the run.
    ensures ends { EndsWatched script (beginning_of disk.entry) (O.state out) (O.state result.1) reads result.0 }
    // Whatever the result, the outside has the opening's puts, or the first of them, and behind them what a run of the core leaves.
    ensures leaves { Leaves script (beginning_of disk.entry) (O.state out) (O.state result.1) }
{
    let workers = workers_for(script.as_slice());
    match HallWorld::new(alloc, script, disk.segments(), disk.run()) {
        Ok(machine) => watch_from(rt, alloc, machine, disk, reads, workers, out, gate),
        Err(NoMemory) => (Err(RunFault::NoMemory), out),
    }
}
