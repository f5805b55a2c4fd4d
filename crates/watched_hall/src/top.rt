// The call that is given an outside and gives it back.
ghost use Rattle.std.specs.Prelude.{◌≡◌, ◌<◌};
ghost use Rattle.core_definitions.specs.Runs.{first_state};
ghost use Rattle.watched_hall.specs.Watching.{WatchedRun};

use crate::counted::Counted;
use crate::watch::run_watched;
use frang_base::NoMemory;
use frang_board::Figures;
use frang_hall::{Finish, Hall, Machine, Naming};
use frang_outside::{Gate, Outside};
use std::alloc::Global;
use std::marker::Brand;
use std::sync::Wait;
use std::thread::Threads;

/// Runs a machine on threads over this outside, watched by so many reads of what the lines said come to, and gives the outside back, with what was read and, behind that, the figures of the
/// whole record.
pub fn run_machine_watched<
    M: Machine + Send,
    O: Outside + Send,
    G: Gate + Sync,
    R: Threads + Wait + Sync,
>(
    rt: &R,
    alloc: Global,
    world: M,
    out: O,
    workers: u8,
    gate: &G,
    reads: u32,
) -> (Result<(Finish, Vec<Figures>), NoMemory>, O)
    requires workers { 0 < workers }
    requires first { M.stands world (first_state (M.setting world) (O.state out).sectors) }
    ensures { WatchedRun (M.setting world) (O.state out) (O.state result.1) reads result.0 }
{
    watched_named::<M, O, G, Brand, R>(rt, alloc, world, out, workers, gate, reads)
}

// The run, of a hall under a name.
fn watched_named<
    M: Machine + Send,
    O: Outside + Send,
    G: Gate + Sync,
    N: Naming + Send,
    R: Threads + Wait + Sync,
>(
    rt: &R,
    alloc: Global,
    world: M,
    out: O,
    workers: u8,
    gate: &G,
    reads: u32,
) -> (Result<(Finish, Vec<Figures>), NoMemory>, O)
    requires workers { 0 < workers }
    requires name { N.outset ≡ record { setting = M.setting world; outside = O.state out } }
    requires first { M.stands world (first_state (M.setting world) (O.state out).sectors) }
    ensures { WatchedRun N.outset.setting N.outset.outside (O.state result.1) reads result.0 }
{
    let hall: Hall<Counted<M>, O, N> = Hall::new(Counted::new(world), out);
    let (hall, came) = run_watched(rt, alloc, hall, workers, gate, reads);
    (came, hall.outside())
}
