// The calls that are given an outside and give it back.
ghost use Rattle.std.specs.Prelude.{◌≡◌, ◌<◌};
ghost use Rattle.core_definitions.specs.Runs.{first_state};
ghost use Rattle.frang_hall.specs.Finishing.{Ran};

use crate::hall::Hall;
use crate::machine::Machine;
use crate::name::Naming;
use crate::room::{Finish, run_order, run_threads};
use frang_base::NoMemory;
use frang_outside::{Gate, Outside};
use std::marker::Brand;
use std::sync::Wait;
use std::thread::Threads;

/// Runs a machine on threads over this outside, and gives the outside back.
pub fn run_machine<M: Machine + Send, O: Outside + Send, G: Gate + Sync, R: Threads + Wait + Sync>(
    rt: &R,
    world: M,
    out: O,
    workers: u8,
    gate: &G,
) -> (Result<Finish, NoMemory>, O)
    requires workers { 0 < workers }
    requires first { M.stands world (first_state (M.setting world) (O.state out).sectors) }
    ensures ran { Ran (M.setting world) (O.state out) (O.state result.1) result.0 }
{
    run_named::<M, O, G, Brand, R>(rt, world, out, workers, gate)
}

/// Runs a machine by one worker over this outside, in the order of events that this number picks, and gives the outside back. The gate is passed at once.
pub fn run_drawn<M: Machine, O: Outside, R: Wait>(
    rt: &R,
    world: M,
    out: O,
    order: u64,
) -> (Result<Finish, NoMemory>, O)
    requires first { M.stands world (first_state (M.setting world) (O.state out).sectors) }
    ensures ran { Ran (M.setting world) (O.state out) (O.state result.1) result.0 }
{
    drawn_named::<M, O, Brand, R>(rt, world, out, order)
}

// The run, of a hall under a name.
#[tactic(auto, using(crate::proofs::Turns::ran))]
fn run_named<
    M: Machine + Send,
    O: Outside + Send,
    G: Gate + Sync,
    N: Naming + Send,
    R: Threads + Wait + Sync,
>(rt: &R, world: M, out: O, workers: u8, gate: &G) -> (Result<Finish, NoMemory>, O)
    requires workers { 0 < workers }
    requires name { N.outset ≡ record { setting = M.setting world; outside = O.state out } }
    requires first { M.stands world (first_state (M.setting world) (O.state out).sectors) }
    ensures { Ran N.outset.setting N.outset.outside (O.state result.1) result.0 }
{
    let hall: Hall<M, O, N> = Hall::new(world, out);
    let (hall, finish) = run_threads(rt, hall, workers, gate);
    (finish, hall.outside())
}

// The run by one worker, of a hall under a name.
#[tactic(auto, using(crate::proofs::Turns::ran))]
fn drawn_named<M: Machine, O: Outside, N: Naming, R: Wait>(
    rt: &R,
    world: M,
    out: O,
    order: u64,
) -> (Result<Finish, NoMemory>, O)
    requires name { N.outset ≡ record { setting = M.setting world; outside = O.state out } }
    requires first { M.stands world (first_state (M.setting world) (O.state out).sectors) }
    ensures { Ran N.outset.setting N.outset.outside (O.state result.1) result.0 }
{
    let mut hall: Hall<M, O, N> = Hall::new(world, out);
    let finish = run_order(rt, &mut hall, order);
    (finish, hall.outside())
}
