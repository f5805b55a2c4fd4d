// A run of the first machine that is watched.
ghost use Rattle.std.specs.Prelude.{◌<◌};

use crate::halting::Halting;
use frang_board::Figures;
use frang_hall::Finish;
use frang_outside::{MemOutside, NoGate};
use std::alloc::Global;
use std::process::Abort;
use std::rt::HostRuntime;
use std::sync::Wait;
use std::test::Fail;
use std::thread::Threads;
use watched_hall::run_machine_watched;

// So many workers answer it, and it is read so often.
fn run(
    rt: &(impl Abort + Threads + Wait + Sync),
    alloc: Global,
    workers: u8,
    reads: u32,
) -> Result<(), Fail>
    requires { 0 < workers }
{
    let (came, out) = run_machine_watched(
        rt,
        alloc,
        Halting::new(alloc),
        MemOutside::new(alloc),
        workers,
        &NoGate,
        reads,
    );
    let (finish, figures) = came?;
    let told = finish
        == Finish {
            mute: false,
            fault: None,
            said: 1,
        };
    let last = figures.last().copied()
        == Some(Figures {
            said: 1,
            answered: 1,
            dead: 0,
            recovered: 0,
        });
    let acts = out.acts().len();
    assert!(rt; told && last && figures.len() == reads as usize + 1 && acts == 1);
    Ok(())
}

// Whatever was read of a `halt` alone, the last figures are one answer.
#[test]
fn a_halt_is_watched(rt: HostRuntime) -> Result<(), Fail> {
    run(&rt, rt.alloc(), 1, 0)?;
    run(&rt, rt.alloc(), 2, 3)
}
