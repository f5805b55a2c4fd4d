// Runs of the first machine through the hall.
ghost use Rattle.std.specs.Prelude.{◌<◌};

use crate::halting::Halting;
use frang_hall::{Finish, run_machine};
use frang_outside::{MemOutside, NoGate};
use std::alloc::Global;
use std::process::Abort;
use std::rt::HostRuntime;
use std::sync::Wait;
use std::test::Fail;
use std::thread::Threads;

// So many workers answer it.
fn run(rt: &(impl Abort + Threads + Wait + Sync), alloc: Global, workers: u8) -> Result<(), Fail>
    requires { 0 < workers }
{
    let (finish, out) = run_machine(
        rt,
        Halting::new(alloc),
        MemOutside::new(alloc),
        workers,
        &NoGate,
    );
    let told = finish?
        == Finish {
            mute: false,
            fault: None,
            said: 1,
        };
    let acts = out.acts().len();
    assert!(rt; told && acts == 1);
    Ok(())
}

// A script that is a `halt` alone says that it is answered, by one worker and by several.
#[test]
fn a_halt_is_answered(rt: HostRuntime) -> Result<(), Fail> {
    run(&rt, rt.alloc(), 1)?;
    run(&rt, rt.alloc(), 2)?;
    run(&rt, rt.alloc(), 3)
}
