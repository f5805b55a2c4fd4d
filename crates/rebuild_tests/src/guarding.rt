// An empty table while server 2 is silent.
use frang_base::{LockId, Mode, NoMemory, ServerId};
use lock_rebuild::Guarded;
use lock_table::{LockTable, Wanted};
use std::alloc::Global;
use std::process::Abort;
use std::test::Fail;

const NODE: LockId = LockId::Node(9);

// The answers before and after the silent server was cleared, and whether the table then has the lock.
fn answers(alloc: Global) -> Result<(Wanted, Wanted, bool), NoMemory> {
    let mut guarded = Guarded::new(LockTable::new(alloc), &[ServerId(2)])?;
    let before = guarded.want(ServerId(0), NODE, Mode::Shared)?;
    guarded.cleared(ServerId(2));
    let after = guarded.want(ServerId(0), NODE, Mode::Shared)?;
    if guarded.is_any_silent() {
        return Ok((before, after, false));
    }
    let table = guarded.table();
    Ok((
        before,
        after,
        table.held(ServerId(0), NODE) == Some(Mode::Shared),
    ))
}

#[test]
fn a_silent_server_is_waited_for(rt: HostRuntime) {
    assert!(rt; answers(rt.alloc()) == Ok((Wanted::Wait { holders: 4 }, Wanted::Granted, true)));
}
