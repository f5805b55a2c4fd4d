// Tables rebuilt from the lists of two servers.
ghost use Rattle.std.specs.Prelude.{◌≡◌, IfOk};

use frang_base::{LockId, Mode, NoMemory, ServerId};
use lock_definitions::{ClerkLocks, LockList, LogHold, LogList};
use lock_rebuild::{RebuildFault, rebuild};
use lock_table::{AskedFor, LockTable};
use std::alloc::Global;
use std::process::Abort;
use std::test::Fail;

const NODE: LockId = LockId::Node(1);

// What one server lists.
#[derive(Clone, Copy)]
struct Listed {
    server: ServerId,
    held: &'static [(LockId, Mode)],
    wants: &'static [(LockId, Mode)],
    logs: &'static [(ServerId, u64)],
}

fn locks(alloc: Global, listed: &[(LockId, Mode)]) -> Result<LockList, NoMemory> {
    let mut list = LockList::new(alloc);
    for lock in listed {
        list.push(*lock)?;
    }
    Ok(list)
}

fn logs(alloc: Global, listed: &[(ServerId, u64)]) -> Result<LogList, NoMemory> {
    let mut list = LogList::new(alloc);
    for log in listed {
        list.push(*log)?;
    }
    Ok(list)
}

fn clerk(alloc: Global, listed: &Listed) -> Result<ClerkLocks, NoMemory>
    ensures { IfOk result (λ clerk. clerk.server ≡ listed.now.server) }
{
    Ok(ClerkLocks {
        server: listed.server,
        held: locks(alloc, listed.held)?,
        wants: locks(alloc, listed.wants)?,
        logs: logs(alloc, listed.logs)?,
    })
}

// The table of two servers' lists. A list of who is no server is refused as want of memory, which no test asks for.
fn rebuilt(alloc: Global, one: &Listed, other: &Listed) -> Result<LockTable, RebuildFault> {
    if one.server.0 >= 16 || other.server.0 >= 16 {
        return Err(RebuildFault::NoMemory);
    }
    let clerks = [clerk(alloc, one)?, clerk(alloc, other)?];
    rebuild(alloc, &clerks)
}

fn is_clash(
    alloc: Global,
    one: &Listed,
    other: &Listed,
    lock: LockId,
    first: ServerId,
    second: ServerId,
) -> bool {
    match rebuilt(alloc, one, other) {
        Ok(_) => false,
        Err(fault) => {
            fault
                == RebuildFault::Clash {
                    lock,
                    first,
                    second,
                }
        }
    }
}

const SOLE_HOLDER: Listed = Listed {
    server: ServerId(0),
    held: &[(NODE, Mode::Sole)],
    wants: &[],
    logs: &[],
};

const SHARED_WISH: Listed = Listed {
    server: ServerId(1),
    held: &[],
    wants: &[(NODE, Mode::Shared), (LockId::Node(2), Mode::Sole)],
    logs: &[(ServerId(4), 40)],
};

// Server 0 holds the node sole and server 1 wants it shared: the holder is asked to downgrade. The wish for a lock that nobody holds is
// forgotten, and the log is server 1's.
fn waiting(alloc: Global) -> Result<bool, RebuildFault> {
    let table = rebuilt(alloc, &SOLE_HOLDER, &SHARED_WISH)?;
    let asked = table.revokes(ServerId(0))?;
    Ok(
        asked.as_slice() == [(NODE, AskedFor::Downgrade)].as_slice()
            && table.held(ServerId(0), NODE) == Some(Mode::Sole)
            && table.is_wished(ServerId(1), NODE, Mode::Shared)
            && !table.is_wished(ServerId(1), LockId::Node(2), Mode::Sole)
            && table.log_hold(ServerId(4))
                == Some(LogHold {
                    by: ServerId(1),
                    expiry: 40,
                }),
    )
}

#[test]
fn a_wish_that_waits_is_kept(rt: HostRuntime) {
    assert!(rt; waiting(rt.alloc()) == Ok(true));
}

const OTHER_SOLE_HOLDER: Listed = Listed {
    server: ServerId(1),
    held: &[(NODE, Mode::Sole)],
    wants: &[],
    logs: &[],
};

#[test]
fn two_sole_holders_clash(rt: HostRuntime) {
    assert!(rt;
        is_clash(
            rt.alloc(),
            &SOLE_HOLDER,
            &OTHER_SOLE_HOLDER,
            NODE,
            ServerId(0),
            ServerId(1)
        )
    );
}

// The lists aren't in the order of the servers.
#[test]
fn the_lesser_server_comes_first(rt: HostRuntime) {
    assert!(rt;
        is_clash(
            rt.alloc(),
            &OTHER_SOLE_HOLDER,
            &SOLE_HOLDER,
            NODE,
            ServerId(0),
            ServerId(1)
        )
    );
}

const TWO_LOCKS: Listed = Listed {
    server: ServerId(3),
    held: &[(NODE, Mode::Shared), (LockId::Segment(7), Mode::Shared)],
    wants: &[],
    logs: &[(ServerId(9), 40)],
};

const BOTH_SOLE: Listed = Listed {
    server: ServerId(2),
    held: &[(NODE, Mode::Sole), (LockId::Segment(7), Mode::Sole)],
    wants: &[],
    logs: &[],
};

#[test]
fn the_least_lock_is_named(rt: HostRuntime) {
    assert!(rt;
        is_clash(
            rt.alloc(),
            &TWO_LOCKS,
            &BOTH_SOLE,
            LockId::Segment(7),
            ServerId(2),
            ServerId(3)
        )
    );
}

const SAME_LOG: Listed = Listed {
    server: ServerId(5),
    held: &[(NODE, Mode::Sole)],
    wants: &[],
    logs: &[(ServerId(9), 41)],
};

#[test]
fn a_log_that_two_have_is_the_least(rt: HostRuntime) {
    assert!(rt;
        is_clash(
            rt.alloc(),
            &TWO_LOCKS,
            &SAME_LOG,
            LockId::Log(9),
            ServerId(3),
            ServerId(5)
        )
    );
}
