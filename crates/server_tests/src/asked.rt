// Lines that ask something of a server.
use frang_base::{Line, NoMemory, Op, Path, ServerId, What};
use std::alloc::Global;

/// What a line asks.
#[derive(Clone, Copy)]
pub(crate) enum Asked {
    Mount,
    Unmount,
    Sync,
    Crash,
    CrashAt,
    // A line over paths.
    Stat,
}

/// The operation: an armed one counts three writes, and a path is that of the root.
pub(crate) fn op_of(alloc: Global, asked: Asked) -> Op {
    match asked {
        Asked::Mount => Op::Mount,
        Asked::Unmount => Op::Unmount,
        Asked::Sync => Op::Sync,
        Asked::Crash => Op::Crash,
        Asked::CrashAt => Op::CrashAt { k: 3 },
        Asked::Stat => Op::Stat {
            path: Path::new(alloc),
        },
    }
}

/// The line of this number that asks it of server 3.
pub(crate) fn line_of(alloc: Global, number: u32, asked: Asked) -> Line {
    Line {
        number,
        who: ServerId(3),
        what: What::Server(op_of(alloc, asked)),
    }
}
