// Which answers a recovery removes: those of its server behind its last mount, from the first on that was to be kept and wasn't.
use frang_base::{Line, NoMemory, Op, Reply, Said, ServerId, What};
use std::alloc::Global;

// Whether an operation is one that a log keeps, once it is done. A rename of a path to itself changes nothing; nor does one between two names of a file, which isn't told apart here.
fn is_kept(op: &Op) -> bool {
    match op {
        Op::Create { .. }
        | Op::Mkdir { .. }
        | Op::Link { .. }
        | Op::Symlink { .. }
        | Op::Unlink { .. }
        | Op::Rmdir { .. }
        | Op::Write { .. }
        | Op::Fill { .. }
        | Op::Truncate { .. } => true,
        Op::Rename { path, to } => path.as_slice() != to.as_slice(),
        _ => false,
    }
}

// Whether a line of the script is one whose operation a log keeps, once it is done.
fn asks_for_keeping(line: Option<&Line>) -> bool {
    match line {
        Some(
            Line {
                what: What::Server(op),
                ..
            },
        ) => is_kept(op),
        _ => false,
    }
}

// Whether a said line is an answer to a server.
fn is_of(said: &Said, wanted: ServerId) -> bool {
    match said {
        Said::Answer { server, .. } => *server == wanted,
        _ => false,
    }
}

fn is_mount_of(said: &Said, wanted: ServerId) -> bool {
    match said {
        Said::Answer {
            server,
            reply: Reply::Mounted,
            ..
        } => *server == wanted,
        _ => false,
    }
}

// Whether a said line is an answer to a server that an operation behind a line is done.
fn is_done_behind(said: &Said, wanted: ServerId, kept: u32) -> bool {
    match said {
        Said::Answer {
            server,
            line,
            reply: Reply::Ok,
        } => *server == wanted && *line > kept,
        _ => false,
    }
}

// Where a server was mounted last before a place, else the beginning.
fn last_mount(saids: &[Said], server: ServerId, before: usize) -> usize {
    let mut last = 0;
    for (i, said) in saids.iter().enumerate().take(before) {
        if is_mount_of(said, server) {
            last = i;
        }
    }
    last
}

// The first place from one on, before another, of what a recovery that keeps a server's operations up to a line removes.
fn first_lost(
    saids: &[Said],
    lines: &[Option<&Line>],
    struck: &[bool],
    (server, kept): (ServerId, u32),
    (from, before): (usize, usize),
) -> Option<usize> {
    for (i, said) in saids.iter().enumerate().take(before).skip(from) {
        let asked = lines.get(i).copied().flatten();
        let is_gone = struck.get(i).copied() == Some(true);
        if is_done_behind(said, server, kept) && asks_for_keeping(asked) && !is_gone {
            return Some(i);
        }
    }
    None
}

// Strikes out the answers to a server from a place on, before another.
fn strike(struck: &mut Vec<bool>, saids: &[Said], server: ServerId, from: usize, before: usize) {
    for (i, said) in saids.iter().enumerate().take(before).skip(from) {
        if is_of(said, server)
            && let Some(gone) = struck.get_mut(i)
        {
            *gone = true;
        }
    }
}

/// Which said lines are answers that a later recovery removes, by the lines of the script that they answer.
pub fn struck_of(
    alloc: Global,
    saids: &[Said],
    lines: &[Option<&Line>],
) -> Result<Vec<bool>, NoMemory> {
    let mut struck = Vec::from_elem(alloc, false, saids.len())?;
    for (i, said) in saids.iter().enumerate() {
        if let Said::Recovered { server, keeps } = said {
            let from = last_mount(saids, *server, i);
            let wanted = (*server, keeps.line());
            if let Some(first) = first_lost(saids, lines, &struck, wanted, (from, i)) {
                strike(&mut struck, saids, *server, first, i);
            }
        }
    }
    Ok(struck)
}
