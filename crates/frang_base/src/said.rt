// What is said.
use crate::{OpNo, Reply, ServerId, Text};

/// A line that is said.
pub enum Said {
    /// A line of the script is answered. A host's line has the host as `server`.
    Answer {
        server: ServerId,
        line: u32,
        reply: Reply,
    },
    Dead {
        server: ServerId,
    },
    /// A recovery of the log of `server` begins, made by another server or the host.
    Recovering {
        server: ServerId,
        by: ServerId,
    },
    /// A recovery is done; `keeps` is the greatest operation number of the log, or 0.
    Recovered {
        server: ServerId,
        keeps: OpNo,
    },
    /// A stalled server goes on under a new lease.
    Renewed {
        server: ServerId,
    },
    /// A node of the tree. `kind` is that of an inode: 1 a file, 2 a directory, 3 a symbolic link; `size` is a file's size,
    /// a directory's number of entries or a target's length; `links` is 0 but for a file.
    Node {
        path: Text,
        kind: u8,
        size: u32,
        links: u32,
    },
    /// A record of a log.
    Redo {
        op: OpNo,
    },
    /// A backup was taken after the answer to this line.
    Backup {
        line: u32,
    },
    /// The lock table was rebuilt after the answer to this line.
    Locks {
        line: u32,
    },
    /// A report line, as it stands.
    Shown(Text),
    End,
}

// By one call, as an operation is dropped.
impl Drop for Said {
    fn drop(self) {
        match self {
            Said::Answer {
                server: _,
                line: _,
                reply: _reply,
            } => {}
            Said::Node {
                path: _path,
                kind: _,
                size: _,
                links: _,
            } => {}
            Said::Shown(_text) => {}
            Said::Recovering { server: _, by: _ } => {}
            Said::Recovered {
                server: _,
                keeps: _,
            } => {}
            Said::Dead { server: _ } | Said::Renewed { server: _ } => {}
            Said::Redo { op: _ } => {}
            Said::Backup { line: _ } | Said::Locks { line: _ } => {}
            Said::End => {}
        }
    }
}
