// What a line of a script asks.
ghost use Rattle.std.specs.Prelude.{◌≡◌, IfOk};

use crate::{NoMemory, Path, Text};

/// What a line asks of its server. Offsets and lengths are in bytes.
#[derive(Clone)]
pub enum Op {
    Create {
        path: Path,
    },
    Mkdir {
        path: Path,
    },
    /// A second name, `to`, of the node at `path`.
    Link {
        path: Path,
        to: Path,
    },
    Symlink {
        path: Path,
        target: Text,
    },
    Unlink {
        path: Path,
    },
    Rmdir {
        path: Path,
    },
    Rename {
        path: Path,
        to: Path,
    },
    Write {
        path: Path,
        off: u32,
        bytes: Text,
    },
    /// Writes `len` times the same byte.
    Fill {
        path: Path,
        off: u32,
        len: u32,
        byte: u8,
    },
    Truncate {
        path: Path,
        len: u32,
    },
    Read {
        path: Path,
        off: u32,
        len: u32,
    },
    Stat {
        path: Path,
    },
    List {
        path: Path,
    },
    Readlink {
        path: Path,
    },
    /// When a file was last written.
    Time {
        path: Path,
    },
    Sync,
    Mount,
    Unmount,
    /// Dies at once.
    Crash,
    /// Dies where its k-th next write would be issued.
    CrashAt {
        k: u32,
    },
    /// As `CrashAt`, and what is in flight then is lost.
    CutAt {
        k: u32,
    },
    /// Stands still until its lease has ended.
    Stall,
}

/// What a line asks of the host.
#[derive(Clone, Copy, PartialEq, Eq)]
pub enum HostOp {
    Barrier,
    /// Lets `n` ticks of the clock pass.
    Tick { n: u32 },
    Halt,
}

#[derive(Clone, Drop)]
pub enum What {
    Server(Op),
    Host(HostOp),
}

impl Op {
    /// Another operation, the same.
    pub fn try_copy(&self) -> Result<Op, NoMemory>
        ensures { IfOk result (λ op. op ≡ self.now) }
    {
        Ok(self.clone()?)
    }
}

// By one call, wherever it is dropped: each function that drops one is proved with what stands here, and not with each field of each variant.
impl Drop for Op {
    fn drop(self) {
        match self {
            Op::Create { path: _path }
            | Op::Mkdir { path: _path }
            | Op::Unlink { path: _path }
            | Op::Rmdir { path: _path }
            | Op::Stat { path: _path }
            | Op::List { path: _path }
            | Op::Readlink { path: _path }
            | Op::Time { path: _path }
            | Op::Fill {
                path: _path,
                off: _,
                len: _,
                byte: _,
            }
            | Op::Truncate {
                path: _path,
                len: _,
            }
            | Op::Read {
                path: _path,
                off: _,
                len: _,
            } => {}
            Op::Link {
                path: _path,
                to: _to,
            }
            | Op::Rename {
                path: _path,
                to: _to,
            } => {}
            Op::Symlink {
                path: _path,
                target: _text,
            }
            | Op::Write {
                path: _path,
                off: _,
                bytes: _text,
            } => {}
            Op::Sync | Op::Mount | Op::Unmount | Op::Crash | Op::Stall => {}
            Op::CrashAt { k: _ } | Op::CutAt { k: _ } => {}
        }
    }
}
