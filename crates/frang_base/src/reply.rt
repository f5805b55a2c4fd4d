// What a line is answered.
ghost use Rattle.std.specs.Prelude.{◌≡◌, IfOk};

use crate::{NameList, NoMemory, Text};

/// The answer to a line. Sizes and lengths are in bytes.
#[derive(Clone)]
pub enum Reply {
    Ok,
    Mounted,
    /// The bytes that a `read` shows.
    Shown(Text),
    File { size: u32, links: u32 },
    Dir { entries: u32 },
    /// A symbolic link with a target of this length.
    Symlink { len: u32 },
    Names(NameList),
    Target(Text),
    /// When a file was last written: the run, and the ticks of its script until then.
    Time { run: u32, tick: u32 },
    Exist,
    NoEnt,
    NotDir,
    IsDir,
    NotEmpty,
    Inval,
    MLink,
    DirFull,
    BadOffset,
    TooBig,
    /// More symbolic links on the way than are followed.
    Loop,
    NoInode,
    NoDirBlock,
    /// No small block for bytes, where `m` blocks are or were a directory's.
    NoBlock { m: u32 },
    NoLarge,
    Down,
    Expired,
    Io,
    Already,
}

impl Reply {
    /// Another reply, the same.
    pub fn try_copy(&self) -> Result<Reply, NoMemory>
        ensures { IfOk result (λ reply. reply ≡ self.now) }
    {
        Ok(self.clone()?)
    }
}

// By one call, as an operation is dropped.
impl Drop for Reply {
    fn drop(self) {
        match self {
            Reply::Shown(_text) | Reply::Target(_text) => {}
            Reply::Names(_names) => {}
            Reply::File { size: _, links: _ } => {}
            Reply::Dir { entries: _ } => {}
            Reply::Symlink { len: _ } => {}
            Reply::Time { run: _, tick: _ } => {}
            Reply::NoBlock { m: _ } => {}
            Reply::Ok
            | Reply::Mounted
            | Reply::Exist
            | Reply::NoEnt
            | Reply::NotDir
            | Reply::IsDir
            | Reply::NotEmpty
            | Reply::Inval
            | Reply::MLink
            | Reply::DirFull
            | Reply::BadOffset
            | Reply::TooBig
            | Reply::Loop
            | Reply::NoInode
            | Reply::NoDirBlock
            | Reply::NoLarge
            | Reply::Down
            | Reply::Expired
            | Reply::Io
            | Reply::Already => {}
        }
    }
}
