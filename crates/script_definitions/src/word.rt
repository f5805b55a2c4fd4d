// The words of a server's lines.

/// The word that says what a server is asked.
#[derive(Clone, Copy, PartialEq, Eq)]
pub enum ServerWord {
    Create,
    Mkdir,
    Unlink,
    Rmdir,
    Stat,
    List,
    Readlink,
    Time,
    Link,
    Rename,
    Symlink,
    Write,
    Fill,
    Truncate,
    Read,
    Sync,
    Mount,
    Unmount,
    Crash,
    Cut,
    Stall,
}
