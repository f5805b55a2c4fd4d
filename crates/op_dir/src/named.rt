// Names in directories.
ghost use Rattle.std.specs.Prelude.{◌≡◌, ◌==◌};
ghost use Rattle.disk_definitions.specs.Store.{entered};

use dir_lookup::{Found, NumberedInode};
use disk_definitions::DirEntry;
use frang_base::limits::KIND_DIRECTORY;

// A name that is there: its directory, and its place with its entry.
#[derive(Clone, Copy)]
pub(crate) struct Named {
    pub(crate) directory: NumberedInode,
    pub(crate) found: Found,
}

// The entry names a directory.
pub(crate) fn is_directory(entry: &DirEntry) -> bool
    ensures { result ≡ ((entered entry.now).kind == 2) }
{
    entry.kind == KIND_DIRECTORY
}
