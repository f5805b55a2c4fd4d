// Which sectors may stand in a directory's block.
ghost use Rattle.std.specs.Prelude.{◌≡◌, ◌≤◌, ◌&&◌, drop};
ghost use Rattle.frang_base.specs.Name.{is_name};
ghost use Rattle.sector_bytes.specs.Bytes as zero;
ghost use Rattle.disk_definitions.specs.Directories as spec;
ghost use Rattle.disk_definitions.specs.Directories.{directory_fits, name_in};

use disk_definitions::{DirEntry, DirSector};
use frang_base::Name;
use frang_base::limits::{KIND_FILE, KIND_LINK, NAME_BYTES_MAX};
use sector_bytes::are_zero;

/// Whether each place of the sector is free or has an entry in the grammar.
pub(crate) fn fits(sector: &DirSector) -> bool
    ensures { result ≡ directory_fits sector.now }
{
    sector.entries.iter().all(|entry| entry_fits(entry))
}

// The place is free, or an entry stands there.
fn entry_fits(entry: &DirEntry) -> bool
    ensures { result ≡ spec.entry_fits entry.now }
{
    is_free(entry) || is_used(entry)
}

// All of the place is 0.
fn is_free(entry: &DirEntry) -> bool
    ensures { result ≡ spec.is_free_place entry.now }
{
    entry.inode == 0 && entry.len == 0 && entry.kind == 0 && are_zero(&entry.name)
}

// A name with the kind of its node.
fn is_used(entry: &DirEntry) -> bool
    ensures { result ≡ spec.is_used_place entry.now }
{
    KIND_FILE <= entry.kind
        && entry.kind <= KIND_LINK
        && usize::from(entry.len) <= NAME_BYTES_MAX
        && names(entry)
}

// The first bytes are a name, and the others zeros.
fn names(entry: &DirEntry) -> bool
    requires { entry.now.len ≤ NAME_BYTES_MAX }
    ensures { result ≡ (is_name (name_in entry.now) && zero.are_zero (drop entry.now.len entry.now.name)) }
{
    let (name, rest) = entry.name.split_at(usize::from(entry.len));
    Name::of(name).is_some() && are_zero(rest)
}
