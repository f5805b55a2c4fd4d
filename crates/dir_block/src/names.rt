// Where a name stands in a sector.
ghost use Rattle.std.specs.Prelude.{◌≡◌};
ghost use Rattle.disk_definitions.specs.Directories.{name_in, place_of_name};

use crate::PLACES;
use disk_definitions::{DirEntry, DirSector};
use frang_base::Name;
use frang_base::limits::NAME_BYTES_MAX;

/// The place of the first entry of this name, 0 to 6. `None` exactly where there is none.
pub fn find(sector: &DirSector, name: &Name) -> Option<u8>
    ensures { result ≡ place_of_name name.now sector.now.entries }
{
    place_in(&sector.entries, name)
}

fn place_in(entries: &[DirEntry; PLACES], name: &Name) -> Option<u8>
    ensures { result ≡ place_of_name name.now entries.now }
{
    for (place, entry) in entries.iter().enumerate() {
        if name_of(entry) == name.as_slice() {
            return Some(place as u8);
        }
    }
    None
}

fn name_of(entry: &DirEntry) -> &[u8]
    ensures { result.now ≡ name_in entry.now }
{
    &entry.name[..usize::from(entry.len).min(NAME_BYTES_MAX)]
}
