// How a walk goes on from a name, where links are followed.
ghost use Rattle.std.specs.Prelude.{◌≡◌, ℕ, List};
ghost use Rattle.disk_definitions.specs.Held.{Segments};
ghost use Rattle.disk_definitions.specs.Store.{entered};
ghost use Rattle.disk_definitions.specs.Ask.{Ask, ReadInode};
ghost use Rattle.disk_definitions.specs.Resolving as lines;
ghost use Rattle.dir_lookup.specs.Looks.{looks_of};
ghost use Rattle.dir_lookup.specs.Reading.{reading};
ghost use Rattle.dir_lookup.specs.Spots.{spot_of};
ghost use Rattle.namei.specs.Looks.{LooksOn, next_looks};
ghost use Rattle.namei.specs.Walks.{next_as, spot_as, entry_as, gap_as};

use dir_lookup::{Looked, Refusal, Spot, step};
use disk_definitions::DirEntry;
use frang_base::limits::{KIND_DIRECTORY, KIND_LINK};
use frang_base::{Name, Sector};
use usable_sectors::Usable;

// How a walk goes on: a sector is needed first; the node is no directory, so that nothing is looked up in it; or a name was looked up, and it ends there,
// with the kind of the node that is there, goes into a directory, follows a link, or is refused.
#[derive(Clone, Copy)]
pub(crate) enum Next {
    Need(Sector),
    Lost(Refusal),
    Ends(Option<u8>),
    Into(u32),
    Follows(u32),
    Stays(Refusal),
}

// At a name of a directory, before the names that are left.
pub(crate) fn next_at(
    sectors: &Usable,
    last: bool,
    dir: u32,
    name: &Name,
    names: &[Name],
    looked: &mut Looked,
) -> Next
    ensures looks { (held : Segments) (follow into : ℕ → Ask lines.Resolution) (here : List (List ℕ)) → LooksOn looked.old looked.new (looks_of (ReadInode dir (lines.below_inode last follow into here dir name.now names.now)) sectors.now.entries held) (next_looks result (λ i. looks_of (follow i) sectors.now.entries held) (λ i. looks_of (into i) sectors.now.entries held)) }
    ensures leads { (held : Segments) (follow into : ℕ → Ask lines.Resolution) (here : List (List ℕ)) → reading (ReadInode dir (lines.below_inode last follow into here dir name.now names.now)) sectors.now.entries held ≡ next_as result dir (λ i. reading (follow i) sectors.now.entries held) (λ i. reading (into i) sectors.now.entries held) here }
{
    match step(sectors, dir, name, looked) {
        Ok(spot) => at_spot(last, &spot, names),
        Err(need) => Next::Need(need.0),
    }
}

// At the spot of a name. No name leads to the root.
fn at_spot(last: bool, spot: &Spot, names: &[Name]) -> Next
    ensures { result ≡ spot_as last names.now (spot_of spot.now) }
{
    match spot {
        Spot::AtName { found, .. } => at_entry(last, &found.entry, names),
        Spot::AtGap { .. } => at_gap(names),
        Spot::Lost(refusal) => Next::Lost(*refusal),
        Spot::AtRoot => Next::Lost(Refusal::NoEnt),
    }
}

// At an entry: a link that is the last name is followed only where that is asked.
fn at_entry(last: bool, entry: &DirEntry, names: &[Name]) -> Next
    ensures { result ≡ entry_as last names.now (entered entry.now) }
{
    match names {
        [] => {
            if last && entry.kind == KIND_LINK {
                Next::Follows(entry.inode)
            } else {
                Next::Ends(Some(entry.kind))
            }
        }
        [_, ..] => {
            if entry.kind == KIND_LINK {
                Next::Follows(entry.inode)
            } else if entry.kind == KIND_DIRECTORY {
                Next::Into(entry.inode)
            } else {
                Next::Stays(Refusal::NotDir)
            }
        }
    }
}

// At a name that isn't there.
fn at_gap(names: &[Name]) -> Next
    ensures { result ≡ gap_as names.now }
{
    match names {
        [] => Next::Ends(None),
        [_, ..] => Next::Stays(Refusal::NoEnt),
    }
}
