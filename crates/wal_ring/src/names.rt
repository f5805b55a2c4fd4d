// What the records of a ring name.
ghost use Rattle.std.specs.Prelude.{◌≡◌, ◌==◌, ◌+◌, ◌≤◌, [], ◌++◌, nat_le, length, not, fold, map, find, vec_len, vec_capacity, IfOk, OnOk};
ghost use Rattle.std.specs.List.{filter, list_any};
ghost use Rattle.std.specs.Option.{option_map};
ghost use Rattle.ring_definitions.specs.Rings as rings;
ghost use Rattle.ring_definitions.specs.Rings.{names_of, with_named};

use frang_base::{NoMemory, Redo, Sector};
use ring_definitions::{Named, Unwritten};
use std::alloc::Global;
use std::collections::BTreeMap;

/// Adds what a record names behind the rest, with the number of the sector in which it begins. There is room.
pub(crate) fn put_names(named: &mut Vec<Named>, redo: &Redo, first: u64)
    requires { vec_len named.old + length redo.now.changes ≤ vec_capacity named.old }
    ensures items { named.new.items ≡ named.old.items ++ names_of first redo.now }
    ensures len { vec_len named.new ≡ vec_len named.old + length redo.now.changes }
    ensures capacity { vec_capacity named.old ≤ vec_capacity named.new }
{
    let changes = redo.changes.as_slice();
    for change in changes {
        let name = Named {
            sector: change.sector,
            version: change.version,
            first,
        };
        match named.push(name) {
            Ok(()) => {}
            Err(_) => unreachable!(),
        }
    }
}

// It belongs to the records that begin up to this number.
fn begins_up_to(end: u64, x: &Named) -> bool
    ensures { result ≡ nat_le x.now.first end }
{
    x.first <= end
}

// The sector is known to stand on the disk in that version or a later one.
fn is_known(disk: &[(Sector, u64)], x: &Named) -> bool
    ensures { result ≡ rings.is_known disk.now x.now }
{
    disk.iter()
        .any(|known| known.0.0 == x.sector.0 && x.version <= known.1)
}

/// The first sector named in the records that begin up to this number which isn't known to be written.
pub(crate) fn unwritten(end: u64, named: &[Named], disk: &[(Sector, u64)]) -> Option<Unwritten>
    ensures { result ≡ option_map (λ x. record { sector = x.sector }) (find (λ x. not (rings.is_known disk.now x)) (filter (λ x. nat_le x.first end) named.now)) }
{
    let x = named
        .iter()
        .filter(|x| begins_up_to(end, x))
        .find(|x| !is_known(disk, x))?;
    Some(Unwritten { sector: x.sector })
}

/// Whether the records that begin up to this number name a sector.
pub(crate) fn is_named(end: u64, named: &[Named], sector: Sector) -> bool
    ensures { result ≡ list_any (λ x. x.sector.0 == sector.0) (filter (λ x. nat_le x.first end) named.now) }
{
    named
        .iter()
        .filter(|x| begins_up_to(end, x))
        .any(|x| x.sector.0 == sector.0)
}

/// Takes out what the records name that begin up to this number.
pub(crate) fn drop_up_to(end: u64, named: &mut Vec<Named>)
    ensures items { named.new.items ≡ filter (λ x. not (nat_le x.first end)) named.old.items }
    ensures capacity { vec_capacity named.new ≡ vec_capacity named.old }
    ensures len { vec_len named.new ≤ vec_len named.old }
{
    named.retain(|x| !begins_up_to(end, x));
}

/// The sectors that the records name which begin up to this number, each with its greatest version there.
pub(crate) fn versions_up_to(
    alloc: Global,
    end: u64,
    named: &[Named],
) -> Result<BTreeMap<u64, u64>, NoMemory>
    ensures { IfOk result (λ m. m.entries ≡ fold with_named [] (filter (λ x. nat_le x.first end) named.now)) }
{
    let mut versions = BTreeMap::new(alloc);
    for x in named {
        if begins_up_to(end, x) {
            note(&mut versions, x)?;
        }
    }
    Ok(versions)
}

// The greater one of the sector's versions is kept.
fn note(versions: &mut BTreeMap<u64, u64>, x: &Named) -> Result<(), NoMemory>
    ensures { OnOk result (versions.new.entries ≡ with_named versions.old.entries x.now) }
{
    let known = versions.get(&x.sector.0).copied().unwrap_or(0);
    versions.insert(x.sector.0, x.version.max(known))?;
    Ok(())
}

/// The sectors with their versions, ascending.
pub(crate) fn listed(
    alloc: Global,
    versions: &BTreeMap<u64, u64>,
) -> Result<Vec<(Sector, u64)>, NoMemory>
    ensures { IfOk result (λ list. map (λ entry. (entry.0.0, entry.1)) list.items ≡ versions.now.entries) }
{
    let mut list = Vec::new(alloc);
    for (sector, version) in versions {
        list.push((Sector(*sector), *version))?;
    }
    Ok(list)
}
