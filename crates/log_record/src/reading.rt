// The changes of a record, from its body.
ghost use Rattle.std.specs.Prelude.{◌≡◌, ◌&&◌, ◌≤◌, IfOk, length, nat_le, option_and_then};
ghost use Rattle.std.specs.List.{list_all};
ghost use Rattle.std.specs.Option.{option_copied, option_map};
ghost use Rattle.frang_base.specs.declared.limits.TheConstants.{RECORD_CHANGES_MAX};
ghost use Rattle.sector_bytes.specs.Changes.{is_change};
ghost use Rattle.disk_definitions.specs.Records.{all_read, bytes_read, change_read, number_read, patch_read, record_in, sectors_ascend};
ghost use Rattle.log_record.specs.Heads.{head_read};

use byteorder::{ByteOrder, LittleEndian};
use frang_base::limits::{RECORD_BYTES_MAX, RECORD_CHANGES_MAX};
use frang_base::{Change, Changes, NoMemory, OpNo, Patch, Patches, Redo, Sector, Text};
use meta_version::is_change;
use std::alloc::Global;

/// The record whose body the bytes are. `None` exactly where they are the body of none, and so wherever they are more than 4,096. The
/// operation's number is 0, which is none: it stands in the sectors of a log and not in the body, so the reader of a log sets it.
pub fn decode(alloc: Global, bytes: &[u8]) -> Result<Option<Redo>, NoMemory>
    ensures { IfOk result (λ r. r ≡ option_map (λ changes. record { op = record { 0 = 0 }; changes = changes }) (record_in bytes.now)) }
{
    if bytes.len() > RECORD_BYTES_MAX {
        return Ok(None);
    }
    let mut unread = Unread { bytes };
    let Some(changes) = unread.counted_changes(alloc)? else {
        return Ok(None);
    };
    if !unread.bytes.is_empty() || !fit(&changes) {
        return Ok(None);
    }
    Ok(Some(Redo {
        op: OpNo(0),
        changes: Changes::from_vec(changes),
    }))
}

/// There are 1 to 32 changes, each well formed, and their sectors ascend.
pub(crate) fn fit(changes: &[Change]) -> bool
    ensures { result ≡ (nat_le 1 (length changes.now) && nat_le (length changes.now) RECORD_CHANGES_MAX && (list_all is_change changes.now && sectors_ascend 0 changes.now)) }
{
    !changes.is_empty() && changes.len() <= RECORD_CHANGES_MAX && are_changes(changes)
}

fn are_changes(changes: &[Change]) -> bool
    ensures { result ≡ (list_all is_change changes.now && sectors_ascend 0 changes.now) }
{
    let mut from = 0;
    for change in changes {
        if !is_change(change) || change.sector.0 < from {
            return false;
        }
        from = change.sector.0 + 1;
    }
    true
}

// What is left to be read of a body.
#[derive(Drop)]
pub(crate) struct Unread<'a> {
    pub(crate) bytes: &'a [u8],
}

impl<'a> Unread<'a> {
    // The next two bytes, as a number.
    pub(crate) fn short(&mut self) -> Option<u16>
        ensures { option_map (λ x. (x, self.new.bytes.now)) result ≡ number_read 2 self.old.bytes.now }
    {
        let bytes = self.run(2)?;
        Some(LittleEndian::read_u16(bytes))
    }

    // The next eight bytes, as a number.
    pub(crate) fn long(&mut self) -> Option<u64>
        ensures { option_map (λ x. (x, self.new.bytes.now)) result ≡ number_read 8 self.old.bytes.now }
    {
        let bytes = self.run(8)?;
        Some(LittleEndian::read_u64(bytes))
    }

    // So many bytes.
    pub(crate) fn run(&mut self, count: usize) -> Option<&'a [u8]>
        ensures { option_map (λ x. (x.now, self.new.bytes.now)) result ≡ bytes_read count self.old.bytes.now }
    {
        if self.bytes.len() < count {
            return None;
        }
        let (run, rest) = self.bytes.split_at(count);
        self.bytes = rest;
        Some(run)
    }

    // How many changes there are, and these.
    fn counted_changes(&mut self, alloc: Global) -> Result<Option<Vec<Change>>, NoMemory>
        ensures { IfOk result (λ r. option_map (λ changes. (changes.items, self.new.bytes.now)) r ≡ option_and_then (λ n. all_read change_read n.0 n.1) (number_read 2 self.old.bytes.now)) }
    {
        match self.short() {
            Some(count) => self.changes(alloc, count),
            None => Ok(None),
        }
    }

    // So many changes.
    fn changes(&mut self, alloc: Global, count: u16) -> Result<Option<Vec<Change>>, NoMemory>
        ensures { IfOk result (λ r. option_map (λ changes. (changes.items, self.new.bytes.now)) r ≡ all_read change_read count self.old.bytes.now) }
    {
        let mut changes = Vec::new(alloc);
        for _ in 0..count {
            let Some(change) = self.change(alloc)? else {
                return Ok(None);
            };
            changes.push(change)?;
        }
        Ok(Some(changes))
    }

    fn change(&mut self, alloc: Global) -> Result<Option<Change>, NoMemory>
        ensures { IfOk result (λ r. option_map (λ change. (change, self.new.bytes.now)) r ≡ change_read self.old.bytes.now) }
    {
        let Some((sector, version, count)) = self.change_head() else {
            return Ok(None);
        };
        let Some(patches) = self.patches(alloc, count)? else {
            return Ok(None);
        };
        Ok(Some(Change {
            sector,
            version,
            patches,
        }))
    }

    // A change's sector, its version and how many patches it has.
    fn change_head(&mut self) -> Option<(Sector, u64, u16)>
        ensures { option_map (λ x. (x, self.new.bytes.now)) result ≡ head_read self.old.bytes.now }
    {
        let sector = Sector(self.long()?);
        let version = self.long()?;
        Some((sector, version, self.short()?))
    }

    // So many patches.
    fn patches(&mut self, alloc: Global, count: u16) -> Result<Option<Patches>, NoMemory>
        ensures { IfOk result (λ r. option_map (λ patches. (patches, self.new.bytes.now)) r ≡ all_read patch_read count self.old.bytes.now) }
    {
        let mut patches = Patches::new(alloc);
        for _ in 0..count {
            let Some(patch) = self.patch(alloc)? else {
                return Ok(None);
            };
            patches.push(patch)?;
        }
        Ok(Some(patches))
    }

    fn patch(&mut self, alloc: Global) -> Result<Option<Patch>, NoMemory>
        ensures { IfOk result (λ r. option_map (λ patch. (patch, self.new.bytes.now)) r ≡ patch_read self.old.bytes.now) }
    {
        let Some((at, bytes)) = self.placed_bytes() else {
            return Ok(None);
        };
        let bytes = Text::of(alloc, bytes)?;
        Ok(Some(Patch { at, bytes }))
    }

    // A patch's place and its bytes.
    fn placed_bytes(&mut self) -> Option<(u16, &'a [u8])>
        ensures { option_map (λ x. (record { at = x.0; bytes = x.1.now }, self.new.bytes.now)) result ≡ patch_read self.old.bytes.now }
    {
        let at = self.short()?;
        let count = self.short()?;
        Some((at, self.run(usize::from(count))?))
    }
}
