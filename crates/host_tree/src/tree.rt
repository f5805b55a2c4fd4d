// The host's reading of the tree.
ghost use Rattle.std.specs.Prelude.{◌≡◌, ◌≤◌, ◌<◌, ◌+◌, [], true, false, length, IfOk, OnOk};
ghost use Rattle.std.specs.List.{slice_get};
ghost use Rattle.std.specs.Map.{keys_of};
ghost use Rattle.std.specs.Option.{option_copied, option_map};
ghost use Rattle.frang_base.specs.Functions.{member};
ghost use Rattle.frang_base.specs.declared.limits.TheConstants.{SEGMENTS_MAX};
ghost use Rattle.sector_bytes.specs.SectorMaps.{with_value};
ghost use Rattle.ordered_map.specs.Chunks.{joined};
ghost use Rattle.core_definitions.specs.Logs.{is_none};
ghost use Rattle.host_tree.specs.Reading.{all_lines, needed};
ghost use Rattle.host_tree.specs.Saying.{made};

use crate::next_line::next_line;
use crate::tree_sectors::TreeSectors;
use frang_base::limits::ROOT_INODE;
use frang_base::{Block, NoMemory, Said, Sector};
use ordered_map::Chunk;
use std::alloc::Global;
use std::marker::Model;
use tree_lines::LinesLeft;

// The next line: not made yet, made, or none, since all are said.
#[derive(Drop)]
enum Next {
    Unmade,
    Line(Said),
    End,
}

// The next line, once it is made.
fn made(line: Option<Said>) -> Next
    ensures { result ≡ made line }
{
    match line {
        Some(line) => Next::Line(line),
        None => Next::End,
    }
}

/// What the host has read of the tree of so many segments, and how many lines of it are said. Beside the sectors no more is kept than the names
/// down to the present node and the entries that are left of its directories, and a line takes no time for those that were said before it.
#[derive(Drop)]
pub struct HostTree {
    alloc: Global,
    sectors: TreeSectors,
    // Those behind the next one, once all is read.
    left: LinesLeft,
    next: Next,
    shown: u32,
}

impl Model for HostTree {
    ghost use Rattle.tree_lines.specs.Waiting.{lines_left};
    ghost use Rattle.host_tree.specs.Reading.{HostReading, all_lines, needed, store_read};
    ghost use Rattle.host_tree.specs.Saying.{IsPlace, is_made, shown_in};

    ghost Value = { HostReading };

    ghost view = { λ t. record { segments = t.sectors.segments; read = t.sectors.read; has_room = t.sectors.has_room; shown = t.shown; is_made = is_made t.next } };

    ghost invariant = { λ t. IsPlace (needed t.sectors.segments t.sectors.read) (all_lines t.sectors.segments t.sectors.read) t.next (lines_left (shown_in (store_read t.sectors.segments t.sectors.read)) t.left) t.shown };
}

impl HostTree {
    /// Nothing read, and nothing said. Its one refusal is want of memory.
    pub fn new(alloc: Global, segments: u32) -> Result<HostTree, NoMemory>
        requires { segments ≤ SEGMENTS_MAX }
        ensures segments { IfOk result (λ t. t.segments ≡ segments) }
        ensures read { IfOk result (λ t. t.read ≡ []) }
        ensures shown { IfOk result (λ t. t.shown ≡ 0) }
    {
        let sectors = TreeSectors::new(alloc, segments)?;
        Ok(HostTree {
            alloc,
            sectors,
            left: LinesLeft::of(alloc, u64::from(ROOT_INODE), 0),
            next: Next::Unmade,
            shown: 0,
        })
    }

    /// Whether the sector is needed and not read yet.
    pub fn needs(&self, sector: Sector) -> bool
        ensures { result ≡ member sector.0 (needed self.now.segments self.now.read) }
    {
        self.sectors.needs(sector)
    }

    /// The first sector that is needed and not read yet. `None` exactly where none is.
    pub fn first_needed(&self) -> Option<Sector>
        ensures { option_map (λ sector. sector.0) result ≡ slice_get (needed self.now.segments self.now.read) 0 }
    {
        self.sectors.first_needed()
    }

    /// The sectors that are needed and not read yet, ascending, in pieces that follow one another.
    pub fn needed(&self) -> &[Chunk<u64, ()>]
        ensures { keys_of (joined result.now) ≡ needed self.now.segments self.now.read }
    {
        self.sectors.needed()
    }

    /// Whether the tree is read: no sector is needed any more.
    pub fn is_read(&self) -> bool
        ensures { result ≡ is_none (needed self.now.segments self.now.read) }
    {
        self.sectors.first_needed().is_none()
    }

    /// Makes room for the next sector. Nothing else changes, whatever the answer.
    pub fn reserve(&mut self) -> Result<(), NoMemory>
        ensures segments { self.new.segments ≡ self.old.segments }
        ensures read { self.new.read ≡ self.old.read }
        ensures shown { self.new.shown ≡ self.old.shown }
        ensures made { self.new.is_made ≡ self.old.is_made }
        ensures ok { OnOk result (self.new.has_room ≡ true) }
    {
        self.sectors.reserve()
    }

    /// A sector that is needed was read, and has this block. There is room for it.
    pub fn read(&mut self, sector: Sector, block: &Block)
        requires needed { member sector.0 (needed self.old.segments self.old.read) ≡ true }
        requires room { self.old.has_room ≡ true }
        ensures segments { self.new.segments ≡ self.old.segments }
        ensures read { self.new.read ≡ with_value self.old.read sector.0 block.now }
        ensures shown { self.new.shown ≡ self.old.shown }
        ensures made { self.new.is_made ≡ self.old.is_made }
    {
        self.sectors.put(sector, block);
        if self.sectors.first_needed().is_some() {
            return;
        }
        let levels = self.sectors.count();
        self.left = LinesLeft::of(self.alloc, u64::from(ROOT_INODE), levels);
    }

    /// How many lines are said.
    pub fn shown(&self) -> u32
        ensures { result ≡ self.now.shown }
    {
        self.shown
    }

    /// Whether the next line is made, or known to be none.
    pub fn is_made(&self) -> bool
        ensures { result ≡ self.now.is_made }
    {
        !matches!(&self.next, Next::Unmade)
    }

    /// Makes the next line, where the tree is read and it isn't made. Nothing else changes, whatever the answer. Its one refusal is want of memory; a
    /// line behind 2^32 - 1 others counts as that.
    pub fn make_line(&mut self) -> Result<(), NoMemory>
        requires { needed self.old.segments self.old.read ≡ [] }
        ensures segments { self.new.segments ≡ self.old.segments }
        ensures read { self.new.read ≡ self.old.read }
        ensures room { self.new.has_room ≡ self.old.has_room }
        ensures shown { self.new.shown ≡ self.old.shown }
        ensures ok { OnOk result (self.new.is_made ≡ true) }
    {
        if self.is_made() {
            return Ok(());
        }
        if self.shown == u32::MAX {
            return Err(NoMemory);
        }
        self.next = made(next_line(&mut self.left, self.alloc, &self.sectors)?);
        Ok(())
    }

    /// The next line, which is made. `None` exactly where all are said.
    pub fn line(&self) -> Option<&Said>
        requires { self.now.is_made ≡ true }
        ensures { option_copied result ≡ slice_get (all_lines self.now.segments self.now.read) self.now.shown }
    {
        match &self.next {
            Next::Line(line) => Some(line),
            Next::End => None,
            Next::Unmade => unreachable!(),
        }
    }

    /// The next line is said. It is made, and there is one.
    pub fn said(&mut self)
        requires made { self.old.is_made ≡ true }
        requires there { self.old.shown < length (all_lines self.old.segments self.old.read) }
        ensures segments { self.new.segments ≡ self.old.segments }
        ensures read { self.new.read ≡ self.old.read }
        ensures room { self.new.has_room ≡ self.old.has_room }
        ensures shown { self.new.shown ≡ self.old.shown + 1 }
        ensures made { self.new.is_made ≡ false }
    {
        self.next = Next::Unmade;
        self.shown += 1;
    }
}
