// The bytes of a file, of which some may be in doubt.
ghost use Rattle.std.specs.Prelude.{◌≡◌, ◌≤◌, ◌+◌, ◌-◌, ◌++◌, [], length, map, take, drop, replicate, OnOk, OnErr};
ghost use Rattle.frang_base.specs.declared.limits.TheConstants.{FILE_BYTES_MAX};
ghost use Rattle.tree_definitions.specs.Apply.{overwritten};
ghost use Rattle.tree_definitions.specs.History.{doubted_cells};

use frang_base::NoMemory;
use std::alloc::{AllocError, Global};
use std::marker::Model;

/// A byte, or one in doubt: a recovery has left it open, until a read shows it.
#[derive(Clone, Copy, PartialEq, Eq)]
pub enum Cell {
    Byte(u8),
    Doubtful,
}

/// The contents of a file, seen as the list of its cells: at most 1,114,112.
#[derive(Drop)]
pub struct Cells {
    cells: Vec<Cell>,
}

impl Model for Cells {
    ghost use Rattle.std.specs.Prelude.{List, ◌≤◌, length};
    ghost use Rattle.frang_base.specs.declared.limits.TheConstants.{FILE_BYTES_MAX};
    ghost use Rattle.tree_definitions.specs.declared.cells.Cell.{Cell};

    ghost Value = { List Cell };

    ghost view = { λ c. c.cells.items };

    ghost invariant = { λ c. length c.cells.items ≤ FILE_BYTES_MAX };
}

// Lengthens cells up to an end, where they are fewer.
fn extend_to(cells: &mut Vec<Cell>, end: usize) -> Result<(), NoMemory>
    ensures ok { OnOk result (cells.new.items ≡ cells.old.items ++ replicate (end - length cells.old.items) (Cell.Byte 0)) }
    ensures err { OnErr result (cells.new.items ≡ cells.old.items) }
{
    if cells.len() < end {
        cells.resize(end, Cell::Byte(0))?;
    }
    Ok(())
}

// Puts bytes over cells that are there.
fn put_bytes(cells: &mut [Cell], off: usize, bytes: &[u8])
    requires { off + length bytes.now ≤ length cells.old }
    ensures { cells.new ≡ overwritten cells.old off (map Cell.Byte bytes.now) }
{
    for (i, byte) in bytes.iter().enumerate() {
        cells[off + i] = Cell::Byte(*byte);
    }
}

// Puts the same cell over cells that are there.
fn put_cell(cells: &mut [Cell], off: usize, len: usize, cell: Cell)
    requires { off + len ≤ length cells.old }
    ensures { cells.new ≡ overwritten cells.old off (replicate len cell) }
{
    for i in 0..len {
        cells[off + i] = cell;
    }
}

impl Cells {
    /// An empty file. It takes no memory.
    pub fn new(alloc: Global) -> Self
        ensures { result ≡ [] }
    {
        Cells {
            cells: Vec::new(alloc),
        }
    }

    /// The number of cells: at most those of 16 small blocks and a large one.
    pub fn len(&self) -> usize
        ensures len { result ≡ length self.now }
        ensures small { result ≤ FILE_BYTES_MAX }
    {
        self.cells.len()
    }

    /// All cells, in order.
    pub fn as_slice(&self) -> &[Cell]
        ensures { result.now ≡ self.now }
    {
        &self.cells
    }

    /// The cells from an offset on, at most so many.
    pub fn shown(&self, off: usize, len: usize) -> &[Cell]
        requires { off ≤ length self.now }
        ensures { result.now ≡ take len (drop off self.now) }
    {
        let rest = &self.cells.as_slice()[off..];
        &rest[..len.min(rest.len())]
    }

    /// Puts bytes into the cells from an offset on; what lies past their end is added. After `NoMemory` the cells are as before.
    #[tactic(auto, using(crate::proofs::CellLaws::overwritten_padded))]
    pub fn overwrite(&mut self, off: usize, bytes: &[u8]) -> Result<(), NoMemory>
        requires begins { off ≤ length self.old }
        requires ends { off + length bytes.now ≤ FILE_BYTES_MAX }
        ensures ok { OnOk result (self.new ≡ overwritten self.old off (map Cell.Byte bytes.now)) }
        ensures err { OnErr result (self.new ≡ self.old) }
    {
        extend_to(&mut self.cells, off + bytes.len())?;
        put_bytes(&mut self.cells, off, bytes);
        Ok(())
    }

    /// Puts so many times the same byte into the cells from an offset on, as `overwrite` does. After `NoMemory` the cells are as
    /// before.
    #[tactic(auto, using(crate::proofs::CellLaws::overwritten_padded))]
    pub fn fill(&mut self, off: usize, len: usize, byte: u8) -> Result<(), NoMemory>
        requires begins { off ≤ length self.old }
        requires ends { off + len ≤ FILE_BYTES_MAX }
        ensures ok { OnOk result (self.new ≡ overwritten self.old off (replicate len (Cell.Byte byte))) }
        ensures err { OnErr result (self.new ≡ self.old) }
    {
        extend_to(&mut self.cells, off + len)?;
        put_cell(&mut self.cells, off, len, Cell::Byte(byte));
        Ok(())
    }

    /// Keeps the first `len` cells, or all where they are fewer.
    pub fn truncate(&mut self, len: usize)
        ensures { self.new ≡ take len self.old }
    {
        self.cells.truncate(len);
    }

    /// Brings so many cells from an offset on into doubt; those past the end are passed over.
    pub fn doubt(&mut self, from: usize, count: usize)
        ensures { self.new ≡ doubted_cells self.old from count }
    {
        let off = from.min(self.cells.len());
        let len = count.min(self.cells.len() - off);
        put_cell(&mut self.cells, off, len, Cell::Doubtful);
    }
}

impl Clone for Cells {
    ghost is_clone = { λ a b. a ≡ b };

    fn clone(&self) -> Result<Cells, AllocError> {
        Ok(Cells {
            cells: self.cells.clone()?,
        })
    }
}
