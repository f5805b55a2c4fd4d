// The board, its writer and its readers.
ghost use Rattle.std.specs.Prelude.{◌≡◌, [], ◌∷◌, ◌++◌, IfOk, OnOk, OnErr, Ok, Err, if◌then◌else◌};
ghost use Rattle.std.specs.List.{AllByRecursion};
ghost use Rattle.frang_board.specs.Figures.{zeros, is_behind, last_of, NoneAbove, Reads};
ghost use Rattle.frang_board.specs.Boards.{none_posted, none_seen};

use crate::figures::{Back, Figures};
use crate::rule::{Cell, Compares, Copied, LooksOnce, NewReader, Publishes, Seat, TakesIn, Whole};
use frang_base::NoMemory;
use std::alloc::Global;
use std::marker::Model;
use std::sync::Wait;

/// A board. To a contract it is its name.
#[derive(Drop)]
pub struct Board {
    cell: Cell,
}

impl Model for Board {
    ghost use Rattle.atomic_table.specs.Seated.{TableId};

    ghost Value = { TableId };

    ghost view = { λ b. b.cell.table.shared.table_id };
}

/// Who writes. To a contract it is the board, and the list of what it has published.
#[derive(Drop)]
pub struct Writer {
    pass: Seat,
    last: Figures,
}

impl Model for Writer {
    ghost use Rattle.std.specs.Prelude.{◌≡◌, []};
    ghost use Rattle.crossbeam_utils.specs.Seq.{cell_view};
    ghost use Rattle.frang_board.specs.Figures.{last_of};
    ghost use Rattle.frang_board.specs.Boards.{Posted};
    ghost use Rattle.frang_board.specs.Rule.{writing};

    ghost Value = { Posted };

    ghost view = { λ w. record { board = w.pass.table_id; figures = (cell_view w.pass).list } };

    ghost invariant = { λ w. (cell_view w.pass ≡ writing (cell_view w.pass).list []) × (w.last ≡ last_of (cell_view w.pass).list) };
}

/// Who reads. To a contract it is the board, the list of what it has read, and the lists of the readers that it took in.
#[derive(Drop)]
pub struct Reader {
    pass: Seat,
    last: Figures,
}

impl Model for Reader {
    ghost use Rattle.std.specs.Prelude.{◌≡◌};
    ghost use Rattle.crossbeam_utils.specs.Seq.{cell_view};
    ghost use Rattle.frang_board.specs.Figures.{last_of};
    ghost use Rattle.frang_board.specs.Boards.{Seen};
    ghost use Rattle.frang_board.specs.Rule.{reading};

    ghost Value = { Seen };

    ghost view = { λ r. record { board = r.pass.table_id; figures = (cell_view r.pass).list; joined = (cell_view r.pass).joined } };

    ghost invariant = { λ r. (cell_view r.pass ≡ reading (cell_view r.pass).list (cell_view r.pass).joined) × (r.last ≡ last_of (cell_view r.pass).list) };
}

/// A board of four zeros, with its writer and a first reader.
pub fn make(alloc: Global) -> Result<(Board, Writer, Reader), NoMemory>
    ensures writer { IfOk result (λ r. r.1 ≡ none_posted r.0) }
    ensures reader { IfOk result (λ r. r.2 ≡ none_seen r.0) }
{
    let (cell, mut pass) = Cell::ruled(alloc, Figures::zeros())?;
    let other = cell.split_pass::<NewReader>(&mut pass);
    let writer = Writer {
        pass,
        last: Figures::zeros(),
    };
    let reader = Reader {
        pass: other,
        last: Figures::zeros(),
    };
    Ok((Board { cell }, writer, reader))
}

impl Writer {
    /// What it has published last, zeros where nothing.
    pub fn last(&self) -> Figures
        ensures { result ≡ last_of self.now.figures }
    {
        self.last
    }

    /// Shows these figures from now on, unless one of the numbers is less than the last one published: then nothing changes.
    pub fn publish<R: Wait>(&mut self, rt: &R, board: &Board, figures: Figures) -> Result<(), Back>
        requires { self.old.board ≡ board.now }
        ensures back { result ≡ (if is_behind figures (last_of self.old.figures) then Err (record { held = last_of self.old.figures }) else Ok tt) }
        ensures ok { OnOk result (self.new ≡ record self.old { figures = self.old.figures ++ figures ∷ [] }) }
        ensures err { OnErr result (self.new ≡ self.old) }
    {
        if figures.is_behind(&self.last) {
            return Err(Back { held: self.last });
        }
        board
            .cell
            .swap_as::<Publishes, R>(rt, &mut self.pass, figures);
        self.last = figures;
        Ok(())
    }
}

impl Reader {
    /// What the board shows: in no number less than what this reader has read before, nor than what one that it took in had read.
    pub fn read<R: Wait>(&mut self, rt: &R, board: &Board) -> Figures
        requires { self.old.board ≡ board.now }
        ensures read { self.new ≡ record self.old { figures = self.old.figures ++ result ∷ [] } }
        ensures own { NoneAbove result self.old.figures }
        ensures joined { AllByRecursion (NoneAbove result) self.old.joined }
    {
        self.last = board.cell.load_as::<LooksOnce, R>(rt, &mut self.pass);
        self.last
    }

    /// Another reader, which has read the same so far.
    pub fn split(&mut self, board: &Board) -> Reader
        requires { self.old.board ≡ board.now }
        ensures same { self.new ≡ self.old }
        ensures copy { result ≡ self.old }
    {
        let pass = board.cell.split_pass::<Copied>(&mut self.pass);
        Reader {
            pass,
            last: self.last,
        }
    }

    /// Takes another reader in, with all that it has read.
    pub fn join(&mut self, board: &Board, other: Reader)
        requires own { self.old.board ≡ board.now }
        requires other { other.board ≡ board.now }
        ensures { self.new ≡ record self.old { joined = self.old.joined ++ other.figures ∷ other.joined } }
    {
        let Reader {
            pass: mut used,
            last: _,
        } = other;
        let whole = board.cell.split_pass::<Whole>(&mut used);
        board.cell.join_pass::<TakesIn>(&mut self.pass, whole);
    }
}

/// The last figures of the writer and of the reader, zeros where there are none. Each thing read is zeros or one of the published, in the order of publishing.
pub fn close<R: Wait>(rt: &R, board: Board, writer: Writer, reader: Reader) -> (Figures, Figures)
    requires writer { writer.board ≡ board }
    requires reader { reader.board ≡ board }
    ensures last { result ≡ (last_of writer.figures, last_of reader.figures) }
    ensures own { Reads writer.figures reader.figures }
    ensures joined { AllByRecursion (Reads writer.figures) reader.joined }
{
    let Writer { mut pass, last } = writer;
    let Reader {
        pass: mut used,
        last: seen,
    } = reader;
    let whole = board.cell.split_pass::<Whole>(&mut used);
    board.cell.join_pass::<TakesIn>(&mut pass, whole);
    board.cell.load_as::<Compares, R>(rt, &mut pass);
    (last, seen)
}
