// A hall with the writer of a board beside it, under one lock.
ghost use Rattle.std.specs.Prelude.{◌≡◌};
ghost use Rattle.frang_board.specs.Boards.{none_posted};
ghost use Rattle.frang_board.specs.Figures.{AtMost, last_of};
ghost use Rattle.hall_runs.specs.Keeping.{Kept};
ghost use Rattle.watched_hall.specs.Counting.{Counts};
ghost use Rattle.watched_hall.specs.Desks.{IsDesk, IsPostedOn};

use crate::counted::Counted;
use frang_base::NoMemory;
use frang_board::{Board, Figures, Writer};
use frang_hall::{Hall, Machine, Naming, Turning};
use frang_outside::Outside;
use hall_runs::Turn;
use std::marker::{Brand, Model, PhantomData};
use std::sync::Wait;

/// Names the board of a desk. The calling function picks the name.
pub trait BoardNaming {
    ghost use Rattle.atomic_table.specs.Seated.{TableId};

    ghost is_board: { TableId → Type 0 };
}

impl BoardNaming for Brand {
    ghost is_board = { λ board. Unit {0} };
}

/// A hall, and who writes what its record comes to on a board. What was written are the figures of prefixes of the record, of which none is shorter than one before it; the last are those of
/// the whole record.
pub struct Desk<'b, M: Machine, O: Outside, N: Naming, B: BoardNaming> {
    hall: Hall<Counted<M>, O, N>,
    writer: Writer,
    board: &'b Board,
    name: PhantomData<B>,
}

impl<'b, M: Machine, O: Outside, N: Naming, B: BoardNaming> Model for Desk<'b, M, O, N, B> {
    ghost use Rattle.std.specs.Prelude.{◌≡◌};
    ghost use Rattle.watched_hall.specs.Counting.{Counts};
    ghost use Rattle.watched_hall.specs.Desks.{DeskSeen, IsDesk};
    ghost use Rattle.watched_hall.specs.declared.counted.Counted.{Counted};

    ghost Value = { DeskSeen (Counted M) O };

    ghost view = { λ d. record { hall = d.hall; writer = d.writer } };

    ghost invariant = { λ d.
        IsDesk (Counts (M.stands d.hall.world.machine) d.hall.world.figures) N.outset d.hall.over d.hall.said (O.state d.hall.out) d.writer.figures
        × (d.writer.board ≡ d.board.now) × B.is_board d.writer.board };
}

// Shows these figures on the board, where they aren't those that it shows.
fn post<R: Wait>(rt: &R, board: &Board, writer: &mut Writer, figures: Figures)
    requires board { writer.old.board ≡ board.now }
    requires on { AtMost (last_of writer.old.figures) figures }
    ensures { IsPostedOn writer.old writer.new figures }
{
    if figures != writer.last() {
        match writer.publish(rt, board, figures) {
            Ok(()) => {}
            Err(_) => unreachable!(),
        }
    }
}

impl<'b, M: Machine, O: Outside, N: Naming, B: BoardNaming> Desk<'b, M, O, N, B> {
    /// The desk of a hall and of a board on which nothing was written.
    pub fn new<R: Wait>(
        rt: &R,
        hall: Hall<Counted<M>, O, N>,
        board: &'b Board,
        writer: Writer,
    ) -> Self
        requires writer { writer ≡ none_posted board.now }
        requires board { B.is_board board.now }
        ensures { result.hall ≡ hall }
    {
        let mut writer = writer;
        hall.shows();
        let figures = hall.machine().figures();
        post(rt, board, &mut writer, figures);
        Desk {
            hall,
            writer,
            board,
            name: PhantomData,
        }
    }

    /// What its type keeps.
    pub fn shows(&self)
        ensures desk { IsDesk (Counts (M.stands self.now.hall.world.machine) self.now.hall.world.figures) N.outset self.now.hall.over self.now.hall.said (O.state self.now.hall.out) self.now.writer.figures }
        ensures board { B.is_board self.now.writer.board }
    {
        let _board = &self.board;
    }

    /// The hall and the writer.
    pub fn parts(self) -> (Hall<Counted<M>, O, N>, Writer)
        ensures { result ≡ (self.entry.hall, self.entry.writer) }
    {
        let Desk {
            hall,
            writer,
            board: _,
            name: _,
        } = self;
        (hall, writer)
    }
}

impl<'b, M: Machine, O: Outside, N: Naming, B: BoardNaming> Turning for Desk<'b, M, O, N, B> {
    fn take_turn<R: Wait>(&mut self, rt: &R, worker: u8) -> Result<Turn, NoMemory> {
        let answer = self.hall.turn(worker);
        let figures = self.hall.machine().figures();
        post(rt, self.board, &mut self.writer, figures);
        answer
    }

    fn pass(&mut self, line: u32) {
        self.hall.entered(line);
    }
}
