// A hall run by its workers, and watched by one more.
ghost use Rattle.std.specs.Prelude.{◌≡◌, ◌+◌, ◌<◌, [], length, vec_capacity, vec_len, IfOk};
ghost use Rattle.atomic_table.specs.Seated.{TableId};
ghost use Rattle.frang_board.specs.Boards.{none_posted, none_seen};
ghost use Rattle.watched_hall.specs.Counting.{Counts};
ghost use Rattle.watched_hall.specs.Watching.{Watched};
ghost use Rattle.std.specs.Prelude.{ℕ};

use crate::counted::Counted;
use crate::desk::{BoardNaming, Desk};
use frang_base::{NoMemory, ServerId};
use frang_board::{Board, Figures, Reader, Writer, close, make};
use frang_hall::{Finish, Hall, Locked, Machine, Naming, what_came};
use frang_outside::{Gate, Outside};
use std::alloc::Global;
use std::marker::Brand;
use std::sync::Wait;
use std::thread::{Threads, join};

// Reads so often, and tells the gate after each how many answers it read of. The list has the memory for it, and for one more.
fn read_all<G: Gate, R: Wait>(
    rt: &R,
    board: &Board,
    reader: Reader,
    list: Vec<Figures>,
    gate: &G,
    reads: u32,
) -> (Reader, Vec<Figures>)
    requires reader { reader ≡ none_seen board.now }
    requires list { list.items ≡ [] }
    requires room { reads < vec_capacity list }
    ensures board { result.0.board ≡ board.entry.now }
    ensures list { result.1.items ≡ result.0.figures }
    ensures count { vec_len result.1 ≡ reads }
    ensures room { reads < vec_capacity result.1 }
{
    let mut reader = reader;
    let mut list = list;
    for _ in 0..reads {
        let figures = reader.read(rt, board);
        match list.push(figures) {
            Ok(()) => {}
            Err(_) => unreachable!(),
        }
        let answered = u32::try_from(figures.answered).unwrap_or(u32::MAX);
        gate.enter(ServerId::HOST, answered);
    }
    (reader, list)
}

// The run beside the reading, with the desk of a board under a name, and the board closed behind them.
fn watch_named<
    M: Machine + Send,
    O: Outside + Send,
    G: Gate + Sync,
    N: Naming + Send,
    B: BoardNaming + Send,
    R: Threads + Wait + Sync,
>(
    rt: &R,
    hall: Hall<Counted<M>, O, N>,
    board: Board,
    writer: Writer,
    reader: Reader,
    list: Vec<Figures>,
    workers: u8,
    gate: &G,
    reads: u32,
) -> (
    Hall<Counted<M>, O, N>,
    Result<(Finish, Vec<Figures>), NoMemory>,
)
    requires workers { 0 < workers }
    requires named { B.is_board board }
    requires only { (other : TableId) → B.is_board other → other ≡ board }
    requires writer { writer ≡ none_posted board }
    requires reader { reader ≡ none_seen board }
    requires list { list.items ≡ [] }
    requires room { reads < vec_capacity list }
    ensures { Watched (Counts (M.stands result.0.world.machine) result.0.world.figures) N.outset hall.over reads result.0.over result.0.said (O.state result.0.out) result.1 }
{
    let shared = &board;
    let desk: Desk<'_, M, O, N, B> = Desk::new(rt, hall, shared, writer);
    let locked = Locked::new(desk);
    let ((), (reader, mut list)) = join(
        rt,
        ||
            requires { 0 < workers }
        { locked.run(rt, workers, gate) },
        move || read_all(rt, shared, reader, list, gate, reads),
    );
    let desk = locked.into_inner();
    desk.shows();
    let (hall, writer) = desk.parts();
    let (last, _) = close(rt, board, writer, reader);
    match list.push(last) {
        Ok(()) => {}
        Err(_) => unreachable!(),
    }
    match what_came(&hall) {
        Ok(finish) => (hall, Ok((finish, list))),
        Err(NoMemory) => (hall, Err(NoMemory)),
    }
}

// The same, under a name that this function picks.
fn watch_on<
    M: Machine + Send,
    O: Outside + Send,
    G: Gate + Sync,
    N: Naming + Send,
    R: Threads + Wait + Sync,
>(
    rt: &R,
    hall: Hall<Counted<M>, O, N>,
    board: Board,
    writer: Writer,
    reader: Reader,
    list: Vec<Figures>,
    workers: u8,
    gate: &G,
    reads: u32,
) -> (
    Hall<Counted<M>, O, N>,
    Result<(Finish, Vec<Figures>), NoMemory>,
)
    requires workers { 0 < workers }
    requires writer { writer ≡ none_posted board }
    requires reader { reader ≡ none_seen board }
    requires list { list.items ≡ [] }
    requires room { reads < vec_capacity list }
    ensures { Watched (Counts (M.stands result.0.world.machine) result.0.world.figures) N.outset hall.over reads result.0.over result.0.said (O.state result.0.out) result.1 }
{
    watch_named::<M, O, G, N, Brand, R>(rt, hall, board, writer, reader, list, workers, gate, reads)
}

// An empty list with the memory for so many figures and one more.
fn list_for(alloc: Global, reads: u32) -> Result<Vec<Figures>, NoMemory>
    ensures empty { IfOk result (λ list. list.items ≡ []) }
    ensures room { IfOk result (λ list. reads < vec_capacity list) }
{
    Ok(Vec::with_capacity(alloc, reads as usize + 1)?)
}

/// Runs the hall by this many workers, and has one more, the watcher, read so often, beside them and without the lock, what the lines said come to. The worker whose turn said a line shows this on
/// a board before it lets go of the lock. After each read the watcher calls the gate with the host's number and the number of answers that it read. Gives the hall back, and the figures that the
/// watcher read, behind them those of the whole record. The memory for the board and for the figures is taken before the run.
pub fn run_watched<
    M: Machine + Send,
    O: Outside + Send,
    G: Gate + Sync,
    N: Naming + Send,
    R: Threads + Wait + Sync,
>(
    rt: &R,
    alloc: Global,
    hall: Hall<Counted<M>, O, N>,
    workers: u8,
    gate: &G,
    reads: u32,
) -> (
    Hall<Counted<M>, O, N>,
    Result<(Finish, Vec<Figures>), NoMemory>,
)
    requires { 0 < workers }
    ensures { Watched (Counts (M.stands result.0.world.machine) result.0.world.figures) N.outset hall.over reads result.0.over result.0.said (O.state result.0.out) result.1 }
{
    hall.shows();
    let list = match list_for(alloc, reads) {
        Ok(list) => list,
        Err(NoMemory) => return (hall, Err(NoMemory)),
    };
    match make(alloc) {
        Ok((board, writer, reader)) => watch_on(
            rt, hall, board, writer, reader, list, workers, gate, reads,
        ),
        Err(NoMemory) => (hall, Err(NoMemory)),
    }
}
