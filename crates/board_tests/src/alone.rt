// A board by one thread: what is read of the figures of a run, what is refused, and readers that are split and joined.
ghost use Rattle.std.specs.Prelude.{◌≡◌};

use frang_base::NoMemory;
use frang_board::{Back, Board, Figures, Reader, Writer, close, make};
use std::alloc::Global;
use std::rt::HostRuntime;
use std::sync::Wait;
use std::test::Fail;

fn figures(said: u64, answered: u64, dead: u64, recovered: u64) -> Figures {
    Figures {
        said,
        answered,
        dead,
        recovered,
    }
}

// The lines said of a run, each as one that is an answer, tells a death, tells a recovery's end, or none of these.
#[derive(Clone, Copy)]
enum Line {
    Answer,
    Dead,
    Recovered,
    Other,
}

// The figures with one line more.
fn after(before: Figures, line: Line) -> Figures {
    let mut figures = before;
    figures.said = figures.said.saturating_add(1);
    match line {
        Line::Answer => figures.answered = figures.answered.saturating_add(1),
        Line::Dead => figures.dead = figures.dead.saturating_add(1),
        Line::Recovered => figures.recovered = figures.recovered.saturating_add(1),
        Line::Other => {}
    }
    figures
}

// Publishes figures, and reads whether they are shown.
fn shows<R: Wait>(
    rt: &R,
    board: &Board,
    writer: &mut Writer,
    reader: &mut Reader,
    figures: Figures,
) -> bool
    requires writer { writer.old.board ≡ board.now }
    requires reader { reader.old.board ≡ board.now }
    ensures writer { writer.new.board ≡ board.entry.now }
    ensures reader { reader.new.board ≡ board.entry.now }
{
    let taken = writer.publish(rt, board, figures).is_ok();
    taken && reader.read(rt, board) == figures
}

// Whether the figures of each line are shown, and what writer and reader have last.
fn tell<R: Wait>(
    rt: &R,
    alloc: Global,
    lines: &[Line],
) -> Result<(bool, Figures, Figures), NoMemory> {
    let (board, mut writer, mut reader) = make(alloc)?;
    let mut now = figures(0, 0, 0, 0);
    let mut right = reader.read(rt, &board) == now;
    for line in lines {
        now = after(now, *line);
        right = shows(rt, &board, &mut writer, &mut reader, now) && right;
    }
    let (written, read) = close(rt, board, writer, reader);
    Ok((right, written, read))
}

// Each line of a run shows, and the last figures are the run's.
#[test]
fn figures_of_a_run_are_shown(rt: HostRuntime) -> Result<(), Fail> {
    let lines = [
        Line::Answer,
        Line::Answer,
        Line::Answer,
        Line::Other,
        Line::Other,
        Line::Other,
    ];
    let (right, written, read) = tell(&rt, rt.alloc(), &lines)?;
    assert!(rt; right && written == figures(6, 3, 0, 0) && read == written);
    Ok(())
}

// So do those of a run in which a server dies and is recovered.
#[test]
fn a_death_and_a_recovery_are_shown(rt: HostRuntime) -> Result<(), Fail> {
    let lines = [
        Line::Answer,
        Line::Answer,
        Line::Dead,
        Line::Answer,
        Line::Answer,
        Line::Answer,
        Line::Other,
        Line::Recovered,
        Line::Answer,
        Line::Other,
        Line::Other,
    ];
    let (right, written, read) = tell(&rt, rt.alloc(), &lines)?;
    assert!(rt; right && written == figures(11, 6, 1, 1) && read == written);
    Ok(())
}

// A number that is less than the last one is refused, whichever it is, and nothing changes; equal ones are published.
#[test]
fn what_goes_back_is_refused(rt: HostRuntime) -> Result<(), Fail> {
    let (board, mut writer, mut reader) = make(rt.alloc())?;
    let held = figures(5, 4, 3, 2);
    assert!(rt; writer.publish(&rt, &board, held).is_ok());
    let back = Err(Back { held });
    assert!(rt; writer.publish(&rt, &board, figures(4, 9, 9, 9)) == back);
    assert!(rt; writer.publish(&rt, &board, figures(9, 3, 9, 9)) == back);
    assert!(rt; writer.publish(&rt, &board, figures(9, 9, 2, 9)) == back);
    assert!(rt; writer.publish(&rt, &board, figures(9, 9, 9, 1)) == back);
    assert!(rt; reader.read(&rt, &board) == held);
    assert!(rt; writer.publish(&rt, &board, held).is_ok());
    let (written, read) = close(&rt, board, writer, reader);
    assert!(rt; written == held && read == held);
    Ok(())
}

// Nothing was published, and nothing read.
#[test]
fn nothing_is_zeros(rt: HostRuntime) -> Result<(), Fail> {
    let (board, writer, reader) = make(rt.alloc())?;
    let nothing = figures(0, 0, 0, 0);
    assert!(rt; close(&rt, board, writer, reader) == (nothing, nothing));
    Ok(())
}

// A reader that was split has the last figures of the other; one that took it in reads on, and has its own last ones until then.
#[test]
fn readers_are_split_and_joined(rt: HostRuntime) -> Result<(), Fail> {
    let (board, mut writer, mut reader) = make(rt.alloc())?;
    let first = figures(1, 1, 0, 0);
    let second = figures(2, 1, 1, 0);
    assert!(rt; writer.publish(&rt, &board, first).is_ok());
    assert!(rt; reader.read(&rt, &board) == first);
    let mut other = reader.split(&board);
    assert!(rt; writer.publish(&rt, &board, second).is_ok());
    assert!(rt; other.read(&rt, &board) == second);
    reader.join(&board, other);
    let third = reader.split(&board);
    assert!(rt; reader.read(&rt, &board) == second);
    reader.join(&board, third);
    let (written, read) = close(&rt, board, writer, reader);
    assert!(rt; written == second && read == second);
    Ok(())
}
