// A writer and two readers on threads of their own.
ghost use Rattle.std.specs.Prelude.{◌≡◌};

use frang_board::{Board, Figures, Reader, Writer, close, make};
use std::alloc::Global;
use std::process::Abort;
use std::rt::HostRuntime;
use std::sync::Wait;
use std::test::Fail;
use std::thread::{Threads, join};

// So many are published.
const STEPS: u64 = 20_000;

// At most so often a reader reads.
const READS_MAX: u64 = 1_000_000;

// What is published as this one; the first, of number 0, are zeros.
fn step(number: u64) -> Figures {
    Figures {
        said: number,
        answered: number / 2,
        dead: number / 3,
        recovered: number / 5,
    }
}

// Publishes all, and tells whether none was refused.
fn publish_all<R: Wait>(rt: &R, board: &Board, writer: Writer) -> (Writer, bool)
    requires { writer.board ≡ board.now }
    ensures { result.0.board ≡ board.entry.now }
{
    let mut writer = writer;
    let mut right = true;
    for number in 1..STEPS + 1 {
        right = writer.publish(rt, board, step(number)).is_ok() && right;
    }
    (writer, right)
}

// Reads until the last are shown, and tells whether each read was one of the published, and none before another.
fn read_all<R: Wait>(rt: &R, board: &Board, reader: Reader) -> (Reader, bool)
    requires { reader.board ≡ board.now }
    ensures { result.0.board ≡ board.entry.now }
{
    let mut reader = reader;
    let mut right = true;
    let mut number = 0;
    for _ in 0..READS_MAX {
        let shown = reader.read(rt, board);
        right = right && shown == step(shown.said) && number <= shown.said;
        number = shown.said;
        if number == STEPS {
            break;
        }
    }
    (reader, right)
}

// Two readers at once.
fn read_both<R: Threads + Wait + Sync>(
    rt: &R,
    board: &Board,
    first: Reader,
    second: Reader,
) -> ((Reader, bool), (Reader, bool))
    requires first { first.board ≡ board.now }
    requires second { second.board ≡ board.now }
    ensures first { result.0.0.board ≡ board.entry.now }
    ensures second { result.1.0.board ≡ board.entry.now }
{
    join(
        rt,
        move || read_all(rt, board, first),
        move || read_all(rt, board, second),
    )
}

// All three beside one another; then one reader takes the other in, reads, and the board is closed.
fn watch(rt: &(impl Abort + Threads + Wait + Sync), alloc: Global) -> Result<(), Fail> {
    let (board, writer, mut reader) = make(alloc)?;
    let other = reader.split(&board);
    let shared = &board;
    let ((writer, published), ((mut reader, own), (other, others))) = join(
        rt,
        move || publish_all(rt, shared, writer),
        move ||
            requires { (reader.board ≡ shared.now) × (other.board ≡ shared.now) }
        { read_both(rt, shared, reader, other) },
    );
    assert!(rt; published && own && others);
    reader.join(&board, other);
    assert!(rt; reader.read(rt, &board) == step(STEPS));
    let (written, read) = close(rt, board, writer, reader);
    assert!(rt; written == step(STEPS) && read == written);
    Ok(())
}

// Each read is zeros or one of the published, and none goes back.
#[test]
fn readers_read_beside_a_writer(rt: HostRuntime) -> Result<(), Fail> {
    watch(&rt, rt.alloc())
}
