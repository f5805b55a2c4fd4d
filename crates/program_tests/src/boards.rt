// Runs whose figures are read while they go on: what is written of them, and that a read stands between the answers of a run.
use crate::builders::{DONE, words_in};
use frang_base::{NoMemory, ServerId};
use frang_outside::{FileFault, Files, Gate, MemFiles, MemOutside, NoGate};
use frang_top::{Status, frang};
use std::alloc::Global;
use std::process::Abort;
use std::sync::Wait;
use std::sync::atomic::{AtomicBool, Ordering};
use std::test::Fail;
use std::thread::Threads;

// What was synced is kept.
const SYNCED: &str = "0 mount\n0 create /a\n0 sync\n";

// A create that nobody saw is lost with its server.
const LOST: &str = "0 mount\n0 create /a\n0 crash\nbarrier\n1 mount\n1 list /\n";

// More turns than any run takes until what is waited for comes.
const TURNS_MAX: u32 = 100_000_000;

// How a run with these words of the script `s` ends over this gate, and what the file `b` then is.
fn run<G: Gate + Sync>(
    rt: &(impl Threads + Wait + Sync),
    alloc: Global,
    line: &str,
    script: &str,
    gate: &G,
) -> Result<(Status, Option<Vec<u8>>), NoMemory> {
    let mut files = MemFiles::new(alloc);
    files.put_file("s", script.as_bytes())?;
    let words = words_in(alloc, line)?;
    let (status, _) = frang(rt, alloc, &words, &mut files, MemOutside::new(alloc), gate);
    Ok((status, files.read(alloc, "b", 1_000_000).ok()))
}

// The lines of a file, which end with line feeds.
fn lines_in(file: &[u8]) -> usize {
    file.iter().filter(|byte| **byte == b'\n').count()
}

// Three reads of a run of this script with these words, and the last line.
fn expect_last(
    rt: &(impl Abort + Threads + Wait + Sync),
    alloc: Global,
    words: &str,
    script: &str,
    last: &str,
) -> Result<(), Fail> {
    let (status, file) = run(rt, alloc, words, script, &NoGate)?;
    let Some(file) = file else {
        assert!(rt; false, "no file");
        return Ok(());
    };
    assert!(rt; status == DONE && lines_in(&file) == 4 && file.ends_with(last.as_bytes()));
    Ok(())
}

#[test]
fn the_last_line_is_of_the_whole_run(rt: HostRuntime) -> Result<(), Fail> {
    let words = "run s --board 3 --board-to b";
    expect_last(&rt, rt.alloc(), words, SYNCED, "\n6 3 0 0\n")?;
    expect_last(&rt, rt.alloc(), words, LOST, "\n11 6 1 1\n")?;
    // Behind the figures the disk is saved.
    let words = "run --board=3 --board-to=b --save=c --segments=1 s";
    expect_last(&rt, rt.alloc(), words, SYNCED, "\n6 3 0 0\n")
}

// Where the run doesn't come to its end no file is written, nor where none is asked for.
#[test]
fn nothing_is_written_of_what_is_refused(rt: HostRuntime) -> Result<(), Fail> {
    let words = "run s --board 3 --board-to b";
    let (status, file) = run(&rt, rt.alloc(), words, "0 sink\n", &NoGate)?;
    assert!(rt; status.code == 1 && file.is_none());
    let (status, file) = run(&rt, rt.alloc(), "run s", SYNCED, &NoGate)?;
    assert!(rt; status == DONE && file.is_none());
    Ok(())
}

// Files of which each is a script, and none can be written.
#[derive(Drop)]
struct Unwritable {
    write_faults: u64,
}

impl Files for Unwritable {
    ghost use Rattle.std.specs.Prelude.{None};

    ghost state = { λ f. record { holds = None; read_faults = 0; write_faults = f.write_faults } };

    fn read(&mut self, alloc: Global, _name: &str, limit: u64) -> Result<Vec<u8>, FileFault> {
        if SYNCED.len() as u64 > limit {
            return Err(FileFault::TooLong);
        }
        Ok(SYNCED.as_bytes().to_vec(alloc)?)
    }

    fn write(&mut self, _name: &str, _bytes: &[u8]) -> Result<(), FileFault> {
        self.write_faults = self.write_faults.saturating_add(1);
        Err(FileFault::Failed)
    }
}

#[test]
fn a_write_of_the_figures_that_fails_is_told(rt: HostRuntime) -> Result<(), Fail> {
    let alloc = rt.alloc();
    let words = words_in(alloc, "run s --board 3 --board-to b --save c")?;
    let mut files = Unwritable { write_faults: 0 };
    let out = MemOutside::new(alloc);
    let (status, _) = frang(&rt, alloc, &words, &mut files, out, &NoGate);
    assert!(rt; status.code == 7 && status.line == 0 && status.at == 0);
    assert!(rt; files.write_faults == 1);
    Ok(())
}

// Who reads that nothing is answered waits until line 2 has come to the gate, and line 2 waits until one answer was read.
#[derive(Drop)]
struct Between {
    has_come: AtomicBool,
    has_read: AtomicBool,
    has_given_up: AtomicBool,
}

impl Between {
    fn new() -> Between {
        Between {
            has_come: AtomicBool::new(false),
            has_read: AtomicBool::new(false),
            has_given_up: AtomicBool::new(false),
        }
    }

    fn wait(&self, until: &AtomicBool) {
        for _ in 0..TURNS_MAX {
            if until.load(Ordering::SeqCst) {
                return;
            }
        }
        self.has_given_up.store(true, Ordering::SeqCst);
    }
}

impl Gate for Between {
    fn enter(&self, server: ServerId, line: u32) {
        match (server == ServerId::HOST, line) {
            (true, 0) => self.wait(&self.has_come),
            (true, 1) => self.has_read.store(true, Ordering::SeqCst),
            (false, 2) => {
                self.has_come.store(true, Ordering::SeqCst);
                self.wait(&self.has_read);
            }
            _ => {}
        }
    }
}

// One answer was read while the run waited for that.
#[test]
fn figures_are_read_while_others_run(rt: HostRuntime) -> Result<(), Fail> {
    let gate = Between::new();
    let words = "run s --board 3 --board-to b";
    let (status, file) = run(&rt, rt.alloc(), words, SYNCED, &gate)?;
    assert!(rt; status == DONE && !gate.has_given_up.load(Ordering::SeqCst));
    let Some(file) = file else {
        assert!(rt; false, "no file");
        return Ok(());
    };
    let read = file
        .split(|byte| *byte == b'\n')
        .any(|line| line == b"1 1 0 0".as_slice());
    assert!(rt; read && lines_in(&file) == 4 && file.ends_with(b"\n6 3 0 0\n"));
    Ok(())
}
