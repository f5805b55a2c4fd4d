// What no clause says: that each call succeeds while there is memory, and what the trusted edge
// does.
use frang_base::{NoMemory, Sector, ServerId};
use frang_outside::{
    DirFiles, Failed, FaultyOutside, FileFault, Files, Gate, MemFiles, MemOutside, NoGate, Outside,
    Put, PutFault, SayFault, StdOutside, Taken,
};
use std::alloc::Global;
use std::cell::RefCell;
use std::fmt::Display;
use std::process::Abort;
use std::test::Fail;
use std::{env, fs, io, process};

const WRITER: ServerId = ServerId(1);

const SECTOR: Sector = Sector(7);

// A put by its stamp, its now and the byte that it writes, what is answered, and the byte that the
// sector has then.
type PutCase = (u64, u64, u8, Result<Taken, PutFault>, u8);

// A get answers a sector with this byte throughout.
fn has_bytes<O: Outside>(out: &mut O, sector: Sector, byte: u8) -> bool {
    out.get(WRITER, sector) == Ok([byte; 512])
}

fn says<O: Outside>(out: &mut O, line: &str, answer: Result<(), SayFault>) -> bool {
    out.say(line.as_bytes()) == answer
}

fn try_puts<O: Outside>(rt: &impl Abort, out: &mut O, cases: &[PutCase]) {
    for (stamp, now, byte, answer, left) in cases {
        let put = Put {
            server: WRITER,
            behalf: WRITER,
            stamp: *stamp,
            now: *now,
            sector: SECTOR,
            bytes: [*byte; 512],
        };
        let is_answered = out.put(&put) == *answer;
        assert!(rt; is_answered && has_bytes(out, SECTOR, *left), "byte {byte}");
    }
    assert!(rt; has_bytes(out, Sector(8), 0));
}

// Workers share the gate, and pass the outside on.
fn enters<G: Gate + Sync>(gate: &G) {
    gate.enter(WRITER, 1);
}

fn passes<O: Outside + Send>(out: O) -> O {
    out
}

static IN_TIME: [PutCase; 3] = [
    (5, 4, 1, Ok(Taken::Written), 1),
    (5, 5, 2, Ok(Taken::Written), 2),
    (5, 6, 3, Ok(Taken::Late), 2),
];

// An outside whose acts are told.
fn try_told(rt: &impl Abort, alloc: Global) {
    let mut out = passes(MemOutside::new(alloc));
    try_puts(rt, &mut out, &IN_TIME);
    assert!(rt; says(&mut out, "1 0 ok\n", Ok(())));
    assert!(rt; out.acts().len() == 4);
}

#[test]
fn outsides_in_memory_take_puts_in_time(rt: HostRuntime) {
    enters(&NoGate);
    try_told(&rt, rt.alloc());
}

#[test]
fn the_real_outside_takes_puts_in_time(rt: HostRuntime) -> Result<(), Fail> {
    let mut out = passes(StdOutside::new(rt.alloc(), rt.clone()?));
    try_puts(&rt, &mut out, &IN_TIME);
    Ok(())
}

// The same where the second and the third put fail, of which the third is late.
static WITH_FAULTS: [PutCase; 4] = [
    (5, 5, 1, Ok(Taken::Written), 1),
    (5, 5, 2, Err(PutFault::Failed), 1),
    (5, 6, 3, Ok(Taken::Late), 1),
    (5, 5, 4, Ok(Taken::Written), 4),
];

// An outside at which the sixth get, two puts and the second say fail.
fn failing(alloc: Global) -> Result<FaultyOutside, NoMemory> {
    let gets = vec![in alloc; 6u64]?;
    let puts = vec![in alloc; 2u64, 3]?;
    let says = vec![in alloc; 2u64]?;
    Ok(FaultyOutside::new(alloc, gets, puts, says))
}

fn try_failing(rt: &impl Abort, out: &mut FaultyOutside) {
    try_puts(rt, out, &WITH_FAULTS);
    assert!(rt; out.get(WRITER, SECTOR) == Err(Failed));
    assert!(rt; has_bytes(out, SECTOR, 4));
    assert!(rt; says(out, "1 0 ok\n", Ok(())));
    assert!(rt; says(out, "1 0 ok\n", Err(SayFault::Failed)));
    assert!(rt; says(out, "1 0 ok\n", Ok(())));
    assert!(rt; out.acts().len() == 5);
}

#[test]
fn listed_calls_fail(rt: HostRuntime) -> Result<(), Fail> {
    let mut out = passes(failing(rt.alloc())?);
    try_failing(&rt, &mut out);
    Ok(())
}

// Why a read of at most so many bytes is refused, where it is.
fn read_fault<F: Files>(files: &mut F, alloc: Global, name: &str, most: u64) -> Option<FileFault> {
    match files.read(alloc, name, most) {
        Ok(_) => None,
        Err(fault) => Some(fault),
    }
}

fn holds<F: Files>(files: &mut F, alloc: Global, name: &str, text: &str) -> bool {
    match files.read(alloc, name, text.len() as u64) {
        Ok(found) => found.as_slice() == text.as_bytes(),
        Err(_) => false,
    }
}

fn write<F: Files>(files: &mut F, name: &str, text: &str) -> Result<(), FileFault> {
    files.write(name, text.as_bytes())
}

static TEXTS: [&str; 3] = ["longer", "", "short"];

fn try_files<F: Files>(rt: &impl Abort, alloc: Global, files: &mut F, name: &str) {
    assert!(rt; read_fault(files, alloc, name, 9) == Some(FileFault::Failed));
    for text in &TEXTS {
        assert!(rt; write(files, name, text) == Ok(()));
        assert!(rt; holds(files, alloc, name, text));
    }
    assert!(rt; read_fault(files, alloc, name, 4) == Some(FileFault::TooLong));
}

// Another file stays as it is.
fn try_beside(rt: &impl Abort, alloc: Global, files: &mut MemFiles) -> Result<(), Fail> {
    files.put_file("other", "stays".as_bytes())?;
    try_files(rt, alloc, files, "s");
    assert!(rt; holds(files, alloc, "other", "stays"));
    Ok(())
}

#[test]
fn files_in_memory_are_read_whole(rt: HostRuntime) -> Result<(), Fail> {
    let mut files = MemFiles::new(rt.alloc());
    try_beside(&rt, rt.alloc(), &mut files)
}

#[test]
fn real_files_are_read_whole(rt: HostRuntime) -> Result<(), Fail> {
    let alloc = rt.alloc();
    let id = process::id(rt.process());
    let path = env::temp_dir(&rt)?.join(alloc, format!(in alloc; "frang_outside_{id}")?)?;
    try_files(&rt, alloc, &mut DirFiles::new(rt.clone()?), path.as_str());
    fs::remove_file(&rt, path.as_str())?;
    Ok(())
}

// What a printer has printed. It has room for so many bytes.
#[derive(Drop)]
struct Paper {
    printed: RefCell<Vec<u8>>,
    room: usize,
}

impl Print for Paper {
    fn print<D: Display + Drop>(&self, _value: D) -> io::Result<()> {
        Err(io::Error::from(io::ErrorKind::Unsupported))
    }

    fn println<D: Display + Drop>(&self, _value: D) -> io::Result<()> {
        Err(io::Error::from(io::ErrorKind::Unsupported))
    }

    fn write_all(&self, bytes: &[u8]) -> io::Result<()> {
        let Ok(mut printed) = self.printed.try_borrow_mut() else {
            return Err(io::Error::from(io::ErrorKind::ResourceBusy));
        };
        for byte in bytes {
            if printed.len() == self.room {
                return Err(io::Error::from(io::ErrorKind::StorageFull));
            }
            printed.push(*byte)?;
        }
        Ok(())
    }
}

fn has_printed(paper: &Paper, text: &str) -> bool {
    match paper.printed.try_borrow() {
        Ok(printed) => printed.as_slice() == text.as_bytes(),
        Err(_) => false,
    }
}

// Prints a line for which there is room, and one for which there isn't.
fn print_on(rt: &impl Abort, alloc: Global, paper: &Paper) {
    let mut out = StdOutside::new(alloc, paper);
    assert!(rt; says(&mut out, "1 0 ok\n", Ok(())));
    assert!(rt; says(&mut out, "2 0 ok\n", Err(SayFault::Failed)));
}

#[test]
fn a_line_is_printed_whole_or_fails(rt: HostRuntime) {
    let alloc = rt.alloc();
    let paper = Paper {
        printed: RefCell::new(Vec::new(alloc)),
        room: 10,
    };
    print_on(&rt, alloc, &paper);
    assert!(rt; has_printed(&paper, "1 0 ok\n2 0"));
}
