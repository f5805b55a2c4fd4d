// Whole runs: what is said, and how each ends.
use crate::builders::{
    DONE, Run, Told, call, expect_runs, tell, tell_words, told_by, words_in, words_of,
};
use frang_base::NoMemory;
use frang_base::limits::SCRIPT_BYTES_MAX;
use frang_outside::{FaultyOutside, MemFiles};
use std::alloc::Global;
use std::fmt::Write;
use std::process::Abort;
use std::sync::Wait;
use std::test::Fail;
use std::thread::Threads;

static RUNS: [Run; 12] = [
    (
        "0 mount\n0 create /a\n0 sync\n",
        "1 0 mounted\n2 0 ok\n3 0 ok\n= / dir 1\n= /a file 0 1\n! end\n",
    ),
    ("", "= / dir 0\n! end\n"),
    (
        "0 create /b\n0 mount\n0 mount\n0 create /b\n0 create /b\n0 create /a\n",
        "1 0 down\n2 0 mounted\n3 0 already\n4 0 ok\n5 0 exist\n6 0 ok\n= / dir 2\n= /a file 0 1\n= /b file 0 1\n! end\n",
    ),
    ("0 sync", "1 0 down\n= / dir 0\n! end\n"),
    // a server sees what another made, once it was asked
    (
        "0 mount\n0 create /a\nbarrier\n1 mount\n1 create /a\n",
        "1 0 mounted\n2 0 ok\n3 - ok\n4 1 mounted\n5 1 exist\n= / dir 1\n= /a file 0 1\n! end\n",
    ),
    // what wasn't written is lost with its server, whose log another reads
    (
        "0 mount\n0 create /a\n0 crash\nbarrier\n1 mount\n1 list /\n",
        "1 0 mounted\n2 0 ok\n! dead 0\n3 0 ok\n4 - ok\n5 1 mounted\n! recovering 0 by 1\n! recovered 0 keeps 0.0\n6 1 names\n= / dir 0\n! end\n",
    ),
    // the host reads it where nobody is mounted
    (
        "0 mount\n0 create /a\n0 sync\n0 create /b\n0 crash\n",
        "1 0 mounted\n2 0 ok\n3 0 ok\n4 0 ok\n! dead 0\n5 0 ok\n! recovering 0 by -\n! recovered 0 keeps 1.2\n= / dir 1\n= /a file 0 1\n! end\n",
    ),
    // what another has seen was written before
    (
        "0 mount\n0 create /a\nbarrier\n1 mount\n1 stat /a\nbarrier\n0 crash\n",
        "1 0 mounted\n2 0 ok\n3 - ok\n4 1 mounted\n5 1 file 0 1\n6 - ok\n! dead 0\n7 0 ok\n! recovering 0 by 1\n! recovered 0 keeps 1.2\n= / dir 1\n= /a file 0 1\n! end\n",
    ),
    // a stalled server loses its lease, and owes an unmount
    (
        "0 mount\n0 create /a\n0 stall\ntick 40\n0 stat /a\n0 unmount\n0 mount\n0 stat /a\n",
        "1 0 mounted\n2 0 ok\n3 0 ok\n! dead 0\n! recovering 0 by -\n! recovered 0 keeps 0.0\n4 - ok\n5 0 expired\n6 0 ok\n7 0 mounted\n8 0 noent\n= / dir 0\n! end\n",
    ),
    (
        "# names\r\n\r\n  0\tmount \r\nbarrier\n0 mkdir /d\n\n0 symlink /d/l t\nbarrier\n",
        "3 0 mounted\n4 - ok\n5 0 ok\n7 0 ok\n8 - ok\n= / dir 1\n= /d dir 1\n= /d/l link 1\n! end\n",
    ),
    // a directory isn't moved below itself
    (
        "0 mount\n0 mkdir /d\n0 rename /d /d/e\n0 mkdir /d/e\n0 rename /d/e /d\n0 rename /d /d\n",
        "1 0 mounted\n2 0 ok\n3 0 inval\n4 0 ok\n5 0 notempty\n6 0 ok\n= / dir 1\n= /d dir 1\n= /d/e dir 0\n! end\n",
    ),
    // a file grows into a large block
    (
        "0 mount\n0 create /f\n0 fill /f 0 65536 41\n0 fill /f 65536 1 42\n0 stat /f\n0 read /f 65535 4\n0 fill /f 65537 1048575 43\n0 write /f 1114112 x\n0 write /f 1114113 x\n0 truncate /f 65536\n0 stat /f\n",
        "1 0 mounted\n2 0 ok\n3 0 ok\n4 0 ok\n5 0 file 65537 1\n6 0 data 4142\n7 0 ok\n8 0 toobig\n9 0 badoffset\n10 0 ok\n11 0 file 65536 1\n= / dir 1\n= /f file 65536 1\n! end\n",
    ),
];

#[test]
fn scripts_are_answered(rt: HostRuntime) -> Result<(), Fail> {
    expect_runs(&rt, rt.alloc(), &RUNS)
}

// A line's place among those said, and the line.
static LINES: [(usize, &str); 3] = [
    (896, "897 0 ok"),
    (897, "898 0 dirfull"),
    (898, "= / dir 896"),
];

// Makes so many files.
fn creates(alloc: Global, count: u32) -> Result<String, NoMemory> {
    let mut script = String::new(alloc);
    script.push_str("0 mount\n")?;
    for n in 1..=count {
        write!(script, "0 create /n{n}\n")?;
    }
    Ok(script)
}

fn has_line(text: &[u8], place: usize, wanted: &str) -> bool {
    match text.split(|byte| *byte == b'\n').nth(place) {
        Some(line) => line == wanted.as_bytes(),
        None => false,
    }
}

#[test]
fn a_directory_has_at_most_896_entries(rt: HostRuntime) -> Result<(), Fail> {
    let script = creates(rt.alloc(), 897)?;
    let told = tell(&rt, rt.alloc(), &["run", "s"], script.as_bytes())?;
    let lines = told.text.iter().filter(|byte| **byte == b'\n').count();
    assert!(rt; told.status == DONE && lines == 1 + 897 + 897 + 1);
    for (place, wanted) in &LINES {
        assert!(rt; has_line(&told.text, *place, wanted), "line {place}");
    }
    Ok(())
}

fn says_nothing(told: &Told, wanted: (u8, u32, u64)) -> bool {
    let (code, line, at) = wanted;
    told.status.code == code
        && told.status.line == line
        && told.status.at == at
        && told.status.sector == 0
        && told.acts == 0
}

// Such a call ends so and says nothing.
fn expect_status(
    rt: &(impl Abort + Threads + Wait + Sync),
    alloc: Global,
    words: &[&str],
    file: &[u8],
    wanted: (u8, u32, u64),
) -> Result<(), Fail> {
    let told = tell(rt, alloc, words, file)?;
    assert!(rt; says_nothing(&told, wanted), "{wanted:?}");
    Ok(())
}

// Whether a run was done and said this.
fn says(told: &Told, text: &str) -> bool {
    told.status == DONE && told.text.as_slice() == text.as_bytes()
}

// What a call with the words of this line tells where the script is empty.
fn tell_line(
    rt: &(impl Threads + Wait + Sync),
    alloc: Global,
    line: &str,
) -> Result<Told, NoMemory> {
    let words = words_in(alloc, line)?;
    tell_words(rt, alloc, &words, &[])
}

static REFUSED: [&str; 23] = [
    "",
    "run",
    "run -s",
    "walk s",
    "run s s",
    "run s --segments",
    "run --segments s",
    "run s --segments 1 --segments=1",
    "run -- s --segments 1",
    "run s --help",
    "run s --save f --save=f",
    "run s --segments 0",
    "run s --segments 65",
    "run s --segments 01",
    "run s --segments +1",
    "run s --segments x",
    "run s --order",
    "run s --order -1",
    "run s --order +1",
    "run s --order 01",
    "run s --order 18446744073709551616",
    "run s --order 1 --order=1",
    "tree s --order 1",
];

#[test]
fn a_call_that_is_refused_says_nothing(rt: HostRuntime) -> Result<(), Fail> {
    for line in &REFUSED {
        let told = tell_line(&rt, rt.alloc(), line)?;
        assert!(rt; says_nothing(&told, (2, 0, 0)), "{line}");
    }
    Ok(())
}

#[test]
fn a_script_that_is_not_there_or_too_long_is_refused(rt: HostRuntime) -> Result<(), Fail> {
    let alloc = rt.alloc();
    expect_status(&rt, alloc, &["run", "t"], &[], (4, 0, 0))?;
    let long = vec![in alloc; b'x'; SCRIPT_BYTES_MAX + 1]?;
    expect_status(&rt, alloc, &["run", "s"], &long, (8, 0, 1048576))?;
    expect_status(&rt, alloc, &["run", "s"], &long[1..], (1, 1, 2))
}

#[test]
fn a_number_is_a_whole_word(rt: HostRuntime) -> Result<(), Fail> {
    let (alloc, refused) = (rt.alloc(), (2, 0, 0));
    expect_status(&rt, alloc, &["run", "s", "--segments", ""], &[], refused)?;
    expect_status(&rt, alloc, &["run", "s", "--segments", "16 "], &[], refused)
}

static SEGMENTS: [&str; 5] = [
    "run --segments 1 s",
    "run -- s",
    "run s --segments=64",
    "run s --order 0",
    "run --order=18446744073709551615 s --segments 1",
];

#[test]
fn options_have_their_form(rt: HostRuntime) -> Result<(), Fail> {
    for line in &SEGMENTS {
        let told = tell_line(&rt, rt.alloc(), line)?;
        assert!(rt; says(&told, "= / dir 0\n! end\n"), "{line}");
    }
    Ok(())
}

// A script, the line at fault and the kind of its fault.
static BAD: [(&str, u32, u64); 6] = [
    ("0 mount\n0 truncate /a x1\n", 2, 5),
    ("0 mount\n0 create a\n", 2, 6),
    ("0 sync\n0 sink\n", 2, 2),
    ("1 mount\n16 sync\n", 2, 7),
    ("halt\nbarrier\n", 2, 11),
    ("0 crash\n0 create a\n", 2, 6),
];

#[test]
fn a_bad_script_says_nothing(rt: HostRuntime) -> Result<(), Fail> {
    for (file, line, kind) in &BAD {
        expect_status(
            &rt,
            rt.alloc(),
            &["run", "s"],
            file.as_bytes(),
            (1, *line, *kind),
        )?;
    }
    expect_status(&rt, rt.alloc(), &["run", "s"], b"\xff\n", (1, 1, 1))
}

// Which say fails, what is said before, and how many says that are.
static UNSAID: [(u64, u64, &str); 2] = [
    (2, 1, "1 0 mounted\n"),
    (5, 4, "1 0 mounted\n2 0 ok\n3 0 ok\n= / dir 1\n"),
];

// What a call tells where this say fails.
fn call_failing(
    rt: &(impl Threads + Wait + Sync),
    alloc: Global,
    words: &[String],
    files: &mut MemFiles,
    failing: u64,
) -> Result<Told, NoMemory> {
    let says = vec![in alloc; failing]?;
    let out = FaultyOutside::new(alloc, Vec::new(alloc), Vec::new(alloc), says);
    let (status, out) = call(rt, alloc, words, files, out);
    told_by(alloc, status, out.acts())
}

// What a run tells of which a say fails.
fn tell_failing(
    rt: &(impl Threads + Wait + Sync),
    alloc: Global,
    failing: u64,
) -> Result<Told, NoMemory> {
    let mut files = MemFiles::new(alloc);
    files.put_file("s", "0 mount\n0 create /a\n0 sync\n".as_bytes())?;
    let words = words_of(alloc, &["run", "s"])?;
    call_failing(rt, alloc, &words, &mut files, failing)
}

// A run ends so where a say fails.
fn ends_unsaid(
    rt: &(impl Threads + Wait + Sync),
    alloc: Global,
    failing: u64,
    at: u64,
    wanted: &str,
) -> Result<bool, NoMemory> {
    let told = tell_failing(rt, alloc, failing)?;
    let status = told.status;
    Ok(
        status.code == 5
            && status.line == 0
            && status.at == at
            && status.sector == 0
            && told.text.as_slice() == wanted.as_bytes(),
    )
}

#[test]
fn a_say_that_fails_ends_the_run(rt: HostRuntime) -> Result<(), Fail> {
    for (failing, at, wanted) in &UNSAID {
        assert!(rt;
            ends_unsaid(&rt, rt.alloc(), *failing, *at, wanted)?,
            "say {failing}"
        );
    }
    Ok(())
}

// What a run of a script tells of which a get and a put fail, by their numbers from 1; 0 is none.
fn tell_faulty(
    rt: &(impl Threads + Wait + Sync),
    alloc: Global,
    script: &str,
    get: u64,
    put: u64,
) -> Result<Told, NoMemory> {
    let mut files = MemFiles::new(alloc);
    files.put_file("s", script.as_bytes())?;
    let words = words_of(alloc, &["run", "s"])?;
    let gets = vec![in alloc; get]?;
    let puts = vec![in alloc; put]?;
    let out = FaultyOutside::new(alloc, gets, puts, Vec::new(alloc));
    let (status, out) = call(rt, alloc, &words, &mut files, out);
    told_by(alloc, status, out.acts())
}

static FAULTY: &str = "0 mount\n0 create /a\n0 sync\n";

// Which put of the opening fails, and its sector.
static UNOPENED: [(u64, u64); 3] = [(1, 10_737_418_240), (2, 4_294_967_296), (3, 0)];

fn is_unopened(told: &Told, sector: u64) -> bool {
    let status = told.status;
    status.code == 9 && status.line == 0 && status.at == sector && told.text.is_empty()
}

#[test]
fn a_put_that_fails_in_the_opening_ends_the_run(rt: HostRuntime) -> Result<(), Fail> {
    for (failing, sector) in &UNOPENED {
        let told = tell_faulty(&rt, rt.alloc(), FAULTY, 0, *failing)?;
        assert!(rt; is_unopened(&told, *sector), "put {failing}");
    }
    Ok(())
}

// A put of a server that fails ends that server's mount, and the run goes on.
#[test]
fn a_put_that_fails_ends_its_mount(rt: HostRuntime) -> Result<(), Fail> {
    let told = tell_faulty(&rt, rt.alloc(), FAULTY, 0, 4)?;
    assert!(rt;
        says(
            &told,
            "1 0 mounted\n! dead 0\n2 0 io\n3 0 down\n! recovering 0 by -\n! recovered 0 keeps 0.0\n= / dir 0\n! end\n"
        )
    );
    Ok(())
}

// So does a get of it, though nothing of it is lost.
#[test]
fn a_get_that_fails_ends_its_mount(rt: HostRuntime) -> Result<(), Fail> {
    let told = tell_faulty(&rt, rt.alloc(), FAULTY, 1, 0)?;
    assert!(rt; says(&told, "1 0 io\n2 0 down\n3 0 down\n= / dir 0\n! end\n"));
    Ok(())
}

// Where the host's first get fails, as it reads the tree, nothing is said.
#[test]
fn a_get_of_the_host_that_fails_ends_the_run(rt: HostRuntime) -> Result<(), Fail> {
    let told = tell_faulty(&rt, rt.alloc(), "", 1, 0)?;
    assert!(rt; is_unopened(&told, 10_737_418_240));
    Ok(())
}
