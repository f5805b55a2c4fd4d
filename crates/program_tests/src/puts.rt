// What a run puts and says, act by act: the opening, zeros for a new directory's block before the line that needs it is answered, the log before the sync is, and what the record names
// in place behind that.
use crate::builders::{call, words_in};
use frang_base::{Block, NoMemory};
use frang_outside::{Act, MemFiles, MemOutside};
use std::alloc::Global;
use std::fmt::Write;
use std::sync::Wait;
use std::test::Fail;
use std::thread::Threads;

// The number that the first eight bytes are: the version of a sector that has one, and the number of a log's sector.
fn first_number(block: &Block) -> u64 {
    match block.first_chunk::<8>() {
        Some(bytes) => u64::from_le_bytes(*bytes),
        None => 0,
    }
}

// A line for each act: a put's sector and the number there, or what was said.
fn act_lines(alloc: Global, acts: &[Act]) -> Result<Vec<u8>, NoMemory> {
    let mut text = Vec::new(alloc);
    for act in acts {
        match act {
            Act::Put(put, _) => {
                let mut line = String::new(alloc);
                write!(line, "{} {}\n", put.sector.0, first_number(&put.bytes))?;
                text.extend_from_slice(line.as_bytes())?;
            }
            Act::Said(line) => text.extend_from_slice(line.as_slice())?,
        }
    }
    Ok(text)
}

fn acts_of_run(
    rt: &(impl Threads + Wait + Sync),
    alloc: Global,
    script: &str,
) -> Result<Vec<u8>, NoMemory> {
    let mut files = MemFiles::new(alloc);
    files.put_file("s", script.as_bytes())?;
    let words = words_in(alloc, "run s")?;
    let (_, out) = call(rt, alloc, &words, &mut files, MemOutside::new(alloc));
    act_lines(alloc, out.acts())
}

// The root's inode, the first segment and the parameters; the eight sectors of the root's first block; and the first sector of the log.
const BEGINS: &str =
    "10737418240 1\n4294967296 1\n0 5927106851782087238\n1 0 mounted\n12884901888 0\n12884901889 0\n12884901890 0\n12884901891 0\n12884901892 0\n12884901893 0\n12884901894 0\n12884901895 0\n2 0 ok\n2147483648 256\n3 0 ok\n";

// Each has the version behind its first one.
static BEHIND: [&str; 4] = [
    "4294967296 2",
    "10737418240 2",
    "10737418241 1",
    "12884901888 1",
];

const ENDS: &str = "= / dir 1\n= /a file 0 1\n! end\n";

fn has_line(text: &[u8], wanted: &str) -> bool {
    text.split(|byte| *byte == b'\n')
        .any(|line| line == wanted.as_bytes())
}

#[test]
fn the_log_is_put_before_what_it_names(rt: HostRuntime) -> Result<(), Fail> {
    let acts = acts_of_run(&rt, rt.alloc(), "0 mount\n0 create /a\n0 sync\n")?;
    assert!(rt; acts.starts_with(BEGINS.as_bytes()) && acts.ends_with(ENDS.as_bytes()));
    let behind = acts.strip_prefix(BEGINS.as_bytes()).unwrap_or(&[]);
    for wanted in &BEHIND {
        assert!(rt; has_line(behind, wanted), "{wanted}");
    }
    // Nothing else is put.
    assert!(rt; acts.split(|byte| *byte == b'\n').count() == 23);
    Ok(())
}
