// A gate that holds a line until a later line of another server has passed: others make events meanwhile, so more than one worker runs.
use crate::builders::{DONE, lines_said, tell, words_of};
use frang_base::{NoMemory, ServerId};
use frang_outside::{Gate, MemFiles, MemOutside, Outside};
use frang_top::frang;
use std::alloc::Global;
use std::process::Abort;
use std::sync::Wait;
use std::sync::atomic::{AtomicBool, Ordering};
use std::test::Fail;
use std::thread::Threads;

// More turns than any run takes until the later line passes.
const TURNS_MAX: u32 = 100_000_000;

// Line 1 waits until this line has passed, or for so many turns.
#[derive(Drop)]
struct HoldsFirst {
    until: u32,
    has_passed: AtomicBool,
    has_given_up: AtomicBool,
}

impl HoldsFirst {
    fn until(line: u32) -> HoldsFirst {
        HoldsFirst {
            until: line,
            has_passed: AtomicBool::new(false),
            has_given_up: AtomicBool::new(false),
        }
    }

    fn wait(&self) {
        for _ in 0..TURNS_MAX {
            if self.has_passed.load(Ordering::SeqCst) {
                return;
            }
        }
        self.has_given_up.store(true, Ordering::SeqCst);
    }
}

impl Gate for HoldsFirst {
    fn enter(&self, _server: ServerId, line: u32) {
        if line == 1 {
            self.wait();
        } else if line == self.until {
            self.has_passed.store(true, Ordering::SeqCst);
        }
    }
}

// What a call with these words says whose first line the gate holds; the file `s` is a script of three lines.
fn say_held(
    rt: &(impl Threads + Wait + Sync),
    alloc: Global,
    words: &[&str],
    gate: &HoldsFirst,
) -> Result<Vec<u8>, NoMemory> {
    let mut files = MemFiles::new(alloc);
    files.put_file("s", b"0 mount\n1 mount\n1 stat /\n")?;
    let words = words_of(alloc, words)?;
    let (_, out) = frang(rt, alloc, &words, &mut files, MemOutside::new(alloc), gate);
    lines_said(alloc, out.acts())
}

// Line 1 is answered last, or before line 3 is, which has passed by then.
static SAID: [&str; 2] = [
    "2 1 mounted\n3 1 dir 0\n1 0 mounted\n= / dir 0\n! end\n",
    "2 1 mounted\n1 0 mounted\n3 1 dir 0\n= / dir 0\n! end\n",
];

#[test]
fn events_are_made_while_a_line_is_held(rt: HostRuntime) -> Result<(), Fail> {
    let gate = HoldsFirst::until(3);
    let said = say_held(&rt, rt.alloc(), &["run", "s"], &gate)?;
    assert!(rt; !gate.has_given_up.load(Ordering::SeqCst));
    assert!(rt; SAID.iter().any(|text| said.as_slice() == text.as_bytes()));
    Ok(())
}

// Its lines are answered alike whatever comes first.
const SOAKED: &str = "soak 7 lines 4014 ok 2046 files 326 bytes 425456\n";

#[test]
fn a_soak_says_one_line(rt: HostRuntime) -> Result<(), Fail> {
    let told = tell(&rt, rt.alloc(), &["soak", "7"], &[])?;
    assert!(rt; told.status == DONE && told.text.as_slice() == SOAKED.as_bytes());
    // The second line of server 1 passes while the first of server 0 is held.
    let gate = HoldsFirst::until(6);
    let said = say_held(&rt, rt.alloc(), &["soak", "7"], &gate)?;
    assert!(rt; !gate.has_given_up.load(Ordering::SeqCst));
    assert!(rt; said.as_slice() == SOAKED.as_bytes());
    Ok(())
}
