// The report on lines worked out by hand.
use frang_base::{NoMemory, Text};
use quiet_outside::soak_line;
use std::alloc::Global;
use std::process::Abort;
use std::test::Fail;

fn texts(alloc: Global, lines: &[&str]) -> Result<Vec<Text>, NoMemory> {
    let mut all = Vec::new(alloc);
    for line in lines {
        all.push(Text::of(alloc, line.as_bytes())?)?;
    }
    Ok(all)
}

// The soak of this number that said these lines has this report.
fn reports(
    rt: &impl Abort,
    alloc: Global,
    number: u64,
    lines: &[&str],
    report: &str,
) -> Result<(), Fail> {
    let said = texts(alloc, lines)?;
    let text = soak_line(alloc, number, &said)?;
    assert!(rt; text.as_slice() == report.as_bytes());
    Ok(())
}

#[test]
fn nothing_said(rt: HostRuntime) -> Result<(), Fail> {
    reports(
        &rt,
        rt.alloc(),
        0,
        &[],
        "soak 0 lines 0 ok 0 files 0 bytes 0\n",
    )
}

#[test]
fn answers_and_files(rt: HostRuntime) -> Result<(), Fail> {
    reports(
        &rt,
        rt.alloc(),
        7,
        &[
            "1 0 mounted\n",
            "2 0 ok\n",
            "3 1 exist\n",
            "4 - ok\n",
            "! dead 2\n",
            "5 1 file 9 1\n",
            "= / dir 2\n",
            "= /a file 513 2\n",
            "= /b file 513 2\n",
            "= /c link 4\n",
            "! end\n",
        ],
        "soak 7 lines 5 ok 2 files 2 bytes 1026\n",
    )
}

// Texts that are no lines that can be said: one without its line feed, one with more behind it, a report, a numeral with a zero before it, a server too many.
#[test]
fn other_texts_count_for_nothing(rt: HostRuntime) -> Result<(), Fail> {
    reports(
        &rt,
        rt.alloc(),
        9,
        &[
            "1 0 ok",
            "1 0 ok\n\n",
            "soak 9 lines 1 ok 1 files 0 bytes 0\n",
            "01 0 ok\n",
            "1 16 ok\n",
            "= a file 5 1\n",
            "= /a file 5\n",
            "",
            "2 15 ok\n",
        ],
        "soak 9 lines 1 ok 1 files 0 bytes 0\n",
    )
}

// Sums above 32 bits, and the greatest number.
#[test]
fn large_numbers(rt: HostRuntime) -> Result<(), Fail> {
    reports(
        &rt,
        rt.alloc(),
        18_446_744_073_709_551_615,
        &["= /a file 4294967295 1\n", "= /b file 4294967295 1\n"],
        "soak 18446744073709551615 lines 0 ok 0 files 2 bytes 8589934590\n",
    )
}
