// Longer runs: a suffix that is lost, a disk without room, and four servers that make a tree.
use crate::builders::{DONE, Told};
use crate::several::{WAYS, tell_way};
use frang_base::NoMemory;
use std::alloc::Global;
use std::fmt::Write;
use std::process::Abort;
use std::sync::Wait;
use std::test::Fail;
use std::thread::Threads;

fn count_ending(told: &Told, end: &str) -> usize {
    told.text
        .split(|byte| *byte == b'\n')
        .filter(|line| line.ends_with(end.as_bytes()))
        .count()
}

fn count_beginning(told: &Told, start: &str) -> usize {
    told.text
        .split(|byte| *byte == b'\n')
        .filter(|line| line.starts_with(start.as_bytes()))
        .count()
}

fn has_line(told: &Told, wanted: &str) -> bool {
    told.text
        .split(|byte| *byte == b'\n')
        .any(|line| line == wanted.as_bytes())
}

// ---- a lost suffix

// So many renames of a file to and fro, and a crash.
fn renames(alloc: Global, count: u32) -> Result<String, NoMemory> {
    let mut script = String::new(alloc);
    script.push_str("0 mount\n0 create /a0\n0 sync\n")?;
    for n in 0..count {
        let from = n % 2;
        let to = 1 - from;
        write!(script, "0 rename /a{from} /a{to}\n")?;
    }
    script.push_str("0 crash\n")?;
    Ok(script)
}

// The number behind the words by which a line begins.
fn number_behind(line: &[u8], words: &str) -> Option<u32> {
    let digits = line.strip_prefix(words.as_bytes())?;
    let mut number = 0u32;
    for digit in digits {
        number = number
            .saturating_mul(10)
            .saturating_add(u32::from(digit.wrapping_sub(b'0')));
    }
    Some(number)
}

// The last line whose operation a recovery of the first run keeps.
fn kept_line(told: &Told) -> Option<u32> {
    for line in told.text.split(|byte| *byte == b'\n') {
        if let Some(number) = number_behind(line, "! recovered 0 keeps 1.") {
            return Some(number);
        }
    }
    None
}

// Half of the renames are kept at least, and the file has the name that the last one kept gave it.
fn has_lost_a_suffix(told: &Told) -> bool {
    let name = match kept_line(told) {
        Some(line) if (5_000..=10_003).contains(&line) => {
            if line % 2 == 0 {
                "= /a1 file 0 1"
            } else {
                "= /a0 file 0 1"
            }
        }
        _ => return false,
    };
    told.status == DONE && has_line(told, name) && has_line(told, "= / dir 1")
}

#[test]
fn a_long_run_loses_a_suffix_at_most(rt: HostRuntime) -> Result<(), Fail> {
    let script = renames(rt.alloc(), 10_000)?;
    for way in &WAYS[..3] {
        let told = tell_way(&rt, rt.alloc(), way, "", script.as_str())?;
        assert!(rt; has_lost_a_suffix(&told), "{way}");
    }
    Ok(())
}

// ---- a disk without room

// All inodes of a disk of one segment are used; another server frees one.
fn crowd(alloc: Global) -> Result<String, NoMemory> {
    let mut script = String::new(alloc);
    script.push_str("0 mount\n")?;
    for n in 1..=63 {
        write!(script, "0 create /f{n}\n")?;
    }
    script.push_str("0 create /g\nbarrier\n1 mount\n1 unlink /f1\nbarrier\n0 create /g\n")?;
    Ok(script)
}

static CROWDED: [&str; 4] = ["65 0 nospace inode", "68 1 ok", "70 0 ok", "= / dir 63"];

#[test]
fn a_freed_inode_is_used_by_another_server(rt: HostRuntime) -> Result<(), Fail> {
    let script = crowd(rt.alloc())?;
    for way in &WAYS {
        let told = tell_way(&rt, rt.alloc(), way, "--segments 1", script.as_str())?;
        for wanted in &CROWDED {
            assert!(rt;
                told.status == DONE && has_line(&told, wanted),
                "{way}: {wanted}"
            );
        }
    }
    Ok(())
}

// ---- four servers

// A server makes a directory with fifty files of five bytes.
fn push_files(script: &mut String, server: u32) -> Result<(), NoMemory> {
    write!(script, "{server} mkdir /p/{server}\n")?;
    for n in 1..=50 {
        write!(
            script,
            "{server} create /p/{server}/f{n}\n{server} write /p/{server}/f{n} 0 hello\n"
        )?;
    }
    write!(script, "{server} sync\n")?;
    Ok(())
}

fn four_servers(alloc: Global) -> Result<String, NoMemory> {
    let mut script = String::new(alloc);
    script.push_str("0 mount\n0 mkdir /p\nbarrier\n1 mount\n2 mount\n3 mount\nbarrier\n")?;
    for server in 0..4 {
        push_files(&mut script, server)?;
    }
    script.push_str("barrier\n3 crash\nbarrier\n0 list /p/3\n")?;
    Ok(script)
}

// All is answered, the names of the dead server's directory too, and each file has its bytes.
fn has_made_a_tree(told: &Told) -> bool {
    let names = count_beginning(told, "419 0 names f1 f10 f11 ");
    told.status == DONE
        && count_ending(told, " ok") == 414
        && count_ending(told, " mounted") == 4
        && names == 1
        && count_beginning(told, "= ") == 206
        && count_ending(told, " file 5 1") == 200
        && count_beginning(told, "! recovering 3 by ") == 1
}

#[test]
fn four_servers_make_a_tree(rt: HostRuntime) -> Result<(), Fail> {
    let script = four_servers(rt.alloc())?;
    for way in &WAYS {
        let told = tell_way(&rt, rt.alloc(), way, "", script.as_str())?;
        assert!(rt; has_made_a_tree(&told), "{way}");
    }
    Ok(())
}
