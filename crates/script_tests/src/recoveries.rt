// Histories with recoveries, and the trees that they leave, worked out by hand.
use file_tree::Tree;
use frang_base::{NoMemory, Said, Script};
use reply_text::{read_line, write_line};
use script_lang::read_script;
use std::alloc::Global;
use std::test::Fail;
use tree_definitions::{Cell, Node};
use tree_model::{History, has_proper_targets, has_times, tree_left};

// What was made after the sync is lost.
const UNSYNCED: &str = "0 mount : mounted
0 create /a : ok
0 sync : ok
0 create /b : ok
0 crash : ok
! recovered 0 keeps 1.2";

// One sector was written after the sync, so that it shows any bytes, and from then on those.
const READ: &str = "0 mount : mounted
1 mount : mounted
0 create /a : ok
0 fill /a 0 600 41 : ok
0 sync : ok
0 fill /a 0 10 42 : ok
0 crash : ok
! recovered 0 keeps 1.6
1 read /a 0 4 : data 42414242";

// A server that looked at the file has waited for its bytes.
const TOUCHED: &str = "0 mount : mounted
1 mount : mounted
0 create /a : ok
0 fill /a 0 600 41 : ok
0 sync : ok
0 fill /a 0 10 42 : ok
1 stat /a : file 600 1
0 crash : ok
! recovered 0 keeps 1.6";

// A fill that the log lost is removed, though it leaves the size.
const LOST_FILL: &str = "0 mount : mounted
0 create /a : ok
0 fill /a 0 600 41 : ok
0 sync : ok
0 fill /a 0 10 42 : ok
0 crash : ok
! recovered 0 keeps 1.3";

// So is a truncate to the same size, and what its server did after it.
const LOST_TRUNCATE: &str = "0 mount : mounted
0 create /a : ok
0 fill /a 0 600 41 : ok
0 sync : ok
0 truncate /a 600 : ok
0 create /b : ok
0 crash : ok
! recovered 0 keeps 1.3";

// Each recovery removes its own server's entries. A fill that stays leaves its sector in doubt, and one that is removed does not.
const TWO_SERVERS: &str = "0 mount : mounted
1 mount : mounted
0 create /a : ok
0 fill /a 0 600 41 : ok
0 sync : ok
1 create /b : ok
1 fill /b 0 600 42 : ok
1 sync : ok
0 fill /a 512 8 43 : ok
1 mkdir /d : ok
0 create /c : ok
1 fill /b 0 8 44 : ok
0 crash : ok
1 crash : ok
! recovered 1 keeps 1.7
! recovered 0 keeps 1.9";

// What was done before the server's last mount stays.
const MOUNTED_AGAIN: &str = "0 mount : mounted
0 create /a : ok
0 crash : ok
0 mount : mounted
! recovered 0 keeps 0.0";

fn push_asked(asked: &str, script: &mut Vec<u8>) -> Result<(), NoMemory> {
    script.extend_from_slice(asked.as_bytes())?;
    script.push(b'\n')?;
    Ok(())
}

fn push_said(alloc: Global, line: &[u8], saids: &mut Vec<Said>) -> Result<(), NoMemory> {
    if let Some(said) = read_line(alloc, line)? {
        saids.push(said)?;
    }
    Ok(())
}

// Adds the answer to the line with this number, which its server was asked.
fn push_answer(
    alloc: Global,
    number: u64,
    asked: &str,
    told: &str,
    saids: &mut Vec<Said>,
) -> Result<(), NoMemory> {
    if let Some((who, _)) = asked.split_once(" ") {
        let line = format!(in alloc; "{number} {who} {told}\n")?;
        push_said(alloc, line.as_bytes(), saids)?;
    }
    Ok(())
}

fn push_recovery(alloc: Global, told: &str, saids: &mut Vec<Said>) -> Result<(), NoMemory> {
    let line = format!(in alloc; "{told}\n")?;
    push_said(alloc, line.as_bytes(), saids)
}

// Adds a row's line of the script, and what was said of it.
fn push_row(
    alloc: Global,
    number: u64,
    row: &str,
    script: &mut Vec<u8>,
    saids: &mut Vec<Said>,
) -> Result<(), NoMemory> {
    match row.split_once(" : ") {
        Some((asked, told)) => {
            push_asked(asked, script)?;
            push_answer(alloc, number, asked, told, saids)
        }
        None => {
            push_asked("", script)?;
            push_recovery(alloc, row, saids)
        }
    }
}

// A table's script and what was said of it. A recovery is an empty line of the script, so that a row's place is its line.
fn split_table(alloc: Global, table: &str) -> Result<(Vec<u8>, Vec<Said>), NoMemory> {
    let mut script = Vec::new(alloc);
    let mut saids = Vec::new(alloc);
    let mut number = 0u64;
    for row in table.split('\n') {
        number = number.saturating_add(1);
        push_row(alloc, number, row, &mut script, &mut saids)?;
    }
    Ok((script, saids))
}

fn mark(cell: &Cell) -> u8 {
    match cell {
        Cell::Byte(byte) => *byte,
        Cell::Doubtful => b'?',
    }
}

fn push_ends(sector: &[Cell], text: &mut Vec<u8>) -> Result<(), NoMemory> {
    if let [first, .., last] = sector {
        text.push(mark(first))?;
        text.push(mark(last))?;
    }
    Ok(())
}

// The first and the last cell of each sector of a file.
fn push_marks(cells: &[Cell], text: &mut Vec<u8>) -> Result<(), NoMemory> {
    for sector in cells.chunks(512) {
        push_ends(sector, text)?;
    }
    text.push(b'\n')?;
    Ok(())
}

// The lines of a tree, and then the marks of its files.
fn picture(alloc: Global, tree: &Tree) -> Result<Vec<u8>, NoMemory> {
    let mut text = Vec::new(alloc);
    for line in &tree.lines()? {
        write_line(alloc, line, &mut text)?;
    }
    for node in tree.nodes().values() {
        if let Node::File { cells, .. } = node {
            push_marks(cells.as_slice(), &mut text)?;
        }
    }
    Ok(text)
}

// The picture of the tree that a history leaves of a fresh one.
fn picture_of_history(alloc: Global, history: &History) -> Result<Vec<u8>, NoMemory> {
    if !has_proper_targets(history) {
        return Ok(Vec::new(alloc));
    }
    let fresh = Tree::fresh(alloc, 16)?;
    let tree = tree_left(&fresh, history)?;
    picture(alloc, &tree)
}

// The same of what was said of a script.
fn picture_of_run(alloc: Global, script: &Script, saids: &[Said]) -> Result<Vec<u8>, NoMemory> {
    if !has_times(script) {
        return Ok(Vec::new(alloc));
    }
    let history = History::live(alloc, script, 1, saids)?;
    picture_of_history(alloc, &history)
}

fn picture_of_text(alloc: Global, text: &[u8], saids: &[Said]) -> Result<Vec<u8>, NoMemory> {
    match read_script(alloc, text) {
        Ok(script) => picture_of_run(alloc, &script, saids),
        Err(_) => Ok(Vec::new(alloc)),
    }
}

// The picture of the tree that a table leaves of a fresh one.
fn picture_left(alloc: Global, table: &str) -> Result<Vec<u8>, NoMemory> {
    let (text, saids) = split_table(alloc, table)?;
    picture_of_text(alloc, &text, &saids)
}

// A table, and the picture of the tree that it leaves.
static PICTURES: [(&str, &str); 7] = [
    (UNSYNCED, "= / dir 1\n= /a file 0 1\n\n"),
    (READ, "= / dir 1\n= /a file 600 1\nB?AA\n"),
    (TOUCHED, "= / dir 1\n= /a file 600 1\nBAAA\n"),
    (LOST_FILL, "= / dir 1\n= /a file 600 1\nAAAA\n"),
    (LOST_TRUNCATE, "= / dir 1\n= /a file 600 1\nAAAA\n"),
    (
        TWO_SERVERS,
        "= / dir 2\n= /a file 600 1\n= /b file 600 1\nAA??\nBBBB\n",
    ),
    (MOUNTED_AGAIN, "= / dir 1\n= /a file 0 1\n\n"),
];

#[test]
fn recoveries_leave_trees(rt: HostRuntime) -> Result<(), Fail> {
    for (table, wanted) in &PICTURES {
        let text = picture_left(rt.alloc(), table)?;
        assert!(rt; text.as_slice() == wanted.as_bytes(), "{table}");
    }
    Ok(())
}
