// The host's reading of a small tree, and the lines that it says of it.
use frang_base::{NoMemory, Said, Sector};
use host_tree::HostTree;
use meta_version::Sectors;
use plan_disks::sectors_of;
use std::alloc::Global;
use std::test::Fail;

// The names `a` and `b` of one file, a directory `d` and a link `l` in the root. The root's entries stand in block 0, the file's three bytes in block 1.
const FOUR_NAMES: &str = "
i0 0:02 8:0200010001 16:04
i1 0:01 8:0100020001 16:03 32:01
i2 0:01 8:020001
i3 0:01 8:030001 16:02 128:'/a
s0+8
s0 0:01 8:010000000101'b 80:030000000103'l 224:010000000101'a
s0.7 440:020000000102'd
s1 0:'xyz
";

// What is said of a node: its path, kind, size and links.
type Line = (&'static str, u8, u32, u32);

static FOUR_LINES: [Line; 5] = [
    ("/", 2, 4, 0),
    ("/a", 1, 3, 2),
    ("/b", 1, 3, 2),
    ("/d", 2, 0, 0),
    ("/l", 3, 2, 0),
];

/// The sectors of inodes 0 to 3, and the first and the last of small block 0.
const FIRST_INODE: u64 = 10_737_418_240;

const FIRST_ENTRIES: u64 = 12_884_901_888;

// In the order in which the least that is needed is read: the root, its entries, and then the other inodes, which come before the entries once these are known.
static READ: [u64; 12] = [
    FIRST_INODE,
    FIRST_ENTRIES,
    FIRST_INODE + 1,
    FIRST_INODE + 3,
    FIRST_ENTRIES + 1,
    FIRST_ENTRIES + 2,
    FIRST_ENTRIES + 3,
    FIRST_ENTRIES + 4,
    FIRST_ENTRIES + 5,
    FIRST_ENTRIES + 6,
    FIRST_ENTRIES + 7,
    FIRST_INODE + 2,
];

fn says(line: &Said, wanted: Line) -> bool {
    let (wanted_path, wanted_kind, wanted_size, wanted_links) = wanted;
    match line {
        Said::Node {
            path,
            kind,
            size,
            links,
        } => {
            path.as_slice() == wanted_path.as_bytes()
                && *kind == wanted_kind
                && *size == wanted_size
                && *links == wanted_links
        }
        _ => false,
    }
}

// The first sector that is needed is this one, and it is read.
fn read_first(tree: &mut HostTree, sectors: &Sectors, wanted: u64) -> Result<bool, NoMemory> {
    let wanted = Sector(wanted);
    if tree.first_needed() != Some(wanted) || !tree.needs(wanted) || tree.is_read() {
        return Ok(false);
    }
    let Some(block) = sectors.get(wanted) else {
        return Ok(false);
    };
    tree.reserve()?;
    tree.read(wanted, block);
    Ok(true)
}

// The next line is this one, or none.
fn is_next(tree: &mut HostTree, wanted: Option<Line>) -> Result<bool, NoMemory> {
    if tree.first_needed().is_some() {
        return Ok(false);
    }
    tree.make_line()?;
    let holds = match (tree.line(), wanted) {
        (Some(line), Some(wanted)) => says(line, wanted),
        (None, None) => return Ok(tree.is_made()),
        _ => false,
    };
    if tree.line().is_some() {
        tree.said();
    }
    Ok(holds)
}

fn is_read_and_said(alloc: Global) -> Result<bool, NoMemory> {
    let sectors = sectors_of(alloc, FOUR_NAMES)?;
    let mut tree = HostTree::new(alloc, 1)?;
    let mut holds = !tree.is_made();
    for sector in &READ {
        holds = holds && read_first(&mut tree, &sectors, *sector)?;
    }
    for line in &FOUR_LINES {
        holds = holds && is_next(&mut tree, Some(*line))?;
    }
    Ok(holds && is_next(&mut tree, None)? && tree.shown() == 5)
}

#[test]
fn a_small_tree_is_read_and_said(rt: HostRuntime) -> Result<(), Fail> {
    assert!(rt; is_read_and_said(rt.alloc())?);
    Ok(())
}
