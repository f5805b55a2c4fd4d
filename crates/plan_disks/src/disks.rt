// The sectors of a small disk.
use frang_base::limits::{SECTOR_BYTES, SMALL_BLOCK_SECTORS};
use frang_base::{Block, NoMemory, Sector};
use frang_layout::{Region, sector_of};
use meta_version::Sectors;
use std::alloc::Global;
use test_tables::{block_of, byte, is_row, number_or, sector, split};

// So many sectors of one byte from one on.
#[derive(Clone, Copy)]
struct Run {
    from: u64,
    count: u64,
    byte: u8,
}

/// The sectors of a disk that are cached, by a text whose rows have one or more parts, parted by `;`: `i4` is the sector of inode 4 and zeros, `s4+24`
/// are so many sectors from the first one of small block 4 on, `s4=7f` is a sector of this byte, and behind that stand the pieces that differ. `full 5 6`
/// are blocks of directories in which every place has an entry. Later parts take the place of earlier ones. What is none of these is refused, and so is
/// want of memory.
pub fn sectors_of(alloc: Global, disk: &str) -> Result<Sectors, NoMemory> {
    let mut sectors = Sectors::new(alloc);
    put_sectors(&mut sectors, disk)?;
    Ok(sectors)
}

/// The same over sectors that are cached before.
pub fn put_sectors(sectors: &mut Sectors, disk: &str) -> Result<(), NoMemory> {
    for line in disk.lines() {
        if is_row(line) {
            put_line(sectors, line)?;
        }
    }
    Ok(())
}

fn put_line(sectors: &mut Sectors, line: &str) -> Result<(), NoMemory> {
    for part in line.split(';') {
        let (first, rest) = split(part.trim(), " ");
        match first {
            "" => {}
            "full" => put_full_blocks(sectors, rest)?,
            run => put_run(sectors, run, rest)?,
        }
    }
    Ok(())
}

fn put_run(sectors: &mut Sectors, word: &str, pieces: &str) -> Result<(), NoMemory> {
    let Some(run) = run_of(word) else {
        return Err(NoMemory);
    };
    let block = block_of(run.byte, pieces)?;
    for sector in run.from..run.from.saturating_add(run.count) {
        sectors.set(Sector(sector), block)?;
    }
    Ok(())
}

fn run_of(word: &str) -> Option<Run> {
    let (from, digits) = split(word, "=");
    let (from, count) = split(from, "+");
    Some(Run {
        from: sector(from)?,
        count: number_or(count, 1)?,
        byte: byte(digits)?,
    })
}

fn put_full_blocks(sectors: &mut Sectors, blocks: &str) -> Result<(), NoMemory> {
    for block in blocks.split_whitespace() {
        match block.parse::<u32>() {
            Ok(block) => put_full_block(sectors, block)?,
            Err(_) => return Err(NoMemory),
        }
    }
    Ok(())
}

// A directory's block in which every place has an entry: names of two letters, from `aa` to `hg`, of the file in inode 1.
fn put_full_block(sectors: &mut Sectors, block: u32) -> Result<(), NoMemory> {
    for part in 0..SMALL_BLOCK_SECTORS as u8 {
        let sector = sector_of(&Region::Small { block, part });
        sectors.set(sector, full_sector(b'a' + part))?;
    }
    Ok(())
}

// A sector of version 7 with seven names that begin with this letter.
fn full_sector(letter: u8) -> Block {
    let mut block = [0; SECTOR_BYTES];
    block[0] = 7;
    for place in 0..7 {
        let at = usize::from(place) * 72 + 8;
        let entry = [1, 0, 0, 0, 2, 1, letter, b'a' + place];
        block[at..at + 8].copy_from_slice(&entry);
    }
    block
}
