// A chain of directories, each the only entry of the one above it, deeper than a small stack bears a call for each: its lines are said one after the other.
use crate::builders::{files_of, tell_over};
use frang_base::NoMemory;
use std::alloc::Global;
use std::sync::Wait;
use std::test::Fail;
use std::thread::Threads;

const SEGMENTS: u32 = 10;
// All inodes of the segments.
const DIRECTORIES: u32 = 640;
// The parameters, the segments, the inodes, and a sector of each directory with an entry.
const SECTORS: u64 = 1290;

fn add_sector(image: &mut Vec<u8>, number: u64, start: &[u8]) -> Result<(), NoMemory> {
    let end = image.len().saturating_add(520);
    image.extend_from_slice(&number.to_le_bytes())?;
    image.extend_from_slice(start)?;
    image.resize(end, 0)?;
    Ok(())
}

fn parameters(alloc: Global) -> Result<Vec<u8>, NoMemory> {
    let mut start = b"FRANGPAR".to_vec(alloc)?;
    start.extend_from_slice(&2u32.to_le_bytes())?;
    start.extend_from_slice(&SEGMENTS.to_le_bytes())?;
    start.extend_from_slice(&1u32.to_le_bytes())?;
    Ok(start)
}

// A segment with all inodes in use; the first one has the directories' blocks.
fn segment(alloc: Global, k: u32) -> Result<Vec<u8>, NoMemory> {
    let mut start = 1u64.to_le_bytes().to_vec(alloc)?;
    start.resize(16, 0xff)?;
    if k == 0 {
        start.resize(175, 0xff)?;
        start.push(0x3f)?;
    }
    Ok(start)
}

// A directory with one entry, in the block of its own number, or the last one, without an entry.
fn directory(alloc: Global, i: u32) -> Result<Vec<u8>, NoMemory> {
    let last = i.saturating_add(1) == DIRECTORIES;
    let mut start = 1u64.to_le_bytes().to_vec(alloc)?;
    start.extend_from_slice(&[2, 0, 1, 0, u8::from(!last), 0, 0, 0])?;
    start.extend_from_slice(&u64::from(!last).to_le_bytes())?;
    start.extend_from_slice(&0u64.to_le_bytes())?;
    if !last {
        start.extend_from_slice(&i.to_le_bytes())?;
    }
    Ok(start)
}

// A sector with the entry `d` of the next directory.
fn entry(alloc: Global, i: u32) -> Result<Vec<u8>, NoMemory> {
    let mut start = 1u64.to_le_bytes().to_vec(alloc)?;
    start.extend_from_slice(&i.saturating_add(1).to_le_bytes())?;
    start.extend_from_slice(&[1, 2, b'd'])?;
    Ok(start)
}

fn add_all(alloc: Global, image: &mut Vec<u8>) -> Result<(), NoMemory> {
    add_sector(image, 0, &parameters(alloc)?)?;
    for k in 0..SEGMENTS {
        add_sector(
            image,
            (1u64 << 32).saturating_add(u64::from(k)),
            &segment(alloc, k)?,
        )?;
    }
    for i in 0..DIRECTORIES {
        add_sector(
            image,
            (5u64 << 31).saturating_add(u64::from(i)),
            &directory(alloc, i)?,
        )?;
    }
    for i in 0..DIRECTORIES - 1 {
        add_sector(
            image,
            (6u64 << 31).saturating_add(8 * u64::from(i)),
            &entry(alloc, i)?,
        )?;
    }
    Ok(())
}

fn chain(alloc: Global) -> Result<Vec<u8>, NoMemory> {
    let mut image = b"FRANGIM1".to_vec(alloc)?;
    image.extend_from_slice(&SECTORS.to_le_bytes())?;
    add_all(alloc, &mut image)?;
    Ok(image)
}

fn chain_lines(alloc: Global) -> Result<Vec<u8>, NoMemory> {
    let mut text = b"= / dir 1\n".to_vec(alloc)?;
    let mut path = Vec::new(alloc);
    for i in 1..DIRECTORIES {
        let last = i == DIRECTORIES - 1;
        path.extend_from_slice(b"/d")?;
        text.extend_from_slice(b"= ")?;
        text.extend_from_slice(&path)?;
        text.extend_from_slice(b" dir ")?;
        text.push(if last { b'0' } else { b'1' })?;
        text.push(b'\n')?;
    }
    text.extend_from_slice(b"! end\n")?;
    Ok(text)
}

// Whether a command says the lines of the chain.
fn is_said<R: Threads + Wait + Sync>(rt: &R, alloc: Global, words: &str) -> Result<bool, NoMemory> {
    let mut files = files_of(alloc, &chain(alloc)?)?;
    let told = tell_over(rt, alloc, words, &mut files)?;
    let lines = chain_lines(alloc)?;
    Ok(told.status.code == 0 && told.text.as_slice() == lines.as_slice())
}

#[test]
fn a_deep_chain_is_said(rt: HostRuntime) -> Result<(), Fail> {
    assert!(rt; is_said(&rt, rt.alloc(), "tree img")?);
    assert!(rt; is_said(&rt, rt.alloc(), "recover img")?);
    Ok(())
}
