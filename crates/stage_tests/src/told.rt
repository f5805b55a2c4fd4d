// How far a line has come, and all that is asked of it then, as text.
use crate::words::{add_lock, add_sector};
use crate::work::Work;
use frang_base::{LockId, Mode, NoMemory, Sector};
use line_stages::{
    Again, Stage, asked_next, cleared_next, cover_needed, first_needed, lacks_room, may_commit,
    must_again, needs, room_wanted, stage_of,
};
use std::alloc::Global;
use std::fmt::Write;

/// The stage of the line: with the lock for which it asks next, or else waits; the sectors of the disk that it needs, each with its cover; the block that it clears; whether it goes on again,
/// and may be committed; and whether its log lacks room, with the sectors that have to be clean before.
pub(crate) fn told(work: &Work) -> Result<String, NoMemory> {
    let stage = stage_of(&work.table, &work.server, &work.plan);
    let mut text = String::new(work.alloc);
    add_stage(&mut text, work, &stage)?;
    Ok(text)
}

fn add_stage(text: &mut String, work: &Work, stage: &Option<Stage>) -> Result<(), NoMemory> {
    text.push_str(word_of(stage))?;
    add_asked(text, work, stage)?;
    add_needs(text, work, stage)?;
    add_cleared(text, stage)?;
    add_room(text, work, stage)?;
    add_goings(text, work, stage)
}

fn word_of(stage: &Option<Stage>) -> &'static str {
    match stage {
        None => "-",
        Some(Stage::Asking { .. }) => "asks",
        Some(Stage::Bitmaps) => "bitmaps",
        Some(Stage::Fetching { .. }) => "fetches",
        Some(Stage::Moving) => "moved",
        Some(Stage::Stopping) => "stopped",
        Some(Stage::Growing) => "grows",
        Some(Stage::Clearing { .. }) => "clears",
        Some(Stage::Finishing) => "finished",
    }
}

// The lock that lacks, with a remark where it isn't asked for.
fn add_asked(text: &mut String, work: &Work, stage: &Option<Stage>) -> Result<(), NoMemory> {
    let next = asked_next(stage, &work.table, &work.server);
    match stage {
        Some(Stage::Asking { lock, mode }) => {
            add_lock(text, *lock, *mode)?;
            add_remark(text, next, *lock, *mode)
        }
        _ => add_odd(text, next.is_some()),
    }
}

fn add_remark(
    text: &mut String,
    next: Option<(LockId, Mode)>,
    lock: LockId,
    mode: Mode,
) -> Result<(), NoMemory> {
    match next {
        Some(need) => add_odd(text, need.0 != lock || need.1 != mode),
        None => {
            text.push_str(", waits")?;
            Ok(())
        }
    }
}

// What no stage should say.
fn add_odd(text: &mut String, is_odd: bool) -> Result<(), NoMemory> {
    if is_odd {
        text.push_str(" ?")?;
    }
    Ok(())
}

// The sectors of the disk that are needed. The first of them is the one that is needed first.
fn add_needs(text: &mut String, work: &Work, stage: &Option<Stage>) -> Result<(), NoMemory> {
    let mut first = first_needed(stage, &work.server);
    for place in 0..work.disk.count() {
        if let Some((sector, _)) = work.disk.at(place)
            && needs(stage, &work.server, sector)
        {
            let cover = cover_needed(stage, &work.server, sector);
            add_need(text, sector, cover)?;
            add_odd(text, is_other(first.take(), sector, cover))?;
        }
    }
    add_odd(text, first.is_some())
}

fn add_need(text: &mut String, sector: Sector, cover: Option<LockId>) -> Result<(), NoMemory> {
    add_sector(text, sector)?;
    match cover {
        Some(cover) => {
            text.push_str(" under")?;
            add_lock(text, cover, Mode::Shared)
        }
        None => add_odd(text, true),
    }
}

// A need that is another than this sector with this cover.
fn is_other(need: Option<(Sector, LockId)>, sector: Sector, cover: Option<LockId>) -> bool {
    match need {
        Some(need) => need.0.0 != sector.0 || Some(need.1) != cover,
        None => false,
    }
}

fn add_cleared(text: &mut String, stage: &Option<Stage>) -> Result<(), NoMemory> {
    if let Some(block) = cleared_next(stage) {
        write!(text, " {block}")?;
    }
    Ok(())
}

fn add_room(text: &mut String, work: &Work, stage: &Option<Stage>) -> Result<(), NoMemory> {
    let lacks = lacks_room(stage, &work.server, &work.plan);
    if lacks {
        text.push_str(", no room:")?;
    }
    for sector in room_wanted(lacks, &work.oldest) {
        add_sector(text, *sector)?;
    }
    Ok(())
}

fn add_goings(text: &mut String, work: &Work, stage: &Option<Stage>) -> Result<(), NoMemory> {
    if must_again(stage, &work.server, &work.plan, &work.oldest) {
        text.push_str(", again")?;
    }
    if may_commit(stage, &work.server, &work.plan) {
        text.push_str(", may commit")?;
    }
    Ok(())
}

/// What a line goes on with again: its set, and how many sectors it has seen then.
pub(crate) fn again_told(alloc: Global, again: &Again) -> Result<String, NoMemory> {
    let mut text = String::new(alloc);
    add_again(&mut text, again)?;
    Ok(text)
}

fn add_again(text: &mut String, again: &Again) -> Result<(), NoMemory> {
    match again {
        Again::Anew(set) => add_grown(text, "anew", set.as_slice(), 0),
        Again::Grown(set, seen) => {
            add_grown(text, "grown", set.as_slice(), seen.as_slice().len())
        }
        Again::Reclaim => {
            text.push_str("reclaim")?;
            Ok(())
        }
    }
}

fn add_grown(
    text: &mut String,
    word: &str,
    set: &[(LockId, Mode)],
    seen: usize,
) -> Result<(), NoMemory> {
    text.push_str(word)?;
    for need in set {
        add_lock(text, need.0, need.1)?;
    }
    write!(text, " saw {seen}")?;
    Ok(())
}
