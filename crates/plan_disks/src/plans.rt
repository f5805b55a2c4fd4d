// Plans in words: the reply with the changes, the bytes and the freed sectors that make it.
ghost use Rattle.std.specs.Prelude.{◌≡◌, true};
ghost use Rattle.disk_definitions.specs.Held.{AreSegments};
ghost use Rattle.edit_writing.specs.Sectors.{EndsWithNextVersions, at_hand};

use crate::digits::add_digits;
use crate::replies::add_reply;
use dir_lookup::Hand;
use edit_writing::{finish, have_next_versions};
use frang_base::{Block, Change, NoMemory, Patch, Sector};
use meta_version::Plan;
use plan_steps::{Outcome, Stop};
use std::alloc::Global;
use std::fmt::Write;

/// What a plan that ended so writes over what is at hand. It refuses want of memory.
pub fn written_told(
    alloc: Global,
    hand: &Hand,
    ended: Result<Outcome, Stop>,
) -> Result<String, NoMemory>
    requires { AreSegments hand.now.held.now }
{
    if !ends_with_next_versions(hand, &ended) {
        return Ok(format!(in alloc; "a version has no next one")?);
    }
    let plan = finish(alloc, hand, ended)?;
    plan_told(alloc, &plan)
}

// The version of each sector that the edits change has a next one.
fn ends_with_next_versions(hand: &Hand, ended: &Result<Outcome, Stop>) -> bool
    requires { AreSegments hand.now.held.now }
    ensures { result ≡ true → EndsWithNextVersions (at_hand hand.now) ended.now }
{
    match ended {
        Ok(outcome) => have_next_versions(hand, &outcome.edits),
        Err(_) => true,
    }
}

/// A plan: its reply with what makes it, or what it needs. Its one refusal is want of memory.
pub fn plan_told(alloc: Global, plan: &Plan) -> Result<String, NoMemory> {
    let mut text = String::new(alloc);
    add_plan(alloc, &mut text, plan)?;
    Ok(text)
}

fn add_plan(alloc: Global, text: &mut String, plan: &Plan) -> Result<(), NoMemory> {
    match plan {
        Plan::Need(sector) => write!(text, "needs {}", sector.0)?,
        Plan::Segments => write!(text, "segments")?,
        Plan::Clear { block } => write!(text, "clear {block}")?,
        Plan::Done {
            reply,
            changes,
            bytes,
            freed,
        } => {
            add_reply(alloc, text, reply)?;
            add_changes(text, changes.as_slice())?;
            add_writes(text, bytes.as_slice())?;
            add_freed(text, freed.as_slice())?;
        }
    }
    Ok(())
}

/// Adds changes: each sector with its new version, and the new bytes by their first places. Its one refusal is want of memory.
pub fn add_changes(text: &mut String, changes: &[Change]) -> Result<(), NoMemory> {
    for change in changes {
        write!(text, ", {} v{}", change.sector.0, change.version)?;
        add_patches(text, change.patches.as_slice())?;
    }
    Ok(())
}

fn add_patches(text: &mut String, patches: &[Patch]) -> Result<(), NoMemory> {
    for patch in patches {
        write!(text, " {}:", patch.at)?;
        add_digits(text, patch.bytes.as_slice())?;
    }
    Ok(())
}

/// Adds the sectors of file bytes that are written, with their bytes. Its one refusal is want of memory.
pub fn add_writes(text: &mut String, writes: &[(Sector, Block)]) -> Result<(), NoMemory> {
    for (sector, block) in writes {
        write!(text, ", {}=", sector.0)?;
        add_digits(text, block)?;
    }
    Ok(())
}

/// Adds the first and the last of each run of freed sectors. Its one refusal is want of memory.
pub fn add_freed(text: &mut String, sectors: &[Sector]) -> Result<(), NoMemory> {
    let mut next = None;
    for (place, sector) in sectors.iter().enumerate() {
        let number = sector.0;
        if next != Some(number) {
            write!(text, ", freed {number}")?;
        }
        next = number.checked_add(1);
        if sectors.get(place + 1).map(|sector| sector.0) != next {
            write!(text, "..{number}")?;
        }
    }
    Ok(())
}
