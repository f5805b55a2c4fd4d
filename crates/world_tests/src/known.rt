// What each party lists of the locks that it knows itself to have, before a run and behind a create.
use crate::driving::Driven;
use frang_base::NoMemory;
use lock_definitions::ClerkLocks;
use std::alloc::Global;
use std::process::Abort;
use std::rt::HostRuntime;
use std::test::Fail;

// More turns than this run takes.
const TURNS_MAX: u32 = 1_000;

// Makes the first event of the list at each turn till a line is answered, and says whether it is.
fn run_to(driven: &mut Driven, line: u32) -> Result<bool, NoMemory> {
    for _ in 0..TURNS_MAX {
        if driven.world.answered(line) {
            return Ok(true);
        }
        driven.open_gate();
        match driven.world.enabled()?.first() {
            Some(event) => driven.make(event)?,
            None => return Ok(false),
        }
    }
    Ok(false)
}

// Whether the party at this place of the list is the server of this number, or behind the sixteen the host.
fn is_in_place(clerk: &ClerkLocks, place: usize) -> bool {
    let number = clerk.server.0;
    if place < 16 {
        usize::from(number) == place
    } else {
        number == 255
    }
}

fn has_nothing(clerk: &ClerkLocks) -> bool {
    clerk.held.is_empty() && clerk.wants.is_empty() && clerk.logs.is_empty()
}

// Whether all parties are listed in order, and of them the first holds locks, or none does; nothing else is known.
fn are_known(clerks: &[ClerkLocks], first_holds: bool) -> bool {
    for (place, clerk) in clerks.iter().enumerate() {
        let holds = first_holds && place == 0;
        if !is_in_place(clerk, place) || has_nothing(clerk) == holds {
            return false;
        }
    }
    clerks.len() == 17
}

// Whether the parties list so.
fn lists(driven: &Driven, first_holds: bool) -> Result<bool, NoMemory> {
    let clerks = driven.world.clerks()?;
    Ok(are_known(&clerks, first_holds))
}

// Whether nobody has anything at first, and the first server holds locks once its create is answered.
fn knows_its_locks(driven: &mut Driven) -> Result<bool, NoMemory> {
    let has_none = lists(driven, false)?;
    let is_created = run_to(driven, 2)?;
    let holds = lists(driven, true)?;
    Ok(has_none && is_created && holds)
}

fn are_locks_known(alloc: Global) -> Result<bool, NoMemory> {
    let mut driven = Driven::new(alloc, b"0 mount\n0 create /a\n")?;
    knows_its_locks(&mut driven)
}

#[test]
fn parties_list_their_locks(rt: HostRuntime) -> Result<(), Fail> {
    let is_known = are_locks_known(rt.alloc())?;
    assert!(rt; is_known);
    Ok(())
}
