// What an event makes of a world and of what its host has read, by what was heard.
ghost use Rattle.std.specs.Prelude.{◌≡◌};
ghost use Rattle.core_definitions.specs.LineEffects.{asked, committed_at};
ghost use Rattle.core_definitions.specs.Cores.{stage};
ghost use Rattle.hall_runs.specs.Asking.{heard_of};
ghost use Rattle.world_state.specs.States.{core_at};
ghost use Rattle.world_ready.specs.Events.{event_in};
ghost use Rattle.world_ready.specs.Fits.{FitsAsk, FitsCommit};
ghost use Rattle.world_ready.specs.Making.{Fits};
ghost use Rattle.world_ready.specs.Trees.{IsSaidInTime};
ghost use Rattle.frang_world.specs.Steps.{IsNoArrivalReady, IsStep};

use crate::fetching::{fetch_sector, fetch_slot};
use crate::reading::read;
use crate::recovering::{load, look};
use frang_base::{LockId, Mode, ServerId};
use hall_runs::Heard;
use host_tree::HostTree;
use world_ready::Ready;
use world_state::World;

// Ask: there is room for the want.
fn ask(world: &mut World, a: ServerId, lock: LockId, mode: Mode)
    requires { FitsAsk world.old a.0 lock }
    ensures { core_at world.new ≡ asked (core_at world.old) a.0 lock mode }
{
    match world.ask(a, lock, mode) {
        Ok(()) => {}
        Err(_) => unreachable!(),
    }
}

// Commit: as the kept plan has it.
fn commit(world: &mut World, a: ServerId)
    requires { FitsCommit (core_at world.old) world.old a.0 }
    ensures { core_at world.new ≡ committed_at (core_at world.old) a.0 (stage (core_at world.old) a.0) }
{
    let _reply = world.commit(a);
}

/// What is ready for an event, but an arrival, makes it by what was heard.
pub(crate) fn make(world: &mut World, tree: &mut HostTree, ready: Ready, heard: &Heard)
    requires fits { Fits world.old tree.old ready }
    requires other { IsNoArrivalReady ready }
    requires disk { tree.old.segments ≡ world.old.parties.segments }
    requires said { IsSaidInTime tree.old }
    ensures { IsStep world.old tree.old world.new tree.new (event_in ready) (heard_of heard.now) }
{
    match ready {
        Ready::Begin(a, under) => world.begin(a, under),
        Ready::Ask(a, lock, mode) => ask(world, a, lock, mode),
        Ready::FetchSector(a, sector, cover) => fetch_sector(world, a, sector, cover, heard),
        Ready::FetchSlot(a, sector) => fetch_slot(world, a, sector, heard),
        Ready::Again(a, again) => world.again(a, again),
        Ready::Clear(a, block) => world.clear(a, block),
        Ready::Commit(a) => commit(world, a),
        Ready::Answer(a, answer, ring) => world.answer(a, answer, ring),
        Ready::Give(a, lock) => world.give(a, lock),
        Ready::Issue(by, sector, write) => world.issue(by, sector, write),
        Ready::Doom(a, fate) => world.doom(a, fate),
        Ready::Resume(a) => world.resume(a),
        Ready::Arrive(_) => unreachable!(),
        Ready::Lose(ticket) => world.lose(ticket),
        Ready::Die(a) => world.die(a),
        Ready::Renew(a) => world.renew(a),
        Ready::Tick => world.tick(),
        Ready::Recover(dead, by, demon) => world.recover(dead, by, demon),
        Ready::Load(by, slot) => load(world, by, slot, heard),
        Ready::Look(by, sector) => look(world, by, sector, heard),
        Ready::Finish(by) => world.finish(by),
        Ready::HostLine(number) => world.host_line(number),
        Ready::Close(a) => world.close(a),
        Ready::Read(sector) => read(world, tree, sector, heard),
        Ready::Show(_) => tree.said(),
        Ready::End => world.host_failed(),
    }
}
