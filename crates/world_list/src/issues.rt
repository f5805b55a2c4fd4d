// Of one party the writes that it may issue: Issue.
ghost use Rattle.std.specs.Prelude.{◌≡◌, ℕ, OnOk};
ghost use Rattle.std.specs.List.{flat_map};
ghost use Rattle.std.specs.Map.{keys_of};
ghost use Rattle.core_definitions.specs.Cores.{writes};
ghost use Rattle.core_definitions.specs.Enabled.{only};
ghost use Rattle.core_definitions.specs.Events.{Issue};
ghost use Rattle.core_definitions.specs.WriteGuards.{may_issue};
ghost use Rattle.ordered_map.specs.Chunks.{joined};
ghost use Rattle.world_list.specs.Going.{AreStages, IsGoing, IsParty};
ghost use Rattle.world_list.specs.Issuing.{may_write};
ghost use Rattle.world_list.specs.Listing.{Adds, AddsOf};
ghost use Rattle.world_list.specs.Rows.{party_events};
ghost use Rattle.world_list.specs.declared.row.Row.TheVariants as rows;
ghost use Rattle.world_state.specs.States.{core_at};

use crate::asked::asked;
use crate::candidates::candidates;
use crate::pushing::push_if;
use frang_base::{NoMemory, Sector, ServerId};
use hall_runs::Event;
use line_stages::Stage;
use ordered_map::Chunk;
use std::alloc::Global;
use world_asks::{Asking, host_write};
use world_parties::is_server;
use world_state::World;

// Whether the server that is asked, or else the host, may issue a write of a sector.
fn may_issue(world: &World, asking: &Option<Asking<'_>>, sector: Sector) -> bool
    requires { IsGoing world.now }
    ensures { result ≡ may_write world.now asking.now sector.0 }
{
    match asking {
        Some(asking) => asking.may_issue(sector),
        None => host_write(world, sector).is_some(),
    }
}

// Of the sectors of a piece, those that a party may write.
fn push_piece(
    list: &mut Vec<Event>,
    world: &World,
    a: ServerId,
    asking: &Option<Asking<'_>>,
    piece: &[(u64, ())],
) -> Result<(), NoMemory>
    requires { IsGoing world.now }
    ensures { OnOk result (Adds list.old.items list.new.items (flat_map (λ sector. only (may_write world.now asking.now sector) (Issue a.0 sector)) (keys_of piece.now))) }
{
    for (number, _) in piece {
        let sector = Sector(*number);
        push_if(
            list,
            may_issue(world, asking, sector),
            Event::Issue(a, sector),
        )?;
    }
    Ok(())
}

// The same of pieces that follow one another.
fn push_pieces(
    list: &mut Vec<Event>,
    world: &World,
    a: ServerId,
    asking: &Option<Asking<'_>>,
    pieces: &[Chunk<u64, ()>],
) -> Result<(), NoMemory>
    requires { IsGoing world.now }
    ensures { OnOk result (Adds list.old.items list.new.items (flat_map (λ sector. only (may_write world.now asking.now sector) (Issue a.0 sector)) (keys_of (joined pieces.now)))) }
{
    for piece in pieces {
        push_piece(list, world, a, asking, piece.entries())?;
    }
    Ok(())
}

// The server of a number, or none where it is the host.
fn writer<'a>(world: &'a World, stages: &[Option<Stage>], a: ServerId) -> Option<Asking<'a>>
    requires going { IsGoing world.now }
    requires stages { AreStages world.now stages.now }
    requires party { IsParty a.0 }
    ensures { (sector : ℕ) → may_write world.now result sector ≡ may_issue (core_at world.now) a.0 sector (writes (core_at world.now) a.0) }
{
    if is_server(a) {
        Some(asked(world, stages, a))
    } else {
        None
    }
}

/// Issue.
pub(crate) fn push_issues(
    list: &mut Vec<Event>,
    alloc: Global,
    world: &World,
    stages: &[Option<Stage>],
    a: ServerId,
) -> Result<(), NoMemory>
    requires going { IsGoing world.now }
    requires stages { AreStages world.now stages.now }
    requires party { IsParty a.0 }
    ensures { OnOk result (AddsOf list.old.items list.new.items (party_events world.now rows.Issues a.0)) }
{
    let sectors = candidates(alloc, world, stages, a)?;
    push_pieces(list, world, a, &writer(world, stages, a), sectors.chunks())
}
