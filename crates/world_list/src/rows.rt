// The rows of the list one behind another.
ghost use Rattle.std.specs.Prelude.{OnOk};
ghost use Rattle.core_definitions.specs.Enabled.{row_by_row};
ghost use Rattle.world_list.specs.Going.{AreStages, IsGoing, IsParty, IsTreeOf};
ghost use Rattle.world_list.specs.Listing.{Adds, AddsOf};
ghost use Rattle.world_list.specs.Rows.{end_rows, line_rows, party_events, recovery_rows, row_events, write_rows};

use crate::ends::{push_close, push_end, push_host_line, push_reads, push_show};
use crate::fetches::push_fetches;
use crate::flights::{push_arrives, push_loses};
use crate::gives::push_gives;
use crate::issues::push_issues;
use crate::lines::{push_again, push_answer, push_ask, push_begin, push_clear, push_commit};
use crate::lives::{push_die, push_doom, push_renew, push_resume};
use crate::recoveries::{push_finish, push_loads, push_looks, push_recovers};
use crate::row::Row;
use frang_base::limits::SERVERS;
use frang_base::{NoMemory, ServerId};
use hall_runs::Event;
use host_tree::HostTree;
use line_stages::Stage;
use std::alloc::Global;
use world_state::World;

// ---- a row over all parties

// Of one party.
fn push_party(
    list: &mut Vec<Event>,
    alloc: Global,
    world: &World,
    stages: &[Option<Stage>],
    row: Row,
    a: ServerId,
) -> Result<(), NoMemory>
    requires going { IsGoing world.now }
    requires stages { AreStages world.now stages.now }
    requires party { IsParty a.0 }
    ensures { OnOk result (AddsOf list.old.items list.new.items (party_events world.now row a.0)) }
{
    match row {
        Row::Begins => push_begin(list, world, a),
        Row::Asks => push_ask(list, world, stages, a),
        Row::Fetches => push_fetches(list, world, stages, a),
        Row::Agains => push_again(list, world, stages, a),
        Row::Clears => push_clear(list, world, stages, a),
        Row::Commits => push_commit(list, world, stages, a),
        Row::Answers => push_answer(list, world, stages, a),
        Row::Gives => push_gives(list, world, a),
        Row::Issues => push_issues(list, alloc, world, stages, a),
        Row::Dooms => push_doom(list, world, stages, a),
        Row::Resumes => push_resume(list, world, a),
        Row::Dies => push_die(list, world, a),
        Row::Renews => push_renew(list, world, a),
        Row::Loads => push_loads(list, world, a),
        Row::Looks => push_looks(list, world, a),
        Row::Finishes => push_finish(list, world, a),
        Row::Closes => push_close(list, world, a),
    }
}

// Of all, the host last.
fn push_row(
    list: &mut Vec<Event>,
    alloc: Global,
    world: &World,
    stages: &[Option<Stage>],
    row: Row,
) -> Result<(), NoMemory>
    requires going { IsGoing world.now }
    requires stages { AreStages world.now stages.now }
    ensures { OnOk result (AddsOf list.old.items list.new.items (row_events world.now row)) }
{
    for a in 0..SERVERS as u8 {
        push_party(list, alloc, world, stages, row, ServerId(a))?;
    }
    push_party(list, alloc, world, stages, row, ServerId::HOST)
}

// ---- rows one behind another

/// The rows of lines.
pub(crate) fn push_lines(
    list: &mut Vec<Event>,
    alloc: Global,
    world: &World,
    stages: &[Option<Stage>],
) -> Result<(), NoMemory>
    requires going { IsGoing world.now }
    requires stages { AreStages world.now stages.now }
    ensures { OnOk result (AddsOf list.old.items list.new.items (λ tree. row_by_row (line_rows world.now tree))) }
{
    push_row(list, alloc, world, stages, Row::Begins)?;
    push_row(list, alloc, world, stages, Row::Asks)?;
    push_row(list, alloc, world, stages, Row::Fetches)?;
    push_row(list, alloc, world, stages, Row::Agains)?;
    push_row(list, alloc, world, stages, Row::Clears)?;
    push_row(list, alloc, world, stages, Row::Commits)?;
    push_row(list, alloc, world, stages, Row::Answers)
}

/// The rows of locks, writes and lives.
pub(crate) fn push_writes(
    list: &mut Vec<Event>,
    alloc: Global,
    world: &World,
    stages: &[Option<Stage>],
) -> Result<(), NoMemory>
    requires going { IsGoing world.now }
    requires stages { AreStages world.now stages.now }
    ensures { OnOk result (AddsOf list.old.items list.new.items (λ tree. row_by_row (write_rows world.now tree))) }
{
    push_row(list, alloc, world, stages, Row::Gives)?;
    push_row(list, alloc, world, stages, Row::Issues)?;
    push_row(list, alloc, world, stages, Row::Dooms)?;
    push_row(list, alloc, world, stages, Row::Resumes)?;
    push_arrives(list, world)?;
    push_loses(list, world)?;
    push_row(list, alloc, world, stages, Row::Dies)?;
    push_row(list, alloc, world, stages, Row::Renews)
}

/// The rows of recoveries.
pub(crate) fn push_recoveries(
    list: &mut Vec<Event>,
    alloc: Global,
    world: &World,
    stages: &[Option<Stage>],
) -> Result<(), NoMemory>
    requires going { IsGoing world.now }
    requires stages { AreStages world.now stages.now }
    ensures { OnOk result (AddsOf list.old.items list.new.items (λ tree. row_by_row (recovery_rows world.now tree))) }
{
    push_recovers(list, world)?;
    push_row(list, alloc, world, stages, Row::Loads)?;
    push_row(list, alloc, world, stages, Row::Looks)?;
    push_row(list, alloc, world, stages, Row::Finishes)
}

/// The rows of the host's lines and of the end.
pub(crate) fn push_ends(
    list: &mut Vec<Event>,
    alloc: Global,
    world: &World,
    stages: &[Option<Stage>],
    tree: &HostTree,
) -> Result<(), NoMemory>
    requires going { IsGoing world.now }
    requires stages { AreStages world.now stages.now }
    requires tree { IsTreeOf world.now tree.now }
    ensures { OnOk result (Adds list.old.items list.new.items (row_by_row (end_rows world.now tree.now))) }
{
    push_host_line(list, world)?;
    push_row(list, alloc, world, stages, Row::Closes)?;
    push_reads(list, world, tree)?;
    push_show(list, world, tree)?;
    push_end(list, world, tree)
}
