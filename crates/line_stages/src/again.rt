// What a line goes on with again.
ghost use Rattle.std.specs.Prelude.{◌≡◌, IfOk, IfSome, Option, is_some, true};
ghost use Rattle.std.specs.List.Sorted.{IsStrictlySortedBy};
ghost use Rattle.std.specs.Map.{keys_of};
ghost use Rattle.lock_definitions.specs.Order.{lock_cmp};
ghost use Rattle.core_definitions.specs.LineEffects.{again_by, set_anew, with_under};
ghost use Rattle.core_definitions.specs.Lines as core;
ghost use Rattle.core_definitions.specs.Lines.{needed_mode, sole_segment};
ghost use Rattle.core_definitions.specs.Servers.{stage_of};
ghost use Rattle.core_definitions.specs.Settings.{Setting, disk_logs};
ghost use Rattle.set_definitions.specs.Sets.{first_set, joined_all, next_segment};
ghost use Rattle.kept_plans.specs.Kept.{IsKeptBeside};
ghost use Rattle.line_stages.specs.Agains.{IsAgain, IsAgainAt, IsFirstWhereAnew};
ghost use Rattle.line_stages.specs.declared.again.Again.TheVariants as agains;
ghost use Rattle.line_stages.specs.Growing.{end_grown, line_grown};
ghost use Rattle.line_stages.specs.Reading.{path_line};
ghost use Rattle.line_stages.specs.Stages.{wants_plan};
ghost use Rattle.server_core.specs.States.{KeepsRoom};

use crate::stage::{Stage, path_line, stage_of};
use frang_base::{LockId, Mode, NoMemory};
use kept_plans::{KeptEnd, KeptPlan, PlannedLine};
use lock_sets::{LockSet, SeenSectors};
use lock_table::LockTable;
use server_core::Server;
use std::alloc::Global;

/// What a line goes on with again, made ready.
#[derive(Drop)]
pub enum Again {
    /// A seen sector has moved: this is the set with which a line begins. Nothing is seen then.
    Anew(LockSet),
    /// The set has grown: this is the set then, and what is seen.
    Grown(LockSet, SeenSectors),
    /// The line is finished: its log gives up its oldest records.
    Reclaim,
}

/// Makes ready what a server's line goes on with again, on a disk of so many segments. `None` exactly where the line is at another stage than those that go on again: nothing has moved, its set
/// doesn't grow and it isn't finished. Its one refusal is want of memory.
pub fn ready_again(
    alloc: Global,
    table: &LockTable,
    server: &Server,
    segments: u32,
    plan: &Option<KeptPlan>,
) -> Result<Option<Again>, NoMemory>
    ensures first { IfOk result (λ again. IfSome again IsFirstWhereAnew) }
    ensures is { IfOk result (λ again. (setting : Setting) → setting.segments ≡ segments → (wants_plan table.now.locks server.now.id server.now.server ≡ true → is_some plan.now ≡ true)
        → IsKeptBeside setting server.now.server plan.now
        → IsAgainAt server.now.server (stage_of setting table.now.locks server.now.id server.now.server) again) }
{
    match stage_of(table, server, plan) {
        Some(Stage::Moving) => Ok(Some(Again::Anew(LockSet::first(alloc)?))),
        Some(Stage::Growing) => {
            see_order(server);
            let again = grown(table, server, segments, plan)?;
            Ok(again)
        }
        Some(Stage::Finishing) => Ok(Some(Again::Reclaim)),
        _ => Ok(None),
    }
}

/// A server's line goes on again with what was made ready for its stage.
pub fn go_again(server: &mut Server, again: Again)
    requires { IsFirstWhereAnew again }
    ensures server { (at : Option core.Stage) → IsAgain server.old.server at again → server.new.server ≡ again_by disk_logs at server.old.server }
    ensures room { KeepsRoom server.old server.new }
{
    match again {
        Again::Anew(first) => go_anew(server, first),
        Again::Grown(set, seen) => server.line_grown(set, seen),
        Again::Reclaim => server.reclaim(),
    }
}

// Its set begins anew.
fn go_anew(server: &mut Server, first: LockSet)
    requires { first ≡ first_set }
    ensures server { server.new.server ≡ with_under server.old.server set_anew }
    ensures room { KeepsRoom server.old server.new }
{
    server.line_anew(first);
}

// The locks of a line's set ascend.
fn see_order(server: &Server)
    ensures { IfSome server.now.server.under (λ u. IsStrictlySortedBy lock_cmp (keys_of u.set)) }
{
    if let Some(under) = server.under() {
        let _locks = under.set().as_slice();
    }
}

// The set of a server's line as it has grown, and what is seen then.
fn grown(
    table: &LockTable,
    server: &Server,
    segments: u32,
    plan: &Option<KeptPlan>,
) -> Result<Option<Again>, NoMemory>
    ensures { IfOk result (λ again. again ≡ line_grown (next_segment segments table.now.locks server.now.id) plan.now (path_line server.now.server)) }
{
    match (path_line(server), plan) {
        (Some(under), Some(KeptPlan::Planned(plan))) => {
            let again = grown_by(table, server, segments, under.set(), plan)?;
            Ok(Some(again))
        }
        _ => Ok(None),
    }
}

// By its set and how its plan ends.
fn grown_by(
    table: &LockTable,
    server: &Server,
    segments: u32,
    set: &LockSet,
    plan: &PlannedLine,
) -> Result<Again, NoMemory>
    ensures { IfOk result (λ again. again ≡ agains.Grown (end_grown set.now (next_segment segments table.now.locks server.now.id set.now) plan.now.end) plan.now.seen) }
{
    let grown = grown_set(table, server, segments, set, &plan.end)?;
    let seen = plan.seen.try_copy()?;
    Ok(Again::Grown(grown, seen))
}

fn grown_set(
    table: &LockTable,
    server: &Server,
    segments: u32,
    set: &LockSet,
    end: &KeptEnd,
) -> Result<LockSet, NoMemory>
    ensures { IfOk result (λ grown. grown ≡ end_grown set.now (next_segment segments table.now.locks server.now.id set.now) end.now) }
{
    match end {
        KeptEnd::Need { cover, .. } => set.grown(&[(*cover, needed_mode(*cover))]),
        KeptEnd::Segments => with_segment(set, next_segment(table, server, segments, set)),
        KeptEnd::Clear { locks, .. } => set.grown(locks.as_slice()),
        KeptEnd::Done(done) => set.grown(done.locks.as_slice()),
    }
}

// The next segment to join a set.
fn next_segment(table: &LockTable, server: &Server, segments: u32, set: &LockSet) -> Option<u32>
    ensures { result ≡ next_segment segments table.now.locks server.now.id set.now }
{
    table.next_segment(server.id(), segments, set.as_slice())
}

// With a segment more, where there is one.
fn with_segment(set: &LockSet, segment: Option<u32>) -> Result<LockSet, NoMemory>
    ensures { IfOk result (λ grown. grown ≡ joined_all set.now (sole_segment segment)) }
{
    match segment {
        Some(segment) => set.grown(&[(LockId::Segment(segment), Mode::Sole)]),
        None => set.try_copy(),
    }
}

// A segment is needed sole and a node shared.
fn needed_mode(lock: LockId) -> Mode
    ensures { result ≡ needed_mode lock }
{
    match lock {
        LockId::Segment(_) => Mode::Sole,
        LockId::Log(_) | LockId::Node(_) => Mode::Shared,
    }
}
