// The plan of a line.
ghost use Rattle.std.specs.Prelude.{◌≡◌, ◌≤◌, IfOk, OnOk, length};
ghost use Rattle.frang_base.specs.declared.limits.TheConstants.{TARGET_BYTES_MAX};
ghost use Rattle.disk_definitions.specs.PlanOf.{plan_of};
ghost use Rattle.disk_definitions.specs.Lines.{plan_of_line, plan_step, resolved};
ghost use Rattle.dir_lookup.specs.Hands.{over, seen};
ghost use Rattle.dir_lookup.specs.Reading.{Gives};
ghost use Rattle.plan_steps.specs.Ends as plans;
ghost use Rattle.plan_steps.specs.Looking.{Looks, UnlessNoMemory};
ghost use Rattle.line_plan.specs.Disks.{LineIsExact, LineStands};
ghost use Rattle.line_plan.specs.Ends.{ClearsFor, Comes};
ghost use Rattle.line_plan.specs.Lines.{StepFits, TargetFits, resolved_by, step_by};

use crate::ending::{LineEnd, line_end};
use crate::walks::{Line, Resolved, Step, resolve_line};
use dir_lookup::{Hand, Looked};
use frang_base::{NoMemory, Op, Reply, Text};
use op_data::plan_bytes;
use op_dir::{link_node, make, remove_directory, rename_node, unlink};
use op_look::look;
use plan_steps::{NewNode, Outcome, Stop};
use std::alloc::Global;
use tree_definitions::Target;

/// How a line ends over what is at hand, which needn't be of any disk: its paths are resolved, links followed, and the operation that comes of it is
/// planned, with the birth of its new node and the time `when`. It is done with a reply and the edits that make it, none where it is refused; or it
/// needs a sector, the first that it looks at and that isn't cached, walks included, or more segments, or a clear block. An operation without a path is
/// done as it stands. The target of a symbolic link may stand in an inode. What it looked at, walks included, comes to `looked`, in order, before a
/// sector that isn't cached too. Over sectors and bitmaps of a disk that stands for a tree the line stands: its reply is the tree's, and so is what its
/// edits leave; and it needs a sector, lacks segments or has a block cleared exactly where the tree and what is at hand ask for it. Its one refusal is
/// want of memory.
pub fn plan_line(
    alloc: Global,
    hand: &Hand,
    birth: u64,
    when: u64,
    op: &Op,
    looked: &mut Looked,
) -> Result<LineEnd, NoMemory>
    requires { TargetFits op.now }
    ensures looks { OnOk result (Looks hand.now.sectors.now.entries hand.now.held.now looked.old looked.new (plan_of_line (seen hand.now) birth when op.now)) }
    ensures comes { Comes (over (plan_of_line (seen hand.now) birth when op.now) hand.now) result }
    ensures clears { IfOk result (ClearsFor (over (resolved op.now) hand.now)) }
    ensures stands { IfOk result (LineStands op.now birth when hand.now.sectors.now.entries hand.now.held.now hand.now.all) }
    ensures exact { IfOk result (LineIsExact op.now birth when hand.now.sectors.now.entries hand.now.held.now hand.now.all) }
{
    plan_over_walks(alloc, hand, birth, when, op, looked)
}

// Its paths are resolved, and then it is planned.
fn plan_over_walks(
    alloc: Global,
    hand: &Hand,
    birth: u64,
    when: u64,
    op: &Op,
    looked: &mut Looked,
) -> Result<LineEnd, NoMemory>
    requires { TargetFits op.now }
    ensures looks { OnOk result (Looks hand.now.sectors.now.entries hand.now.held.now looked.old looked.new (plan_of_line (seen hand.now) birth when op.now)) }
    ensures comes { Comes (over (plan_of_line (seen hand.now) birth when op.now) hand.now) result }
    ensures clears { IfOk result (ClearsFor (over (resolved op.now) hand.now)) }
{
    let line = resolve_line(alloc, op, hand.sectors, looked)?;
    match line {
        Line::Need(sector) => Ok(LineEnd::Need(sector)),
        Line::Comes(resolved) => plan_step(alloc, hand, birth, when, resolved, looked),
    }
}

// How it ends once its paths are resolved.
fn plan_step(
    alloc: Global,
    hand: &Hand,
    birth: u64,
    when: u64,
    resolved: Resolved,
    looked: &mut Looked,
) -> Result<LineEnd, NoMemory>
    requires { StepFits (step_by resolved.step) }
    ensures comes { Comes (over (plan_step (seen hand.now) birth when resolved.trail.items (step_by resolved.step)) hand.now) result }
    ensures looks { OnOk result (Looks hand.now.sectors.now.entries hand.now.held.now looked.old looked.new (plan_step (seen hand.now) birth when resolved.trail.items (step_by resolved.step))) }
    ensures clears { IfOk result (ClearsFor (Gives (resolved_by resolved))) }
{
    let Resolved {
        step,
        trail: _trail,
    } = resolved;
    match step {
        Step::Goes(over) => {
            let ended = plan_op(alloc, hand, birth, when, &over, looked);
            line_end(alloc, ended, over)
        }
        Step::Stops(reply) => Ok(LineEnd::Done(Outcome::unchanged(alloc, reply))),
    }
}

// How an operation over paths without links ends.
fn plan_op(
    alloc: Global,
    hand: &Hand,
    birth: u64,
    when: u64,
    op: &Op,
    looked: &mut Looked,
) -> Result<Outcome, Stop>
    requires { TargetFits op.now }
    ensures comes { plans.Comes (over (plan_of (seen hand.now) birth when op.now) hand.now) result }
    ensures looks { UnlessNoMemory result (Looks hand.now.sectors.now.entries hand.now.held.now looked.old looked.new (plan_of (seen hand.now) birth when op.now)) }
{
    match op {
        Op::Create { path } => make(alloc, hand, birth, &NewNode::File, path, looked),
        Op::Mkdir { path } => make(alloc, hand, birth, &NewNode::Directory, path, looked),
        Op::Symlink { path, target } => {
            let node = NewNode::Link(target_of(target)?);
            make(alloc, hand, birth, &node, path, looked)
        }
        Op::Link { path, to } => link_node(alloc, hand, path, to, looked),
        Op::Unlink { path } => unlink(alloc, hand, path, looked),
        Op::Rmdir { path } => remove_directory(alloc, hand, path, looked),
        Op::Rename { path, to } => rename_node(alloc, hand, path, to, looked),
        Op::Write { .. } | Op::Fill { .. } | Op::Truncate { .. } | Op::Read { .. } => {
            plan_bytes(alloc, op, when, hand, looked)
        }
        Op::Stat { .. } | Op::List { .. } | Op::Readlink { .. } | Op::Time { .. } => {
            let reply = look(alloc, op, hand.sectors, looked)?;
            Ok(Outcome::unchanged(alloc, reply))
        }
        Op::Sync
        | Op::Mount
        | Op::Unmount
        | Op::Crash
        | Op::CrashAt { .. }
        | Op::CutAt { .. }
        | Op::Stall => Ok(Outcome::unchanged(alloc, Reply::Ok)),
    }
}

// A target of its own with these bytes.
fn target_of(text: &Text) -> Result<Target, NoMemory>
    requires { length text.now ≤ TARGET_BYTES_MAX }
    ensures { IfOk result (λ target. target ≡ text.now) }
{
    Ok(Target::of(text.try_copy()?))
}
