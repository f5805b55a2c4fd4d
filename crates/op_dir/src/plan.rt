// The plan of an operation on names.
ghost use Rattle.std.specs.Prelude.{◌≡◌, ◌≤◌, ◌<◌, ◌^◌, ℕ, IfOk, length};
ghost use Rattle.frang_base.specs.declared.limits.TheConstants.{TARGET_BYTES_MAX};
ghost use Rattle.disk_definitions.specs.PlanOf.{plan_of};
ghost use Rattle.disk_definitions.specs.Written.{hand_of};
ghost use Rattle.disk_definitions.specs.Allowed.{IsAllowed};
ghost use Rattle.dir_lookup.specs.Hands.{over, seen};
ghost use Rattle.dir_lookup.specs.Planned.{planned};
ghost use Rattle.dir_lookup.specs.Reading.{reading};
ghost use Rattle.plan_steps.specs.Ends.{Comes};
ghost use Rattle.plan_steps.specs.Looking.{Looks, UnlessNoMemory};
ghost use Rattle.code_plan_laws.specs.CodeStands.{IsOverADisk, StandsOverDisks, IsExactOverDisks};
ghost use Rattle.op_dir.specs.Names.{IsOfNames};

use crate::{link_node, make, remove_directory, rename_node, unlink};
use dir_lookup::{Hand, Looked};
use edit_writing::finish;
use frang_base::{Held, NoMemory, Op, OpNo, Text};
use meta_version::Plan;
use plan_steps::{NewNode, Outcome, Stop};
use std::alloc::Global;
use tree_definitions::Target;
use usable_sectors::Usable;

/// The plan of an operation on names, whose new node has the birth `birth`, over the cached sectors and the bitmaps of the held segments; `all` says
/// whether these are all segments of the disk. `Need` names the first sector that is looked at and isn't cached, and the sector of a segment that isn't
/// held; `Segments` comes exactly where an allocation finds nothing and not all segments are held; `Clear` exactly where a directory takes a block that
/// was never a directory's and isn't cached as zero; `Done` has the reply with the changes that make it and what is freed, and no bytes. The sectors and
/// the bitmaps have to be those of one disk that stands for a tree. At any time the plan is the same, since names give no times. Its one refusal is want of
/// memory.
pub fn plan_dir(
    alloc: Global,
    op: &Op,
    birth: OpNo,
    sectors: &Usable,
    held: &Held,
    all: bool,
) -> Result<Plan, NoMemory>
    requires names { IsOfNames op.now }
    requires disk { IsOverADisk op.now birth.0 sectors.now.entries held.now all }
    ensures is { (when : ℕ) → IfOk result (λ plan. plan ≡ planned sectors.now.entries held.now (reading (plan_of (hand_of sectors.now.entries held.now all) birth.0 when op.now) sectors.now.entries held.now)) }
    ensures stands { (when : ℕ) → when < 2 ^ 64 → IfOk result (StandsOverDisks op.now birth.0 when sectors.now.entries held.now all) }
    ensures exact { (when : ℕ) → when < 2 ^ 64 → IfOk result (IsExactOverDisks op.now birth.0 when sectors.now.entries held.now all) }
{
    let hand = Hand { sectors, held, all };
    let mut looked = Looked::unasked();
    let ended = plan_names(alloc, op, birth.0, &hand, &mut looked);
    finish(alloc, &hand, ended)
}

/// How the plan of an operation on names ends, at any time. Its other refusal is want of memory.
pub fn plan_names(
    alloc: Global,
    op: &Op,
    birth: u64,
    hand: &Hand,
    looked: &mut Looked,
) -> Result<Outcome, Stop>
    requires names { IsOfNames op.now }
    requires allowed { IsAllowed op.now }
    ensures comes { (when : ℕ) → Comes (over (plan_of (seen hand.now) birth when op.now) hand.now) result }
    ensures looks { (when : ℕ) → UnlessNoMemory result (Looks hand.now.sectors.now.entries hand.now.held.now looked.old looked.new (plan_of (seen hand.now) birth when op.now)) }
{
    match op {
        Op::Create { path } => make(alloc, hand, birth, &NewNode::File, path, looked),
        Op::Mkdir { path } => make(alloc, hand, birth, &NewNode::Directory, path, looked),
        Op::Symlink { path, target } => {
            let node = NewNode::Link(target_of(target)?);
            make(alloc, hand, birth, &node, path, looked)
        }
        Op::Link { path, to } => link_node(alloc, hand, path, to, looked),
        Op::Unlink { path } => unlink(alloc, hand, path, looked),
        Op::Rmdir { path } => remove_directory(alloc, hand, path, looked),
        Op::Rename { path, to } => rename_node(alloc, hand, path, to, looked),
        _ => unreachable!(),
    }
}

// A target of its own with these bytes.
fn target_of(text: &Text) -> Result<Target, NoMemory>
    requires { length text.now ≤ TARGET_BYTES_MAX }
    ensures { IfOk result (λ target. target ≡ text.now) }
{
    Ok(Target::of(text.try_copy()?))
}
