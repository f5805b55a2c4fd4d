// The plan of an operation on file bytes.
ghost use Rattle.std.specs.Prelude.{◌≡◌, ◌<◌, ◌^◌, ℕ, IfOk};
ghost use Rattle.disk_definitions.specs.PlanOf.{plan_of};
ghost use Rattle.disk_definitions.specs.Written.{hand_of};
ghost use Rattle.dir_lookup.specs.Hands.{over, seen};
ghost use Rattle.dir_lookup.specs.Planned.{planned};
ghost use Rattle.dir_lookup.specs.Reading.{reading};
ghost use Rattle.plan_steps.specs.Ends.{Comes};
ghost use Rattle.plan_steps.specs.Looking.{Looks};
ghost use Rattle.code_plan_laws.specs.CodeStands.{StandsOverDisks, IsExactOverDisks};
ghost use Rattle.op_data.specs.Bytes.{IsOfBytes, IsOverADiskForBytes};

use crate::read::read_file;
use crate::truncate::truncate_file;
use crate::write::write_file;
use crate::writing::Writing;
use dir_lookup::{Hand, Looked};
use edit_writing::finish;
use frang_base::{Held, NoMemory, Op};
use meta_version::Plan;
use plan_steps::{Outcome, Stop};
use std::alloc::Global;
use tree_edits::Bytes;
use usable_sectors::Usable;

/// The plan of an operation on file bytes over the cached sectors and the bitmaps of the held segments; `all` says whether these are all segments of the
/// disk. `when` is the time of the operation, its run in the upper 32 bits and the tick of the run in the lower ones, which a file that is written or cut
/// gets. `Need` names the first sector that is looked at and isn't cached, and the sector of a segment that isn't held; `Segments` comes exactly where an
/// allocation finds nothing and not all segments are held; `Done` has the reply, the changes and the bytes that make it, and the sectors of the blocks
/// that are freed. The sectors and the bitmaps have to be those of one disk that stands for a tree. Its one refusal is want of memory.
pub fn plan_data(
    alloc: Global,
    op: &Op,
    when: u64,
    sectors: &Usable,
    held: &Held,
    all: bool,
) -> Result<Plan, NoMemory>
    requires bytes { IsOfBytes op.now }
    requires disk { IsOverADiskForBytes op.now sectors.now.entries held.now all }
    ensures is { (birth : ℕ) → IfOk result (λ plan. plan ≡ planned sectors.now.entries held.now (reading (plan_of (hand_of sectors.now.entries held.now all) birth when op.now) sectors.now.entries held.now)) }
    ensures stands { (birth : ℕ) → birth < 2 ^ 64 → IfOk result (StandsOverDisks op.now birth when sectors.now.entries held.now all) }
    ensures exact { (birth : ℕ) → birth < 2 ^ 64 → IfOk result (IsExactOverDisks op.now birth when sectors.now.entries held.now all) }
{
    let hand = Hand { sectors, held, all };
    let mut looked = Looked::unasked();
    let ended = plan_bytes(alloc, op, when, &hand, &mut looked);
    finish(alloc, &hand, ended)
}

/// How the plan of an operation on file bytes, at the time `when`, ends over what is at hand, which needn't be of any disk: with the reply and
/// the edits that make it, or with what it needs or is refused with. A file that is written or cut always has its inode among the edits.
pub fn plan_bytes(
    alloc: Global,
    op: &Op,
    when: u64,
    hand: &Hand,
    looked: &mut Looked,
) -> Result<Outcome, Stop>
    requires { IsOfBytes op.now }
    ensures comes { (birth : ℕ) → Comes (over (plan_of (seen hand.now) birth when op.now) hand.now) result }
    ensures looks { (birth : ℕ) → Looks hand.now.sectors.now.entries hand.now.held.now looked.old looked.new (plan_of (seen hand.now) birth when op.now) }
{
    match op {
        Op::Write { path, off, bytes } => {
            let off = *off;
            let bytes = Bytes::Text(bytes.as_slice());
            write_file(alloc, hand, path, &Writing { off, when, bytes }, looked)
        }
        Op::Fill {
            path,
            off,
            len,
            byte,
        } => {
            let (off, len, byte) = (*off, *len, *byte);
            let bytes = Bytes::Same { len, byte };
            write_file(alloc, hand, path, &Writing { off, when, bytes }, looked)
        }
        Op::Truncate { path, len } => truncate_file(alloc, hand, path, when, *len, looked),
        Op::Read { path, off, len } => {
            let reply = read_file(alloc, hand, path, *off, *len, looked)?;
            Ok(Outcome::unchanged(alloc, reply))
        }
        _ => unreachable!(),
    }
}
