// The plan of a look.
ghost use Rattle.std.specs.Prelude.{◌≡◌, ◌≤◌, ◌<◌, ◌^◌, Bool, ℕ, IfOk, [], if◌then◌else◌, take, ◌==◌};
ghost use Rattle.disk_definitions.specs.Held.{Segments};
ghost use Rattle.disk_definitions.specs.Store.{stored};
ghost use Rattle.disk_definitions.specs.LookPlans.{described, plan_described, plan_listed, plan_target, plan_timed, timed};
ghost use Rattle.disk_definitions.specs.Plans.{Hand};
ghost use Rattle.disk_definitions.specs.PlanOf.{plan_of};
ghost use Rattle.dir_lookup.specs.Planned.{planned};
ghost use Rattle.dir_lookup.specs.Reading.{reading};
ghost use Rattle.dir_lookup.specs.Stored.{IsUsed};
ghost use Rattle.plan_steps.specs.Ends.{Says};
ghost use Rattle.plan_steps.specs.Looking.{Looks, UnlessNoMemory};
ghost use Rattle.code_plan_laws.specs.CodeStands.{StandsOverDisks, IsExactOverDisks};
ghost use Rattle.op_look.specs.Looks.{IsLook, says};

use crate::names::names_in;
use dir_lookup::Looked;
use disk_definitions::Inode;
use frang_base::limits::{KIND_DIRECTORY, KIND_FILE, KIND_LINK, RUN_TICKS_END};
use frang_base::{Changes, NoMemory, Op, Path, Reply, Text};
use meta_version::{ByteWrites, Plan, SectorList};
use plan_steps::{Stop, inode_of, target_of};
use std::alloc::Global;
use usable_sectors::Usable;

/// The plan of an operation that only looks: stat, list, readlink or time. It is done with the reply, and changes nothing; or a sector is
/// needed, the first that is looked at and isn't cached. Whatever segments are held, over every disk that stands for a tree it answers as the
/// tree does. Its one refusal is want of memory.
pub fn plan_look(alloc: Global, op: &Op, sectors: &Usable) -> Result<Plan, NoMemory>
    requires { IsLook op.now }
    ensures is { (h : Hand) (birth when : ℕ) (held : Segments) → IfOk result (λ plan. plan ≡ planned sectors.now.entries held (reading (plan_of h birth when op.now) sectors.now.entries held)) }
    ensures stands { (birth when : ℕ) (held : Segments) (all : Bool) → birth < 2 ^ 64 → when < 2 ^ 64 → IfOk result (StandsOverDisks op.now birth when sectors.now.entries held all) }
    ensures exact { (birth when : ℕ) (held : Segments) (all : Bool) → birth < 2 ^ 64 → when < 2 ^ 64 → IfOk result (IsExactOverDisks op.now birth when sectors.now.entries held all) }
{
    ended_look(alloc, op, sectors)
}

// The plan, as the look ended.
fn ended_look(alloc: Global, op: &Op, sectors: &Usable) -> Result<Plan, NoMemory>
    requires { IsLook op.now }
    ensures { (h : Hand) (birth when : ℕ) (held : Segments) → IfOk result (λ plan. plan ≡ planned sectors.now.entries held (reading (plan_of h birth when op.now) sectors.now.entries held)) }
{
    match said(alloc, op, sectors) {
        Ok(reply) => Ok(done(alloc, reply)),
        Err(Stop::Refused(reply)) => Ok(done(alloc, reply)),
        Err(Stop::Need(sector)) => Ok(Plan::Need(sector)),
        Err(Stop::Segments) => Ok(Plan::Segments),
        Err(Stop::Clear { block }) => Ok(Plan::Clear { block }),
        Err(Stop::NoMemory) => Err(NoMemory),
    }
}

// How it ends; what it looks at isn't asked for.
fn said(alloc: Global, op: &Op, sectors: &Usable) -> Result<Reply, Stop>
    requires { IsLook op.now }
    ensures { (h : Hand) (birth when : ℕ) (held : Segments) → Says (reading (plan_of h birth when op.now) sectors.now.entries held) result }
{
    let mut looked = Looked::unasked();
    look(alloc, op, sectors, &mut looked)
}

// A plan that only answers.
fn done(alloc: Global, reply: Reply) -> Plan
    ensures { result ≡ says reply }
{
    Plan::Done {
        reply,
        changes: Changes::from_vec(Vec::new(alloc)),
        bytes: ByteWrites::from_vec(Vec::new(alloc)),
        freed: SectorList::from_vec(Vec::new(alloc)),
    }
}

/// How an operation that only looks ends: with its reply, or with what it needs or is refused with. What it looked at comes to
/// `looked`. Its other refusal is want of memory.
pub fn look(alloc: Global, op: &Op, sectors: &Usable, looked: &mut Looked) -> Result<Reply, Stop>
    requires { IsLook op.now }
    ensures says { (h : Hand) (birth when : ℕ) (held : Segments) → Says (reading (plan_of h birth when op.now) sectors.now.entries held) result }
    ensures looks { (h : Hand) (birth when : ℕ) (held : Segments) → UnlessNoMemory result (Looks sectors.now.entries held looked.old looked.new (plan_of h birth when op.now)) }
{
    match op {
        Op::Stat { path } => describe(sectors, path, looked),
        Op::List { path } => list(alloc, sectors, path, looked),
        Op::Readlink { path } => read_link(alloc, sectors, path, looked),
        Op::Time { path } => time(sectors, path, looked),
        _ => unreachable!(),
    }
}

fn describe(sectors: &Usable, path: &Path, looked: &mut Looked) -> Result<Reply, Stop>
    ensures says { (held : Segments) → Says (reading (plan_described path.now) sectors.now.entries held) result }
    ensures looks { (held : Segments) → UnlessNoMemory result (Looks sectors.now.entries held looked.old looked.new (plan_described path.now)) }
{
    let target = target_of(sectors, path, looked)?;
    let inode = inode_of(sectors, target.inode, looked)?;
    Ok(described(&inode))
}

// What a node is: of a file its size and links, of a directory its entries, of a link its length.
fn described(inode: &Inode) -> Reply
    requires { IsUsed inode.now }
    ensures { result ≡ described (stored inode.now) }
{
    let size = inode.size as u32;
    match inode.kind {
        KIND_FILE => Reply::File {
            size,
            links: u32::from(inode.links),
        },
        KIND_DIRECTORY => Reply::Dir { entries: size },
        _ => Reply::Symlink { len: size },
    }
}

fn list(alloc: Global, sectors: &Usable, path: &Path, looked: &mut Looked) -> Result<Reply, Stop>
    ensures says { (held : Segments) → Says (reading (plan_listed path.now) sectors.now.entries held) result }
    ensures looks { (held : Segments) → UnlessNoMemory result (Looks sectors.now.entries held looked.old looked.new (plan_listed path.now)) }
{
    let target = target_of(sectors, path, looked)?;
    if target.kind != KIND_DIRECTORY {
        return Err(Stop::Refused(Reply::NotDir));
    }
    let inode = inode_of(sectors, target.inode, looked)?;
    let names = names_in(alloc, sectors, &inode, looked)?;
    Ok(Reply::Names(names))
}

fn read_link(
    alloc: Global,
    sectors: &Usable,
    path: &Path,
    looked: &mut Looked,
) -> Result<Reply, Stop>
    ensures says { (held : Segments) → Says (reading (plan_target path.now) sectors.now.entries held) result }
    ensures looks { (held : Segments) → UnlessNoMemory result (Looks sectors.now.entries held looked.old looked.new (plan_target path.now)) }
{
    let target = target_of(sectors, path, looked)?;
    if target.kind != KIND_LINK {
        return Err(Stop::Refused(Reply::Inval));
    }
    let inode = inode_of(sectors, target.inode, looked)?;
    let text = link_text(alloc, &inode)?;
    Ok(Reply::Target(text))
}

// The target of a link; of any other node nothing.
fn link_text(alloc: Global, inode: &Inode) -> Result<Text, NoMemory>
    requires { IsUsed inode.now }
    ensures { IfOk result (λ text. text ≡ (if inode.now.kind == 3 then take inode.now.size inode.now.target else [])) }
{
    if inode.kind == KIND_LINK {
        Text::of(alloc, &inode.target[..inode.size as usize])
    } else {
        Ok(Text::new(alloc))
    }
}

fn time(sectors: &Usable, path: &Path, looked: &mut Looked) -> Result<Reply, Stop>
    ensures says { (held : Segments) → Says (reading (plan_timed path.now) sectors.now.entries held) result }
    ensures looks { (held : Segments) → UnlessNoMemory result (Looks sectors.now.entries held looked.old looked.new (plan_timed path.now)) }
{
    let target = target_of(sectors, path, looked)?;
    let inode = inode_of(sectors, target.inode, looked)?;
    Ok(timed(&inode))
}

// When a file was last written or cut: the run, and the tick of that run. Other nodes have no time.
fn timed(inode: &Inode) -> Reply
    ensures { result ≡ timed (stored inode.now) }
{
    let when = inode.when;
    match inode.kind {
        KIND_FILE => Reply::Time {
            run: (when / RUN_TICKS_END) as u32,
            tick: (when % RUN_TICKS_END) as u32,
        },
        KIND_DIRECTORY => Reply::IsDir,
        _ => Reply::Inval,
    }
}
