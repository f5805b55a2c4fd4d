// Operations over paths that may lead through symbolic links.
ghost use Rattle.std.specs.Prelude.{◌≡◌, ◌++◌, IfOk, OnOk, OnErr, false};
ghost use Rattle.script_definitions.specs.SaidReading.{IsProperReply};
ghost use Rattle.tree_definitions.specs.Resolve.{resolve};
ghost use Rattle.tree_definitions.specs.Perform.{Goes, after_trail, goes, by_path, by_paths, is_found, resolved, perform, perform_step, step_of};
ghost use Rattle.file_tree.specs.CanApply.{CanGo, CanPerform};
ghost use Rattle.file_tree.specs.Replies.{gives};
ghost use Rattle.file_tree.specs.Walks.{end_of, with_path, with_paths, resolution_of, resolved_by, step_by};

use crate::Tree;
use crate::place::Refusal;
use crate::resolve::{Walk, WalkEnd};
use frang_base::{NoMemory, Op, OpNo, Path, Reply};
use tree_definitions::Node;

/// An operation over paths without links, or the refusal of a walk.
#[derive(Drop)]
pub enum Step {
    Goes(Op),
    Stops(Refusal),
}

/// What an operation comes to, and the directories and links that its walks went through, in order.
#[derive(Drop)]
pub struct Resolved {
    pub step: Step,
    pub trail: Vec<u64>,
}

/// An operation of one path, over another path; any other operation stays. Its one refusal is want of memory.
pub fn with_path(op: &Op, path: Path) -> Result<Op, NoMemory>
    ensures { IfOk result (λ over. over ≡ with_path op.now path) }
{
    match op {
        Op::Create { .. } => Ok(Op::Create { path }),
        Op::Mkdir { .. } => Ok(Op::Mkdir { path }),
        Op::Symlink { target, .. } => Ok(Op::Symlink {
            path,
            target: target.try_copy()?,
        }),
        Op::Unlink { .. } => Ok(Op::Unlink { path }),
        Op::Rmdir { .. } => Ok(Op::Rmdir { path }),
        Op::Write { off, bytes, .. } => Ok(Op::Write {
            path,
            off: *off,
            bytes: bytes.try_copy()?,
        }),
        Op::Fill { off, len, byte, .. } => Ok(Op::Fill {
            path,
            off: *off,
            len: *len,
            byte: *byte,
        }),
        Op::Truncate { len, .. } => Ok(Op::Truncate { path, len: *len }),
        Op::Read { off, len, .. } => Ok(Op::Read {
            path,
            off: *off,
            len: *len,
        }),
        Op::Stat { .. } => Ok(Op::Stat { path }),
        Op::List { .. } => Ok(Op::List { path }),
        Op::Readlink { .. } => Ok(Op::Readlink { path }),
        Op::Time { .. } => Ok(Op::Time { path }),
        Op::Link { .. }
        | Op::Rename { .. }
        | Op::Sync
        | Op::Mount
        | Op::Unmount
        | Op::Crash
        | Op::CrashAt { .. }
        | Op::CutAt { .. }
        | Op::Stall => op.try_copy(),
    }
}

// An operation of one path, over what a walk leads to.
fn by_walk(op: &Op, walk: Walk) -> Result<Resolved, NoMemory>
    ensures { IfOk result (λ r. resolved_by r ≡ by_path (resolution_of walk) (λ p. with_path op.now p)) }
{
    let Walk { end, trail } = walk;
    match end {
        WalkEnd::At { path, .. } => Ok(Resolved {
            step: Step::Goes(with_path(op, path)?),
            trail,
        }),
        WalkEnd::Refused(refusal) => Ok(Resolved {
            step: Step::Stops(refusal),
            trail,
        }),
    }
}

// Whether a walk found a node, a directory only where these count.
fn is_found(tree: &Tree, dirs: bool, found: Option<u64>) -> bool
    ensures { result ≡ is_found tree.now dirs found }
{
    match found {
        Some(birth) => dirs || !matches!(tree.node(birth), Some(Node::Dir { .. })),
        None => false,
    }
}

// Births after the others.
fn extend(trail: &mut Vec<u64>, more: &[u64]) -> Result<(), NoMemory>
    ensures { OnOk result (trail.new.items ≡ trail.old.items ++ more.now) }
{
    for birth in more {
        trail.push(*birth)?;
    }
    Ok(())
}

/// A link or a rename of one path to another.
pub fn with_paths(op: &Op, path: Path, to: Path) -> Op
    ensures { result ≡ with_paths op.now path to }
{
    match op {
        Op::Rename { .. } => Op::Rename { path, to },
        _ => Op::Link { path, to },
    }
}

// A link or a rename of one path to another, which is walked no more.
fn over_both(op: &Op, first: Path, to: &Path, trail: Vec<u64>) -> Result<Resolved, NoMemory>
    ensures { IfOk result (λ r. resolved_by r ≡ record { step = Goes (with_paths op.now first to.now); trail = trail.items }) }
{
    let to = to.try_copy()?;
    Ok(Resolved {
        step: Step::Goes(with_paths(op, first, to)),
        trail,
    })
}

// A link or a rename of one path to where the walk of the other leads.
fn step_over(op: &Op, first: Path, end: WalkEnd) -> Step
    ensures { step_by result ≡ step_of (end_of end) (λ q. with_paths op.now first q) }
{
    match end {
        WalkEnd::At { path, .. } => Step::Goes(with_paths(op, first, path)),
        WalkEnd::Refused(refusal) => Step::Stops(refusal),
    }
}

// The same with the trail of the first walk, and that of the second one behind it.
fn by_second(op: &Op, first: Path, trail: Vec<u64>, walk: Walk) -> Result<Resolved, NoMemory>
    ensures { IfOk result (λ r. resolved_by r ≡ after_trail trail.items (by_path (resolution_of walk) (λ q. with_paths op.now first q))) }
{
    let Walk { end, trail: more } = walk;
    let mut trail = trail;
    extend(&mut trail, &more)?;
    Ok(Resolved {
        step: step_over(op, first, end),
        trail,
    })
}

impl Tree {
    // The walks of a link or a rename: of its second path only where the first one found a node, a directory where these count.
    fn by_paths(&self, op: &Op, dirs: bool, path: &Path, to: &Path) -> Result<Resolved, NoMemory>
        ensures { IfOk result (λ r. resolved_by r ≡ by_paths self.now dirs (resolve self.now false path.now) (resolve self.now false to.now) to.now (λ p q. with_paths op.now p q)) }
    {
        let walk = self.resolve(path.as_slice(), false)?;
        self.by_first(op, dirs, walk, to)
    }

    // From the end of the first walk on.
    fn by_first(&self, op: &Op, dirs: bool, walk: Walk, to: &Path) -> Result<Resolved, NoMemory>
        ensures { IfOk result (λ r. resolved_by r ≡ by_paths self.now dirs (resolution_of walk) (resolve self.now false to.now) to.now (λ p q. with_paths op.now p q)) }
    {
        let Walk { end, trail } = walk;
        match end {
            WalkEnd::At { path, found } => {
                if is_found(self, dirs, found) {
                    by_second(op, path, trail, self.resolve(to.as_slice(), false)?)
                } else {
                    over_both(op, path, to, trail)
                }
            }
            WalkEnd::Refused(refusal) => Ok(Resolved {
                step: Step::Stops(refusal),
                trail,
            }),
        }
    }

    // The walks of a rename, which has none from or to the root.
    fn resolved_rename(&self, op: &Op, path: &Path, to: &Path) -> Result<Resolved, NoMemory>
        requires { op.now ≡ Op.Rename path.now to.now }
        ensures { IfOk result (λ r. resolved_by r ≡ resolved self.now (Op.Rename path.now to.now)) }
    {
        if path.is_empty() || to.is_empty() {
            return self.as_it_stands(op);
        }
        self.by_paths(op, true, path, to)
    }

    // An operation as it stands.
    fn as_it_stands(&self, op: &Op) -> Result<Resolved, NoMemory>
        ensures { IfOk result (λ r. resolved_by r ≡ goes op.now) }
    {
        Ok(Resolved {
            step: Step::Goes(op.try_copy()?),
            trail: Vec::new(self.alloc()),
        })
    }

    /// What an operation comes to once links are followed: the walks of its paths in the order of its refusals.
    pub fn resolved(&self, op: &Op) -> Result<Resolved, NoMemory>
        ensures { IfOk result (λ r. resolved_by r ≡ resolved self.now op.now) }
    {
        match op {
            Op::Create { path }
            | Op::Mkdir { path }
            | Op::Symlink { path, .. }
            | Op::Unlink { path }
            | Op::Rmdir { path }
            | Op::Stat { path }
            | Op::Readlink { path } => by_walk(op, self.resolve(path.as_slice(), false)?),
            Op::Write { path, .. }
            | Op::Fill { path, .. }
            | Op::Truncate { path, .. }
            | Op::Read { path, .. }
            | Op::List { path }
            | Op::Time { path } => by_walk(op, self.resolve(path.as_slice(), true)?),
            Op::Link { path, to } => self.by_paths(op, false, path, to),
            Op::Rename { path, to } => self.resolved_rename(op, path, to),
            Op::Sync
            | Op::Mount
            | Op::Unmount
            | Op::Crash
            | Op::CrashAt { .. }
            | Op::CutAt { .. }
            | Op::Stall => self.as_it_stands(op),
        }
    }

    /// Does an operation whose paths may lead through links, and answers it as `apply` does.
    pub fn perform(&mut self, op: &Op, birth: OpNo, when: u64, m: u32) -> Result<Reply, NoMemory>
        requires { CanPerform self.old op.now }
        ensures ok { IfOk result (λ reply. perform self.old op.now birth.0 when m ≡ gives self.new reply) }
        ensures err { OnErr result (self.new ≡ self.old) }
        ensures proper { IfOk result IsProperReply }
    {
        let resolved = self.resolved(op)?;
        self.go(&resolved.step, birth, when, m)
    }

    // Does what an operation came to.
    fn go(&mut self, step: &Step, birth: OpNo, when: u64, m: u32) -> Result<Reply, NoMemory>
        requires { CanGo self.old (step_by step.now) }
        ensures ok { IfOk result (λ reply. perform_step self.old (step_by step.now) birth.0 when m ≡ gives self.new reply) }
        ensures err { OnErr result (self.new ≡ self.old) }
        ensures proper { IfOk result IsProperReply }
    {
        match step {
            Step::Goes(over) => self.apply(over, birth, when, m),
            Step::Stops(refusal) => Ok(refusal.reply()),
        }
    }
}
