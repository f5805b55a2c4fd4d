// Whether an entry fits where it stands, found by doing its operation in the tree itself.
ghost use Rattle.std.specs.Prelude.{◌≡◌, ◌+◌, ℕ, true, false, Some, None, IfOk, IsTrue};
ghost use Rattle.history_rules.specs.declared.stands.Standing.{Standing};
ghost use Rattle.tree_definitions.specs.Apply.{apply, is_path_op};
ghost use Rattle.tree_definitions.specs.History.{after, agrees, fits, grows, is_answer, leaves_tree, legal_from, may_stand, may_tell, tree_after, told_blocks};
ghost use Rattle.tree_definitions.specs.Perform.{Goes, perform_step};
ghost use Rattle.file_tree.specs.CanApply.{CanApply};
ghost use Rattle.file_tree.specs.Walks.{step_by};
ghost use Rattle.tree_model.specs.Replayed.{after_reading, after_redo, after_step_redo, is_within, IsPathStep};
ghost use Rattle.history_rules.specs.Standing.{capped, StandsAt};

use file_tree::Step as TreeStep;
use frang_base::{Name, NoMemory, Op, OpNo, Reply};
use tree_definitions::Entry;
use tree_model::{Step, Tree, is_path_op, leaves_tree, read_again, reads, same_reply, told_blocks};

/// Where the steps of a list lead: the tree, and the number of blocks that were ever a directory's, at most the greatest number that
/// can be said.
#[derive(Drop)]
pub struct Standing {
    pub tree: Tree,
    pub ever: u32,
}

// Reads again what a read of a path showed, where it may have.
fn did_read(
    tree: &mut Tree,
    path: &[Name],
    off: u32,
    len: u32,
    reply: &Reply,
) -> Result<bool, NoMemory>
    ensures is { (number when m : ℕ) → IfOk result (λ it. it ≡ agrees (apply tree.old (Op.Read path.now off len) number when m).answer reply.now) }
    ensures tree { IfOk result (λ it. it ≡ true → tree.new ≡ after_reading tree.old path.now off len reply.now) }
{
    if !reads(tree, path, off, len, reply) {
        return Ok(false);
    }
    read_again(tree, path, off, len, reply)?;
    Ok(true)
}

// Does an operation over paths without links that is no read.
fn did_other(
    tree: &mut Tree,
    op: &Op,
    number: OpNo,
    when: u64,
    reply: &Reply,
) -> Result<bool, NoMemory>
    requires { CanApply tree.old op.now }
    ensures is { IfOk result (λ it. it ≡ agrees (apply tree.old op.now number.0 when (told_blocks tree.old reply.now)).answer reply.now) }
    ensures tree { IfOk result (λ it. it ≡ true → tree.new ≡ after_redo tree.old op.now number.0 when reply.now) }
{
    let m = told_blocks(tree, reply);
    let answer = tree.apply(op, number, when, m)?;
    Ok(same_reply(&answer, reply))
}

// Does an operation over paths without links: whether the reply is its answer. Where it isn't, the tree is left in any state.
fn did_op(
    tree: &mut Tree,
    op: &Op,
    number: OpNo,
    when: u64,
    reply: &Reply,
) -> Result<bool, NoMemory>
    requires has_path { is_path_op op.now ≡ true }
    requires within { is_within op.now ≡ true }
    ensures is { IfOk result (λ it. it ≡ agrees (apply tree.old op.now number.0 when (told_blocks tree.old reply.now)).answer reply.now) }
    ensures tree { IfOk result (λ it. it ≡ true → tree.new ≡ after_step_redo tree.old (Goes op.now) number.0 when reply.now) }
{
    match op {
        Op::Read { path, off, len } => did_read(tree, path.as_slice(), *off, *len, reply),
        _ => did_other(tree, op, number, when, reply),
    }
}

// The same of what an operation comes to.
fn did_step(
    tree: &mut Tree,
    step: &TreeStep,
    number: OpNo,
    when: u64,
    reply: &Reply,
) -> Result<bool, NoMemory>
    requires { IsPathStep (step_by step.now) }
    ensures is { IfOk result (λ it. it ≡ agrees (perform_step tree.old (step_by step.now) number.0 when (told_blocks tree.old reply.now)).answer reply.now) }
    ensures tree { IfOk result (λ it. it ≡ true → tree.new ≡ after_step_redo tree.old (step_by step.now) number.0 when reply.now) }
{
    match step {
        TreeStep::Goes(op) => did_op(tree, op, number, when, reply),
        TreeStep::Stops(refusal) => Ok(same_reply(&refusal.reply(), reply)),
    }
}

// Takes an entry over a path whose reply is its operation's own: whether it is its answer.
fn entered_path(tree: &mut Tree, entry: &Entry) -> Result<bool, NoMemory>
    requires within { IsTrue (is_within entry.now.op) }
    requires path { is_path_op entry.now.op ≡ true }
    requires own { leaves_tree entry.now.op entry.now.reply ≡ false }
    ensures is { IfOk result (λ it. it ≡ is_answer tree.old entry.now) }
    ensures tree { IfOk result (λ it. it ≡ true → tree.new ≡ tree_after tree.old entry.now) }
{
    let resolved = tree.resolved(&entry.op)?;
    did_step(tree, &resolved.step, entry.number, entry.when, &entry.reply)
}

// Whether a number of blocks that is said is at least the tree's, and at most those that were ever a directory's.
fn may_tell(tree: &Tree, ever: u32, reply: &Reply) -> bool
    ensures { (n : ℕ) → ever ≡ capped n → result ≡ may_tell tree.now n reply.now }
{
    match reply {
        Reply::NoBlock { m } => tree.dir_blocks() <= *m && *m <= ever,
        _ => true,
    }
}

// Takes an entry: whether it fits where so many blocks were ever a directory's. Where it doesn't, the tree is left in any state.
fn entered(tree: &mut Tree, ever: u32, entry: &Entry) -> Result<bool, NoMemory>
    requires { IsTrue (is_within entry.now.op) }
    ensures is { IfOk result (λ it. (n : ℕ) → ever ≡ capped n → it ≡ fits tree.old n entry.now) }
    ensures tree { IfOk result (λ it. it ≡ true → tree.new ≡ tree_after tree.old entry.now) }
{
    if leaves_tree(&entry.op, &entry.reply) {
        return Ok(true);
    }
    if !is_path_op(&entry.op) {
        return Ok(false);
    }
    if !may_tell(tree, ever, &entry.reply) {
        return Ok(false);
    }
    entered_path(tree, entry)
}

// Takes a step: whether it may stand.
fn stood(tree: &mut Tree, ever: u32, step: &Step) -> Result<bool, NoMemory>
    ensures is { IfOk result (λ it. (n : ℕ) → ever ≡ capped n → it ≡ may_stand tree.old n step.now) }
    ensures tree { IfOk result (λ it. it ≡ true → tree.new ≡ after tree.old step.now) }
{
    match step.entry() {
        Some(entry) => entered(tree, ever, entry),
        None => {
            step.take(tree)?;
            Ok(true)
        }
    }
}

impl Standing {
    /// Takes a step more: whether it may stand there. Where it mayn't, and after `NoMemory`, the tree is left in any state.
    pub fn go_on(&mut self, step: &Step) -> Result<bool, NoMemory>
        ensures is { IfOk result (λ it. (n : ℕ) → self.old.ever ≡ capped n → it ≡ may_stand self.old.tree n step.now) }
        ensures tree { IfOk result (λ it. it ≡ true → self.new.tree ≡ after self.old.tree step.now) }
        ensures ever { IfOk result (λ it. it ≡ true → (n : ℕ) → self.old.ever ≡ capped n → self.new.ever ≡ capped (n + grows self.old.tree step.now)) }
    {
        let before = self.tree.dir_blocks();
        if !stood(&mut self.tree, self.ever, step)? {
            return Ok(false);
        }
        let grown = self.tree.dir_blocks().saturating_sub(before);
        self.ever = self.ever.saturating_add(grown);
        Ok(true)
    }
}

/// Where the steps of a list lead from an opening's tree on. `None` exactly where one of them may not stand, but for want of memory.
pub fn led(opening: &Tree, steps: &[Step]) -> Result<Option<Standing>, NoMemory>
    ensures found { IfOk result (λ at. (now : Standing) → at ≡ Some now → StandsAt opening.now steps.now now.tree now.ever) }
    ensures none { IfOk result (λ at. at ≡ None → legal_from opening.now 0 steps.now ≡ false) }
{
    let mut now = Standing {
        tree: opening.try_copy()?,
        ever: 0,
    };
    for step in steps {
        if !now.go_on(step)? {
            return Ok(None);
        }
    }
    Ok(Some(now))
}
