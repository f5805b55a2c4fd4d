// The judge: each line is given to the rules of transcripts and to those of histories, and the first line at which each breaks is kept.
ghost use Rattle.std.specs.Prelude.{◌≡◌, ◌≤◌, ◌<◌, ◌+◌, ℕ, Bool, true, false, List, [], ◌∷◌, None, Some, IfOk, OnOk, is_none, length, take};
ghost use Rattle.std.specs.List.{slice_get};
ghost use Rattle.frang_base.specs.declared.limits.TheConstants.{SEGMENTS_MAX};
ghost use Rattle.frang_base.specs.declared.said.Said.{Said as TheSaid};
ghost use Rattle.frang_base.specs.declared.script.Line.{Line as TheLine};
ghost use Rattle.tree_definitions.specs.Live.{item_of};
ghost use Rattle.tree_model.specs.Replayed.{item_within};
ghost use Rattle.judge_rules.specs.Judging.{AreItems, Hears, IsHistory, Takes, Tests, Weighs, WithinAt, at_hand, first_of, tree_for};
ghost use Rattle.judge_rules.specs.Scripts.{CanJudge, items_of};
ghost use Rattle.judge_rules.specs.Verdicts.{IsVerdict};

use crate::items::{item_of, times_of};
use crate::misfit::{Misfit, misfit_at};
use crate::verdict::Verdict;
use frang_base::{Line, NoMemory, Said};
use history_rules::Settling;
use std::alloc::Global;
use transcript_rules::{Breach, Told};
use tree_definitions::Item;
use tree_model::Tree;

// What each of the said lines adds to the history.
fn items_of(alloc: Global, script: &[Line], saids: &[Said]) -> Result<Vec<Option<Item>>, NoMemory>
    requires { CanJudge script.now }
    ensures { IfOk result (λ items. AreItems script.now saids.now items.items) }
{
    let times = times_of(alloc, script)?;
    let mut items = Vec::new(alloc);
    for said in saids {
        let item = item_of(script, &times, said)?;
        items.push(item)?;
    }
    Ok(items)
}

// Gives the history an item more.
fn take_one<'h>(settling: &mut Settling<'h>, item: &'h Item) -> Result<(), NoMemory>
    requires { item_within item.now ≡ true }
    ensures { OnOk result (Takes settling.old (item.now ∷ []) settling.new) }
{
    match item {
        Item::Did(entry) => settling.take_entry(entry),
        Item::Recovered { server, keeps } => settling.take_recovery(*server, *keeps),
    }
}

/// Gives the history what a line adds to it.
#[tactic(auto, using(crate::proofs::Adding::within_one, crate::proofs::Adding::takes_nothing))]
pub fn take_item<'h>(settling: &mut Settling<'h>, item: &'h Option<Item>) -> Result<(), NoMemory>
    requires { WithinAt item.now }
    ensures { OnOk result (Takes settling.old (items_of item.now) settling.new) }
{
    match item {
        Some(item) => take_one(settling, item),
        None => Ok(()),
    }
}

// Finds the lines of the tree, where none are at hand.
#[tactic(auto, using(crate::proofs::Turning::hand_kept))]
fn find_lines(settling: &Settling, tree: &mut Vec<Said>) -> Result<(), NoMemory>
    ensures { OnOk result (tree.new.items ≡ at_hand settling.now tree.old.items) }
{
    if !tree.is_empty() {
        return Ok(());
    }
    *tree = settling.tree_lines()?;
    Ok(())
}

// Has the lines of the tree at hand where a line of it is said, or the end; else none.
fn ready_lines(settling: &Settling, tree: &mut Vec<Said>, said: &Said) -> Result<(), NoMemory>
    ensures { OnOk result (tree.new.items ≡ tree_for settling.now tree.old.items said.now) }
{
    match said {
        Said::Node { .. } | Said::End => find_lines(settling, tree),
        _ => {
            tree.clear();
            Ok(())
        }
    }
}

// Takes the next line, of a tree with these lines: why it may not be said, where it may not.
fn breach_of(told: &mut Told, tree: &[Said]) -> Result<Option<Breach>, NoMemory>
    requires { told.old.place < length told.old.saids }
    ensures { IfOk result (λ breach. Tests told.old told.new tree.now (is_none breach)) }
{
    if told.step(tree)? {
        return Ok(None);
    }
    Ok(Some(told.why()))
}

// The number of the first line that breaks a rule, once this one is heard.
fn first_of(before: Option<usize>, holds: bool, number: usize) -> Option<usize>
    ensures { result ≡ first_of before holds number }
{
    if before.is_none() && !holds {
        return Some(number);
    }
    before
}

// The transcript so far: what was told while it holds, the lines of the tree at hand, the number of the first line that breaks it, and why
// that one may not be said.
#[derive(Drop)]
struct Hearing<'h> {
    told: Told<'h>,
    tree: Vec<Said>,
    first: Option<usize>,
    breach: Option<Breach>,
}

// Hears a line while no line broke the transcript.
fn hear_next(
    hearing: &mut Hearing,
    settling: &Settling,
    said: &Said,
    number: usize,
) -> Result<(), NoMemory>
    requires sound { hearing.old.first ≡ None }
    requires more { hearing.old.told.place < length hearing.old.told.saids }
    ensures { (script : List TheLine) (segments : ℕ) (granted : Bool) (saids : List TheSaid) (place : ℕ) → slice_get saids place ≡ Some said.now → number ≡ place + 1 → IsHistory script segments (take place saids) settling.now → Hears script segments granted saids place hearing.old.told hearing.old.tree.items hearing.old.first → OnOk result (Hears script segments granted saids (place + 1) hearing.new.told hearing.new.tree.items hearing.new.first) }
{
    ready_lines(settling, &mut hearing.tree, said)?;
    let breach = breach_of(&mut hearing.told, &hearing.tree)?;
    let first = first_of(None, breach.is_none(), number);
    hearing.first = first;
    hearing.breach = breach;
    Ok(())
}

// Hears a line.
fn hear(
    hearing: &mut Hearing,
    settling: &Settling,
    said: &Said,
    number: usize,
) -> Result<(), NoMemory>
    requires { hearing.old.first ≡ None → hearing.old.told.place < length hearing.old.told.saids }
    ensures { (script : List TheLine) (segments : ℕ) (granted : Bool) (saids : List TheSaid) (place : ℕ) → slice_get saids place ≡ Some said.now → number ≡ place + 1 → IsHistory script segments (take place saids) settling.now → Hears script segments granted saids place hearing.old.told hearing.old.tree.items hearing.old.first → OnOk result (Hears script segments granted saids (place + 1) hearing.new.told hearing.new.tree.items hearing.new.first) }
{
    match hearing.first {
        Some(_) => Ok(()),
        None => hear_next(hearing, settling, said, number),
    }
}

// The history so far, with the numbers of the first line at which it isn't legal, and of the first at which what must be kept was not.
#[derive(Drop)]
struct Weighing<'h> {
    settling: Settling<'h>,
    legal: Option<usize>,
    kept: Option<usize>,
}

// Weighs what a line adds to the history.
fn weigh<'h>(
    weighing: &mut Weighing<'h>,
    item: &'h Option<Item>,
    number: usize,
) -> Result<(), NoMemory>
    requires { WithinAt item.now }
    ensures { (script : List TheLine) (segments : ℕ) (saids : List TheSaid) (place : ℕ) (x : TheSaid) → slice_get saids place ≡ Some x → number ≡ place + 1 → items_of item.now ≡ item_of script 1 x → Weighs script segments saids place weighing.old.settling weighing.old.legal weighing.old.kept → OnOk result (Weighs script segments saids (place + 1) weighing.new.settling weighing.new.legal weighing.new.kept) }
{
    take_item(&mut weighing.settling, item)?;
    let legal = first_of(weighing.legal, weighing.settling.is_legal(), number);
    let kept = first_of(weighing.kept, weighing.settling.is_kept(), number);
    weighing.legal = legal;
    weighing.kept = kept;
    Ok(())
}

// The verdict of lines, and why the one at which the transcript breaks may not be said.
fn heard(
    alloc: Global,
    script: &[Line],
    segments: u32,
    granted: bool,
    saids: &[Said],
    items: &[Option<Item>],
) -> Result<(Verdict, Option<Breach>), NoMemory>
    requires script { CanJudge script.now }
    requires segments { segments ≤ SEGMENTS_MAX }
    requires items { AreItems script.now saids.now items.now }
    ensures { IfOk result (λ found. IsVerdict script.now segments granted saids.now found.0) }
{
    let told = Told::new(alloc, script, granted, saids)?;
    let tree = Vec::new(alloc);
    let opening = Tree::fresh(alloc, segments)?;
    let settling = Settling::on(opening)?;
    let mut hearing = Hearing {
        told,
        tree,
        first: None,
        breach: None,
    };
    let mut weighing = Weighing {
        settling,
        legal: None,
        kept: None,
    };
    for i in 0..saids.len() {
        let said = &saids[i];
        let item = &items[i];
        hear(&mut hearing, &weighing.settling, said, i + 1)?;
        weigh(&mut weighing, item, i + 1)?;
    }
    let verdict = Verdict {
        transcript: hearing.first,
        legal: weighing.legal,
        kept: weighing.kept,
    };
    Ok((verdict, hearing.breach))
}

/// A verdict, with why the line at which the transcript breaks may not be said, and what is wrong with the history where it breaks.
#[derive(Drop)]
pub struct Found {
    pub verdict: Verdict,
    pub breach: Option<Breach>,
    pub misfit: Option<Misfit>,
}

/// The verdict of lines that were said in a run of a script on a fresh disk of so many segments. Where faults are granted, the count of each
/// server, and of the host, has risen from the start; else no count ever rises. Its one refusal is want of memory.
pub fn judge(
    alloc: Global,
    script: &[Line],
    segments: u32,
    granted: bool,
    saids: &[Said],
) -> Result<Found, NoMemory>
    requires script { CanJudge script.now }
    requires segments { segments ≤ SEGMENTS_MAX }
    ensures { IfOk result (λ found. IsVerdict script.now segments granted saids.now found.verdict) }
{
    let items = items_of(alloc, script, saids)?;
    let (verdict, breach) = heard(alloc, script, segments, granted, saids, &items)?;
    let misfit = match verdict.legal {
        Some(number) => misfit_at(alloc, segments, &items, number)?,
        None => None,
    };
    Ok(Found {
        verdict,
        breach,
        misfit,
    })
}
