// What is wrong with a history at the line that breaks it.
ghost use Rattle.std.specs.Prelude.{◌≤◌, IsTrue};
ghost use Rattle.std.specs.List.{All};
ghost use Rattle.frang_base.specs.declared.limits.TheConstants.{SEGMENTS_MAX};
ghost use Rattle.tree_model.specs.Replayed.{is_within};
ghost use Rattle.judge_rules.specs.Judging.{WithinAt};

use crate::trial::take_item;
use frang_base::{NoMemory, Reply};
use history_rules::Settling;
use std::alloc::Global;
use tree_definitions::{Entry, Item};
use tree_model::{Tree, is_path_op};

/// What is wrong with a history at a line.
#[derive(Drop)]
pub enum Misfit {
    /// The tree answers otherwise.
    Answers(Reply),
    /// The tree shows other bytes, some of which may be in doubt.
    Shows,
    /// The line's operation has no such reply.
    NoReply,
    /// What the recovery leaves isn't legal.
    Leaves,
}

// What is wrong with an entry behind a history.
fn entry_misfit(settling: &Settling, entry: &Entry) -> Result<Misfit, NoMemory>
    requires { IsTrue (is_within entry.now.op) }
{
    if !is_path_op(&entry.op) {
        return Ok(Misfit::NoReply);
    }
    match settling.answer(entry)? {
        Some(reply) => Ok(Misfit::Answers(reply)),
        None => Ok(Misfit::Shows),
    }
}

// What is wrong with what a line adds to a history.
fn item_misfit(settling: &Settling, item: &Option<Item>) -> Result<Misfit, NoMemory>
    requires { WithinAt item.now }
{
    match item {
        Some(Item::Did(entry)) => entry_misfit(settling, entry),
        Some(Item::Recovered { .. }) | None => Ok(Misfit::Leaves),
    }
}

/// What is wrong with a history on a fresh disk of so many segments at the line with this number, by what each line adds.
pub fn misfit_at(
    alloc: Global,
    segments: u32,
    items: &[Option<Item>],
    number: usize,
) -> Result<Option<Misfit>, NoMemory>
    requires segments { segments ≤ SEGMENTS_MAX }
    requires within { All WithinAt items.now }
{
    let mut settling = Settling::on(Tree::fresh(alloc, segments)?)?;
    for i in 0..items.len() {
        let item = &items[i];
        if i + 1 == number {
            return Ok(Some(item_misfit(&settling, item)?));
        }
        take_item(&mut settling, item)?;
    }
    Ok(None)
}
