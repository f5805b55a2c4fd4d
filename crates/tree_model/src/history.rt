// The history that is read off the lines said.
ghost use Rattle.std.specs.Prelude.{◌≡◌, ◌<◌, ◌++◌, IfOk, OnOk, OnErr};
ghost use Rattle.frang_base.specs.declared.limits.TheConstants.{RUN_TICKS_END};
ghost use Rattle.std.specs.Option.{option_copied};
ghost use Rattle.script_definitions.specs.Ticks.{all_ticks};
ghost use Rattle.tree_definitions.specs.Live.{item_of, item_of_line, line_of, live_history, drop_after};

use crate::times::script_time;
use frang_base::limits::RUN_TICKS_END;
use frang_base::{Line, NoMemory, Op, OpNo, Reply, Said, Script, ServerId, What};
use std::alloc::Global;
use std::marker::Model;
use tree_definitions::{Entry, Item};

/// What was asked and answered, seen as the list of its items, the oldest first.
#[derive(Drop)]
pub struct History {
    items: Vec<Item>,
}

impl Model for History {
    ghost use Rattle.std.specs.Prelude.{List};
    ghost use Rattle.tree_definitions.specs.declared.history.Item.{Item};

    ghost Value = { List Item };

    ghost view = { λ h. h.items.items };
}

fn line_of(script: &[Line], number: u32) -> Option<&Line>
    ensures { option_copied result ≡ line_of script.now number }
{
    script.iter().find(|line| line.number == number)
}

// The entry of an operation and its reply.
fn entry_of(
    server: ServerId,
    number: OpNo,
    when: u64,
    op: &Op,
    reply: &Reply,
) -> Result<Entry, NoMemory>
    ensures { IfOk result (λ entry. entry ≡ record { server = server; number = number; when = when; op = op.now; reply = reply.now }) }
{
    let op = op.try_copy()?;
    let reply = reply.try_copy()?;
    Ok(Entry {
        server,
        number,
        when,
        op,
        reply,
    })
}

// Adds what an answer tells, where it is to a line of a server.
fn push_answer(
    line: Option<&Line>,
    run: u32,
    server: ServerId,
    number: u32,
    ticks: u64,
    reply: &Reply,
    items: &mut Vec<Item>,
) -> Result<(), NoMemory>
    requires { ticks < RUN_TICKS_END }
    ensures { OnOk result (items.new.items ≡ items.old.items ++ item_of_line run server reply.now number ticks (option_copied line.entry)) }
{
    let Some(line) = line else {
        return Ok(());
    };
    match &line.what {
        What::Server(op) => {
            let number = OpNo::of(run, number);
            let when = u64::from(run) * RUN_TICKS_END + ticks;
            items.push(Item::Did(entry_of(server, number, when, op, reply)?))?;
            Ok(())
        }
        What::Host(_) => Ok(()),
    }
}

// Adds what a said line tells.
fn push_item(script: &[Line], run: u32, said: &Said, items: &mut Vec<Item>) -> Result<(), NoMemory>
    requires { all_ticks script.now < RUN_TICKS_END }
    ensures { OnOk result (items.new.items ≡ items.old.items ++ item_of script.now run said.now) }
{
    match said {
        Said::Answer {
            server,
            line,
            reply,
        } => push_answer(
            line_of(script, *line),
            run,
            *server,
            *line,
            script_time(script, *line),
            reply,
            items,
        ),
        Said::Recovered { server, keeps } => {
            items.push(Item::Recovered {
                server: *server,
                keeps: *keeps,
            })?;
            Ok(())
        }
        Said::Dead { .. }
        | Said::Recovering { .. }
        | Said::Renewed { .. }
        | Said::Node { .. }
        | Said::Redo { .. }
        | Said::Backup { .. }
        | Said::Locks { .. }
        | Said::Shown(_)
        | Said::End => Ok(()),
    }
}

impl History {
    /// The history that is read off the lines said of a script that has times, in a run of this number.
    pub fn live(
        alloc: Global,
        script: &Script,
        run: u32,
        said: &[Said],
    ) -> Result<History, NoMemory>
        requires { all_ticks script.now < RUN_TICKS_END }
        ensures { IfOk result (λ history. history ≡ live_history script.now run said.now) }
    {
        let mut items = Vec::new(alloc);
        let lines = script.as_slice();
        for one in said {
            push_item(lines, run, one, &mut items)?;
        }
        Ok(History { items })
    }

    /// Adds a recovery of a server's log, whose greatest operation number was this one, or 0 where it had none. After `NoMemory`
    /// the history is as before.
    pub fn drop_after(&mut self, server: ServerId, keeps: OpNo) -> Result<(), NoMemory>
        ensures ok { OnOk result (self.new ≡ drop_after self.old server keeps.0) }
        ensures err { OnErr result (self.new ≡ self.old) }
    {
        self.items.push(Item::Recovered { server, keeps })?;
        Ok(())
    }

    /// All items, the oldest first.
    pub fn as_slice(&self) -> &[Item]
        ensures { result.now ≡ self.now }
    {
        &self.items
    }
}
