// What is left of the lines of a tree.
ghost use Rattle.std.specs.Prelude.{◌≡◌, ◌≤◌, ◌<◌, ℕ, [], true, Option, length, reverse, take, IfOk, IsSome, IsTrue, OnErr, OnOk};
ghost use Rattle.frang_base.specs.declared.said.Said.TheVariants.{Node};
ghost use Rattle.tree_definitions.specs.TreeLines.{path_text};
ghost use Rattle.script_definitions.specs.SaidReading.{is_path_text, IsNodeKind, IsProperSaid};
ghost use Rattle.tree_lines.specs.Below.{is_below};
ghost use Rattle.tree_lines.specs.Shown.{Shown, lines_by};
ghost use Rattle.tree_lines.specs.Waiting.{AreNamed, IsAt, Keeps, Passes, Says, children, lines_left, next_birth, opened, text_of};

use frang_base::{Name, NoMemory, Said, Text};
use std::alloc::Global;
use std::marker::Model;
use tree_definitions::Entries;

/// A node that is left: its name, none at the root, its birth, how much of the text of the present path is that of the path above it, and how
/// many levels are read from it on.
#[derive(Drop)]
pub struct Left {
    pub name: Option<Name>,
    pub birth: u64,
    pub above: usize,
    pub depth: usize,
}

/// What is left of the lines of a tree, seen as the text of the present path and the nodes that are left. The next node is asked for by
/// `wanted`, and its line is given for what it shows; so each node is looked at once, and no more is kept than the entries that are left of the
/// directories down to the present one.
#[derive(Drop)]
pub struct LinesLeft {
    alloc: Global,
    text: Vec<u8>,
    here: Option<Left>,
    left: Vec<Left>,
}

impl Model for LinesLeft {
    ghost use Rattle.std.specs.Prelude.{◌≡◌, ◌++◌, [], None, length, option_to_list, reverse};
    ghost use Rattle.tree_lines.specs.Waiting.{AreBelow, AreNested, Waiting};

    ghost Value = { Waiting };

    ghost view = { λ w. record { text = w.text.items; nodes = option_to_list w.here ++ reverse w.left.items } };

    ghost invariant = { λ w. AreNested (length w.text.items) (option_to_list w.here ++ reverse w.left.items) × (w.here ≡ None → w.left.items ≡ []) × AreBelow w.text.items (option_to_list w.here ++ reverse w.left.items) };
}

// Makes a text that of the path of a name below its first part.
fn go_below(text: &mut Vec<u8>, above: usize, name: &Option<Name>) -> Result<(), NoMemory>
    requires { above ≤ length text.old.items }
    ensures is { OnOk result (text.new.items ≡ text_of (take above text.old.items) name.now) }
    ensures kept { take above text.new.items ≡ take above text.old.items }
    ensures long { above ≤ length text.new.items }
{
    text.truncate(above);
    match name {
        None => {}
        Some(name) => {
            text.push(b'/')?;
            text.extend_from_slice(name.as_slice())?;
        }
    }
    Ok(())
}

// The text of a path, which is `/` at the root.
#[tactic(auto, using(crate::proofs::PathTexts::path_is_proper))]
fn path_text(alloc: Global, text: &[u8]) -> Result<Text, NoMemory>
    requires { is_below text.now ≡ true }
    ensures is { IfOk result (λ shown. shown ≡ path_text text.now) }
    ensures proper { IfOk result (λ shown. IsTrue (is_path_text shown)) }
{
    match text {
        [] => Text::of(alloc, b"/"),
        [_, ..] => Text::of(alloc, text),
    }
}

// The entries of a directory as nodes that are left, the first one last.
fn children(
    alloc: Global,
    entries: &Entries,
    above: usize,
    depth: usize,
) -> Result<Vec<Left>, NoMemory>
    ensures are { IfOk result (λ more. more.items ≡ reverse (children above depth entries.now)) }
    ensures named { IfOk result (λ more. AreNamed depth entries.now) }
{
    let mut more = Vec::new(alloc);
    if depth == 0 {
        return Ok(more);
    }
    for (name, birth) in entries.as_map() {
        // Its length tells that a name's bytes are those of a name.
        let _ = name.len();
        let name = Some(name.copy());
        more.push(Left {
            name,
            birth: *birth,
            above,
            depth,
        })?;
    }
    more.reverse();
    Ok(more)
}

impl LinesLeft {
    /// The lines from the root on, so many levels deep. It takes no memory.
    pub fn of(alloc: Global, root: u64, depth: usize) -> LinesLeft
        ensures { (nodes : ℕ → Option Shown) → lines_left nodes result ≡ lines_by nodes depth [] root }
    {
        let here = if depth == 0 {
            None
        } else {
            Some(Left {
                name: None,
                birth: root,
                above: 0,
                depth,
            })
        };
        LinesLeft {
            alloc,
            text: Vec::new(alloc),
            here,
            left: Vec::new(alloc),
        }
    }

    /// The birth of the node whose line comes next. `None` exactly where none is left.
    pub fn wanted(&self) -> Option<u64>
        ensures { result ≡ next_birth self.now.nodes }
    {
        match &self.here {
            Some(here) => Some(here.birth),
            None => None,
        }
    }

    /// Goes on to the next node where the one that is wanted isn't there: it has no lines.
    pub fn pass(&mut self)
        ensures is { Passes self.old self.new }
        ensures fewer { IsSome (next_birth self.old.nodes) → length self.new.nodes < length self.old.nodes }
    {
        self.here = self.left.pop();
    }

    // Makes the text that of the path of the next node.
    fn enter(&mut self) -> Result<(), NoMemory>
        ensures keeps { Keeps self.old self.new }
        ensures at { OnOk result (IsAt self.new) }
    {
        match &self.here {
            Some(here) => go_below(&mut self.text, here.above, &here.name),
            None => Ok(()),
        }
    }

    // Puts the entries of the next node into its place.
    fn open(&mut self, entries: &Entries) -> Result<(), NoMemory>
        requires some { IsSome (next_birth self.old.nodes) }
        requires at { IsAt self.old }
        ensures text { OnOk result (self.new.text ≡ self.old.text) }
        ensures nodes { OnOk result (self.new.nodes ≡ opened self.old.text self.old.nodes entries.now) }
        ensures err { OnErr result (self.new ≡ self.old) }
    {
        let Some(here) = &self.here else {
            unreachable!()
        };
        let mut more = children(self.alloc, entries, self.text.len(), here.depth - 1)?;
        self.left.append(&mut more)?;
        self.here = self.left.pop();
        Ok(())
    }

    /// The line of the node that is wanted, by its kind, size and links, and by its entries, which come next; only a directory has some. It can be
    /// said, where kind and links are those of a node. After `NoMemory` the same node is wanted, and the same lines are left.
    pub fn show(
        &mut self,
        kind: u8,
        size: u32,
        links: u32,
        entries: &Entries,
    ) -> Result<Said, NoMemory>
        requires { IsSome (next_birth self.old.nodes) }
        ensures ok { IfOk result (Says (record { kind = kind; size = size; links = links; entries = entries.now }) self.old self.new) }
        ensures proper { IfOk result (λ line. IsNodeKind kind links → IsProperSaid line) }
        ensures err { OnErr result (Keeps self.old self.new) }
    {
        self.enter()?;
        let path = path_text(self.alloc, &self.text)?;
        self.open(entries)?;
        Ok(Said::Node {
            path,
            kind,
            size,
            links,
        })
    }
}
