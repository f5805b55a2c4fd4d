// A history, one item after the other: its settled list, whether it is legal so far, and whether what must be kept was.
ghost use Rattle.std.specs.Prelude.{◌≡◌, ◌∷◌, ◌++◌, [], ◌&&◌, false, true, List, IfOk, OnOk, IsTrue};
ghost use Rattle.tree_definitions.specs.TreeLines.{tree_lines};
ghost use Rattle.tree_definitions.specs.History.{Stays, after_all, legal_from};
ghost use Rattle.tree_definitions.specs.Removal.{keeps_known, recovered};
ghost use Rattle.tree_definitions.specs.History.{Settled};
ghost use Rattle.tree_definitions.specs.Tree.{FileTree};
ghost use Rattle.history_rules.specs.Settled.{IsWith};
ghost use Rattle.history_rules.specs.Standing.{StandsAt};
ghost use Rattle.tree_model.specs.Replayed.{is_within};

use crate::known::keeps_known;
use crate::stands::{Standing, led};
use frang_base::{NoMemory, Op, OpNo, Reply, Said, ServerId};
use std::marker::Model;
use tree_definitions::Entry;
use tree_model::{Step, Tree, is_path_op, recovered, tree_at_end};

/// A history on a tree, of which no block was a directory's, seen as its settled list, whether it has been legal at each item, and
/// whether what must be kept has been kept.
#[derive(Drop)]
pub struct Settling<'h> {
    opening: Tree,
    steps: Vec<Step<'h>>,
    // Where the steps lead, while they are legal.
    at: Standing,
    legal: bool,
    kept: bool,
}

impl<'h> Model for Settling<'h> {
    ghost use Rattle.history_rules.specs.Settled.{SoFar, StandsWhile};

    ghost Value = { SoFar };

    ghost view = { λ s. record { opening = s.opening; steps = s.steps.items; legal = s.legal; kept = s.kept } };

    ghost invariant = { λ s. StandsWhile s.opening s.steps.items s.at.tree s.at.ever s.legal };
}

// Takes a step more behind a list that was legal or not: whether the list is with it. Where it isn't, the tree is left in any state.
fn goes_on(at: &mut Standing, was: bool, step: &Step) -> Result<bool, NoMemory>
    ensures { (opening : FileTree) (steps : List Settled) → (was ≡ true → StandsAt opening steps at.old.tree at.old.ever) → IfOk result (IsWith opening steps step.now at.new.tree at.new.ever was) }
{
    if !was {
        return Ok(false);
    }
    at.go_on(step)
}

impl<'h> Settling<'h> {
    ghost use Rattle.history_rules.specs.Settled.{IsLegalStep};

    /// Nothing has happened on this tree.
    pub fn on(opening: Tree) -> Result<Settling<'h>, NoMemory>
        ensures { IfOk result (λ s. s ≡ record { opening = opening; steps = []; legal = true; kept = true }) }
    {
        let alloc = opening.alloc();
        let at = Standing {
            tree: opening.try_copy()?,
            ever: 0,
        };
        Ok(Settling {
            opening,
            steps: Vec::new(alloc),
            at,
            legal: true,
            kept: true,
        })
    }

    /// Takes an entry more. After `NoMemory` it is of no further use.
    pub fn take_entry(&mut self, entry: &'h Entry) -> Result<(), NoMemory>
        requires { IsTrue (is_within entry.now.op) }
        ensures opening { OnOk result (self.new.opening ≡ self.old.opening) }
        ensures steps { OnOk result (self.new.steps ≡ self.old.steps ++ Stays entry.now ∷ []) }
        ensures kept { OnOk result (self.new.kept ≡ self.old.kept) }
        ensures legal { OnOk result (IsLegalStep self.old self.new) }
    {
        let step = Step::stays(entry);
        let was = self.legal;
        self.legal = false;
        let fits = goes_on(&mut self.at, was, &step)?;
        self.steps.push(step)?;
        self.legal = fits;
        Ok(())
    }

    /// Takes a recovery more of a server, whose log kept the operations up to this one. After `NoMemory` it is of no further use.
    pub fn take_recovery(&mut self, server: ServerId, keeps: OpNo) -> Result<(), NoMemory>
        ensures opening { OnOk result (self.new.opening ≡ self.old.opening) }
        ensures steps { OnOk result (self.new.steps ≡ recovered self.old.opening server.0 keeps.0 self.old.steps) }
        ensures kept { OnOk result (self.new.kept ≡ (self.old.kept && keeps_known server.0 keeps.0 false self.old.opening self.old.steps)) }
        ensures legal { OnOk result (IsLegalStep self.old self.new) }
    {
        let kept = self.kept && keeps_known(server, keeps, &self.opening, &self.steps)?;
        let steps = recovered(&self.opening, server, keeps, &self.steps)?;
        let was = self.legal;
        self.legal = false;
        self.steps = steps;
        self.kept = kept;
        if was {
            self.check_steps()?;
        }
        Ok(())
    }

    // Finds where the steps lead, and whether they are legal.
    fn check_steps(&mut self) -> Result<(), NoMemory>
        requires { self.old.legal ≡ false }
        ensures { OnOk result (self.new ≡ record self.old { legal = legal_from self.old.opening 0 self.old.steps }) }
    {
        if let Some(at) = led(&self.opening, &self.steps)? {
            self.at = at;
            self.legal = true;
        }
        Ok(())
    }

    /// Whether the history has been legal at each item.
    pub fn is_legal(&self) -> bool
        ensures { result ≡ self.now.legal }
    {
        self.legal
    }

    /// Whether what must be kept has been.
    pub fn is_kept(&self) -> bool
        ensures { result ≡ self.now.kept }
    {
        self.kept
    }

    /// The settled list.
    pub fn steps(&self) -> &[Step<'h>]
        ensures { result.now ≡ self.now.steps }
    {
        &self.steps
    }

    /// What the tree of the history answers to an entry's operation; `None` where it shows cells in doubt, or where the operation has no path.
    pub fn answer(&self, entry: &Entry) -> Result<Option<Reply>, NoMemory>
        requires { IsTrue (is_within entry.now.op) }
    {
        let mut tree = self.tree()?;
        if !is_path_op(&entry.op) || matches!(entry.op, Op::Read { .. }) {
            return Ok(None);
        }
        let m = tree.dir_blocks();
        Ok(Some(tree.perform(&entry.op, entry.number, entry.when, m)?))
    }

    /// The tree of the history.
    pub fn tree(&self) -> Result<Tree, NoMemory>
        ensures { IfOk result (λ tree. tree ≡ after_all self.now.opening self.now.steps) }
    {
        tree_at_end(&self.opening, &self.steps)
    }

    /// The lines of the tree of the history.
    pub fn tree_lines(&self) -> Result<Vec<Said>, NoMemory>
        ensures { IfOk result (λ lines. lines.items ≡ tree_lines (after_all self.now.opening self.now.steps)) }
    {
        if self.legal {
            return self.at.tree.lines();
        }
        tree_at_end(&self.opening, &self.steps)?.lines()
    }
}
