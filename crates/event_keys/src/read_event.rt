// An event's text, read once.
ghost use Rattle.std.specs.Prelude.{◌≡◌, ◌+◌, IfOk};
ghost use Rattle.lists.specs.Starved.{OrStarved};
ghost use Rattle.cel_eval.specs.Cells.{IsInUnits};
ghost use Rattle.cel_eval.specs.declared.fault.EvalFault.TheVariants as fault;
ghost use Rattle.std.specs.Option.{option_copied};
ghost use Rattle.event_keys.specs.Expressions.{json_of, worth_over, worth_over_both};
ghost use Rattle.event_keys.specs.Reading.{tree_json};

use cel_eval::{EvalFault, Value, eval, eval_term};
use expr::Expr;
use json_text::{JsonFault, Tree};
use kinds::Steps;
use lists::Memory;
use std::alloc::Global;
use std::marker::Model;
use std::sync::ledger::Ledger;

/// An event whose text was read once. Contracts see the text. One of the server's own may nest too deep
/// to be read: every expression on it fails.
#[derive(Drop)]
pub struct ReadEvent<'a> {
    text: &'a [u8],
    tree: Option<Tree<'a>>,
}

impl<'a> Model for ReadEvent<'a> {
    ghost use Rattle.std.specs.Prelude.{◌≡◌, List, ℕ};
    ghost use Rattle.event_keys.specs.Expressions.{json_of};
    ghost use Rattle.event_keys.specs.Reading.{tree_json};

    ghost Value = { List ℕ };

    ghost view = { λ e. e.text.now };

    ghost invariant = { λ e. json_of e.text.now ≡ tree_json e.tree };
}

impl<'a> ReadEvent<'a> {
    /// Reads a text, in time linear in its bytes.
    #[tactic(auto, using(crate::proofs::TextLemmas::was_read, crate::proofs::TextLemmas::not_read))]
    pub fn read(alloc: Global, text: &'a [u8]) -> Result<Self, Memory>
        ensures { IfOk result (λ e. e ≡ text.now) }
    {
        match Tree::read(alloc, text) {
            Ok(tree) => Ok(ReadEvent {
                text,
                tree: Some(tree),
            }),
            Err(JsonFault::Memory) => Err(Memory),
            Err(JsonFault::NotJson { .. } | JsonFault::TooDeep { .. }) => {
                Ok(ReadEvent { text, tree: None })
            }
        }
    }

    /// The tree of the text, where it was read.
    pub(crate) fn tree(&self) -> Option<&Tree<'a>>
        ensures { json_of self.now ≡ tree_json (option_copied result) }
    {
        self.tree.as_ref()
    }

    /// What an expression is worth over the event.
    #[tactic(auto, using(crate::proofs::TextLemmas::by_tree))]
    pub(crate) fn worth(&self, alloc: Global, expr: &Expr) -> Result<Value, EvalFault>
        ensures value { OrStarved fault.Memory (worth_over expr.now self.now) result }
        ensures units { IfOk result IsInUnits }
    {
        match &self.tree {
            Some(tree) => eval_term(alloc, expr.term(), tree),
            None => Err(EvalFault::NoField),
        }
    }

    /// What it is worth over the event and a fresh one.
    pub(crate) fn worth_beside<L: Ledger>(
        &self,
        alloc: Global,
        expr: &Expr,
        fresh: &ReadEvent<'_>,
        steps: &mut Steps<L>,
    ) -> Result<Value, EvalFault>
        ensures value { OrStarved fault.Memory (worth_over_both expr.now self.now fresh.now) result }
        ensures units { IfOk result IsInUnits }
        ensures once { steps.new ≡ steps.old + 1 }
    {
        match (&self.tree, &fresh.tree) {
            (Some(tree), Some(other)) => eval(alloc, expr, tree, Some(other), steps),
            _ => {
                steps.tick();
                Err(EvalFault::NoField)
            }
        }
    }
}
