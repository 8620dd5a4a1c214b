// The public calls: an expression over one event or two.
ghost use Rattle.std.specs.Prelude.{◌≡◌, ◌+◌, IfOk, MatchResult, None};
ghost use Rattle.std.specs.Option.{option_copied};
ghost use Rattle.lists.specs.Starved.{OrStarved};
ghost use Rattle.cel_eval.specs.Cells.{IsInUnits};
ghost use Rattle.cel_eval.specs.Table.{evaluated, value_of, worth};
ghost use Rattle.cel_eval.specs.Operands.{datum_of};
ghost use Rattle.cel_eval.specs.Data.{of_json, over, seen, seen_outcome};
ghost use Rattle.expr.specs.Trees.{tree_of};
ghost use Rattle.json_text.specs.Nodes.{IsNodeOf, value_at};
ghost use Rattle.cel_eval.specs.declared.fault.EvalFault.TheVariants as fault;

use crate::operand::Operand;
use crate::part::Part;
use crate::scope::Scope;
use crate::worth::worth;
use crate::{EvalFault, Value};
use expr::{Expr, Term};
use json_text::{Node, Tree};
use kinds::Steps;
use lists::Bytes;
use std::alloc::Global;
use std::sync::ledger::Ledger;

/// The value of an expression, where `event` stands for the first tree and `async` for the fresh one. A condition
/// matches where this is `true`. Conditions, keys and priorities are evaluated by it.
pub fn eval<L: Ledger>(
    alloc: Global,
    expr: &Expr,
    event: &Tree<'_>,
    fresh: Option<&Tree<'_>>,
    steps: &mut Steps<L>,
) -> Result<Value, EvalFault>
    ensures value { OrStarved fault.Memory
        (evaluated expr.now event.now (option_copied fresh.entry)) result }
    ensures units { IfOk result IsInUnits }
    ensures once { steps.new ≡ steps.old + 1 }
{
    steps.tick();
    value_over(alloc, expr, &Scope::new(event, fresh))
}

/// The value of a whole expression or a part of one, where `event` stands for the tree and there is no fresh event.
/// It isn't counted as an evaluation.
pub fn eval_term(alloc: Global, term: &Term, event: &Tree<'_>) -> Result<Value, EvalFault>
    ensures value { OrStarved fault.Memory
        (seen_outcome (worth (tree_of term.now) (over event.now.value None))) result }
    ensures units { IfOk result IsInUnits }
{
    shown(worth(alloc, term, &Scope::new(event, None))?, alloc)
}

/// The value at a node of an event's text.
pub fn node_value(alloc: Global, event: &Tree<'_>, node: Node) -> Result<Value, EvalFault>
    requires { IsNodeOf event.now node }
    ensures value { OrStarved fault.Memory (seen_outcome (of_json (value_at event.now node))) result }
    ensures units { IfOk result IsInUnits }
{
    shown(Operand::of(Part::at(event, node))?, alloc)
}

fn value_over(alloc: Global, expr: &Expr, scope: &Scope<'_, '_>) -> Result<Value, EvalFault>
    ensures value { OrStarved fault.Memory (value_of expr.now scope.now) result }
    ensures units { IfOk result IsInUnits }
{
    shown(worth(alloc, expr.term(), scope)?, alloc)
}

fn shown(operand: Operand<'_, '_>, alloc: Global) -> Result<Value, EvalFault>
    ensures value { MatchResult result (λ v. v ≡ seen (datum_of operand.entry)) (λ e. e ≡ fault.Memory) }
    ensures units { IfOk result IsInUnits }
{
    match operand {
        Operand::Null => Ok(Value::Null),
        Operand::Bool(value) => Ok(Value::Bool(value)),
        Operand::Number(units) => Ok(Value::Number(units.get())),
        Operand::Text(text) => Ok(Value::Text(Bytes::from_slice(alloc, text)?)),
        Operand::Made(text) => Ok(Value::Text(text)),
        Operand::List(_) | Operand::Written(_) => Ok(Value::List),
        Operand::Object(_) => Ok(Value::Object),
    }
}
