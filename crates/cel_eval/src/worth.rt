// What each form of a term is worth.
ghost use Rattle.std.specs.Prelude.{◌≡◌, IfOk, Ok};
ghost use Rattle.expr.specs.Trees.{tree_of, trees_of};
ghost use Rattle.cel_eval.specs.Data.{Outcome, as_number, in_units, written};
ghost use Rattle.cel_eval.specs.Operands.{Gives, GivesOf, GivesOfTwo};
ghost use Rattle.cel_eval.specs.Operations.{member, index, has, call, text_method, signed, truth, join, operate};
ghost use Rattle.cel_eval.specs.Table.{worth, all_worth, then, then_all, both, binary, choose};

use crate::EvalFault;
use crate::operand::Operand;
use crate::operate::{join, operate};
use crate::pairs::text_method;
use crate::scope::Scope;
use crate::units::Units;
use expr::{Function, Method, Operator, Sign, Term};
use lists::Memory;
use std::alloc::Global;

/// What a term is worth: each form by its own rule, over what its parts are worth. Of `||`, `&&` and `?:` it looks
/// at no part that can't count.
#[cycle(worth)]
pub(crate) fn worth<'t, 'a>(
    alloc: Global,
    term: &'t Term,
    scope: &Scope<'t, 'a>,
) -> Result<Operand<'t, 'a>, EvalFault>
    ensures { Gives (worth (tree_of term.now) scope.now) result }
{
    match term {
        Term::Null => Ok(Operand::Null),
        Term::Bool(value) => Ok(Operand::Bool(*value)),
        Term::Number(units) => number(*units),
        Term::Text(text) => Ok(Operand::Text(text.as_slice())),
        Term::Source(source) => scope.whole(*source),
        Term::Group(inside) => worth(alloc, inside, scope),
        Term::List(items) => list(alloc, items, scope),
        Term::Member(of, name) => member(worth(alloc, of, scope), name.as_slice()),
        Term::Index(of, place) => index(worth(alloc, of, scope), worth(alloc, place, scope)),
        Term::Has(of, name) => has(worth(alloc, of, scope), name.as_slice()),
        Term::Call(function, argument) => call(*function, worth(alloc, argument, scope), alloc),
        Term::Method(kind, of, argument) => method(
            *kind,
            worth(alloc, of, scope),
            worth(alloc, argument, scope),
        ),
        Term::Unary(sign, operand) => signed(*sign, worth(alloc, operand, scope)),
        Term::Binary(operator, left, right) => match operator {
            Operator::Or => match truth(worth(alloc, left, scope))? {
                Ok(true) => Ok(Operand::Bool(true)),
                left => join(true, left, truth(worth(alloc, right, scope))?),
            },
            Operator::And => match truth(worth(alloc, left, scope))? {
                Ok(false) => Ok(Operand::Bool(false)),
                left => join(false, left, truth(worth(alloc, right, scope))?),
            },
            _ => binary(
                *operator,
                worth(alloc, left, scope),
                worth(alloc, right, scope),
                alloc,
            ),
        },
        Term::Choice(test, chosen, other) => match truth(worth(alloc, test, scope))? {
            Ok(true) => worth(alloc, chosen, scope),
            Ok(false) => worth(alloc, other, scope),
            Err(fault) => Err(fault),
        },
    }
}

#[tactic(auto, using(crate::proofs::ListLemmas::all_begun, crate::proofs::ListLemmas::item_worth, crate::proofs::ListLemmas::item_fails))]
#[cycle(worth)]
fn list<'t, 'a>(
    alloc: Global,
    items: &'t Vec<Term>,
    scope: &Scope<'t, 'a>,
) -> Result<Operand<'t, 'a>, EvalFault>
    ensures { Gives
        (then_all (all_worth (trees_of items.now.items) scope.now) (λ ds. Ok (written ds))) result }
{
    let mut values = Vec::new(alloc);
    for item in items {
        values.push(worth(alloc, item, scope)?)?;
    }
    Ok(Operand::Written(values))
}

fn number<'t, 'a>(units: i128) -> Result<Operand<'t, 'a>, EvalFault>
    ensures { Gives (as_number (in_units units)) result }
{
    Ok(Operand::Number(Units::new(units)?))
}

fn member<'t, 'a>(
    of: Result<Operand<'t, 'a>, EvalFault>,
    name: &[u8],
) -> Result<Operand<'t, 'a>, EvalFault>
    ensures { GivesOf (λ o. then o (λ d. member d name.now)) of.entry result }
{
    match of {
        Ok(of) => of.member(name),
        Err(fault) => Err(fault),
    }
}

fn has<'t, 'a>(
    of: Result<Operand<'t, 'a>, EvalFault>,
    name: &[u8],
) -> Result<Operand<'t, 'a>, EvalFault>
    ensures { GivesOf (λ o. then o (λ d. has d name.now)) of.entry result }
{
    match of {
        Ok(of) => of.has(name),
        Err(fault) => Err(fault),
    }
}

fn call<'t, 'a>(
    function: Function,
    argument: Result<Operand<'t, 'a>, EvalFault>,
    alloc: Global,
) -> Result<Operand<'t, 'a>, EvalFault>
    ensures { GivesOf (λ o. then o (call function)) argument.entry result }
{
    match argument {
        Ok(argument) => argument.call(function, alloc),
        Err(fault) => Err(fault),
    }
}

fn signed<'t, 'a>(
    sign: Sign,
    operand: Result<Operand<'t, 'a>, EvalFault>,
) -> Result<Operand<'t, 'a>, EvalFault>
    ensures { GivesOf (λ o. then o (signed sign)) operand.entry result }
{
    match operand {
        Ok(operand) => operand.signed(sign),
        Err(fault) => Err(fault),
    }
}

fn index<'t, 'a>(
    of: Result<Operand<'t, 'a>, EvalFault>,
    place: Result<Operand<'t, 'a>, EvalFault>,
) -> Result<Operand<'t, 'a>, EvalFault>
    ensures { GivesOfTwo (λ l r. both l r index) of.entry place.entry result }
{
    match of {
        Ok(of) => match place {
            Ok(place) => of.index(&place),
            Err(fault) => Err(fault),
        },
        Err(fault) => Err(fault),
    }
}

fn method<'t, 'a>(
    kind: Method,
    of: Result<Operand<'t, 'a>, EvalFault>,
    argument: Result<Operand<'t, 'a>, EvalFault>,
) -> Result<Operand<'t, 'a>, EvalFault>
    ensures { GivesOfTwo (λ l r. both l r (text_method kind)) of.entry argument.entry result }
{
    match of {
        Ok(of) => match argument {
            Ok(argument) => text_method(kind, &of, &argument),
            Err(fault) => Err(fault),
        },
        Err(fault) => Err(fault),
    }
}

fn binary<'t, 'a>(
    operator: Operator,
    left: Result<Operand<'t, 'a>, EvalFault>,
    right: Result<Operand<'t, 'a>, EvalFault>,
    alloc: Global,
) -> Result<Operand<'t, 'a>, EvalFault>
    ensures { GivesOfTwo (λ l r. both l r (operate operator)) left.entry right.entry result }
{
    match left {
        Ok(left) => match right {
            Ok(right) => operate(operator, &left, &right, alloc),
            Err(fault) => Err(fault),
        },
        Err(fault) => Err(fault),
    }
}

/// What an operand is worth as a condition, but for want of memory.
fn truth(operand: Result<Operand<'_, '_>, EvalFault>) -> Result<Result<bool, EvalFault>, Memory>
    ensures { (exact : Outcome) → Gives exact operand.entry → IfOk result (λ t. t ≡ truth exact) }
{
    match operand {
        Ok(operand) => Ok(operand.truth()),
        Err(EvalFault::Memory) => Err(Memory),
        Err(fault) => Ok(Err(fault)),
    }
}
