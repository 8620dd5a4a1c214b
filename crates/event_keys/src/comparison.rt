// Which conjunct of a condition compares a member of the fresh event.
ghost use Rattle.std.specs.Prelude.{◌≡◌, IfOk, Some};
ghost use Rattle.std.specs.Option.{option_map};
ghost use Rattle.expr.specs.Trees.{tree_of, trees_of};
ghost use Rattle.event_keys.specs.Buckets.{against, compared, conjuncts, first_compared, fresh_path, is_fresh, name_fresh, names_fresh};
ghost use Rattle.event_keys.specs.Reading.{compared_of};

use expr::{Operator, Source, Term};
use lists::{Bytes, Items, Memory};
use std::alloc::Global;

/// A member of the fresh event, and what a condition asks it to be equal to.
#[derive(Drop)]
pub(crate) struct Comparison<'t> {
    pub(crate) path: Items<Bytes>,
    pub(crate) to: &'t Term,
}

/// Of a chain of `&&` the first conjunct that compares.
#[cycle(first_compared)]
pub(crate) fn first_compared<'t>(
    alloc: Global,
    term: &'t Term,
) -> Result<Option<Comparison<'t>>, Memory>
    ensures { IfOk result (λ c. option_map compared_of c
        ≡ first_compared (conjuncts (tree_of term.now))) }
{
    match term {
        Term::Binary(Operator::And, before, last) => match first_compared(alloc, before)? {
            Some(found) => Ok(Some(found)),
            None => compared(alloc, last),
        },
        _ => compared(alloc, term),
    }
}

// `async.P == E` or `E == async.P`, where E doesn't name the fresh event.
fn compared<'t>(alloc: Global, term: &'t Term) -> Result<Option<Comparison<'t>>, Memory>
    ensures { IfOk result (λ c. option_map compared_of c ≡ compared (tree_of term.now)) }
{
    match term {
        Term::Binary(Operator::Equal, left, right) => match against(alloc, left, right)? {
            Some(found) => Ok(Some(found)),
            None => against(alloc, right, left),
        },
        _ => Ok(None),
    }
}

fn against<'t>(alloc: Global, member: &Term, to: &'t Term) -> Result<Option<Comparison<'t>>, Memory>
    ensures { IfOk result (λ c. option_map compared_of c
        ≡ against (fresh_path (tree_of member.now)) (tree_of to.now)) }
{
    match fresh_path(alloc, member)? {
        Some(path) => Ok(behind(path, to)),
        None => Ok(None),
    }
}

fn behind<'t>(path: Items<Bytes>, to: &'t Term) -> Option<Comparison<'t>>
    ensures { option_map compared_of result ≡ against (Some path) (tree_of to.now) }
{
    if path.is_empty() || names_fresh(to) {
        None
    } else {
        Some(Comparison { path, to })
    }
}

// The names behind `async`, where the term is nothing else.
#[cycle(fresh_path)]
fn fresh_path(alloc: Global, term: &Term) -> Result<Option<Items<Bytes>>, Memory>
    ensures { IfOk result (λ path. path ≡ fresh_path (tree_of term.now)) }
{
    match term {
        Term::Source(Source::Async) => Ok(Some(Items::new(alloc))),
        Term::Member(of, name) => match fresh_path(alloc, of)? {
            Some(mut path) => {
                path.push(name.clone()?)?;
                Ok(Some(path))
            }
            None => Ok(None),
        },
        _ => Ok(None),
    }
}

// Whether a term names the fresh event.
#[cycle(names_fresh)]
fn names_fresh(term: &Term) -> bool
    ensures { result ≡ names_fresh (tree_of term.now) }
{
    match term {
        Term::Null | Term::Bool(_) | Term::Number(_) | Term::Text(_) => false,
        Term::Source(source) => is_fresh(*source),
        Term::Group(inside) => names_fresh(inside),
        Term::List(items) => any_names_fresh(items),
        Term::Member(of, _) => names_fresh(of),
        Term::Has(of, _) => names_fresh(of),
        Term::Call(_, argument) => names_fresh(argument),
        Term::Unary(_, operand) => names_fresh(operand),
        Term::Index(left, right) => names_fresh(left) || names_fresh(right),
        Term::Method(_, left, right) => names_fresh(left) || names_fresh(right),
        Term::Binary(_, left, right) => names_fresh(left) || names_fresh(right),
        Term::Choice(test, chosen, other) => {
            names_fresh(test) || names_fresh(chosen) || names_fresh(other)
        }
    }
}

fn is_fresh(source: Source) -> bool
    ensures { result ≡ is_fresh source }
{
    match source {
        Source::Event => false,
        Source::Async => true,
    }
}

#[tactic(auto, using(crate::proofs::LoopLemmas::not_named, crate::proofs::LoopLemmas::is_named, crate::proofs::LoopLemmas::none_left))]
#[cycle(names_fresh)]
fn any_names_fresh(terms: &Vec<Term>) -> bool
    ensures { result ≡ name_fresh (trees_of terms.now.items) }
{
    for term in terms {
        if names_fresh(term) {
            return true;
        }
    }
    false
}
