// The tree of an expression.
ghost use Rattle.std.specs.Prelude.{◌≡◌, IfOk};
ghost use Rattle.expr.specs.Trees.{tree_of, trees_of};

use lists::Bytes;
use std::alloc::AllocError;

/// Which event an expression begins at: the one that started the run or the wait, or the one that came later.
#[derive(Clone, Copy, Debug, PartialEq, Eq)]
pub enum Source {
    /// `event`: the event that started the run or the wait.
    Event,
    /// `async`: the event that came later.
    Async,
}

/// A sign before its operand: `!` or `-`.
#[derive(Clone, Copy, Debug, PartialEq, Eq)]
pub enum Sign {
    /// `!`.
    Not,
    /// `-`.
    Minus,
}

/// An operator between its operands.
#[derive(Clone, Copy, Debug, PartialEq, Eq)]
pub enum Operator {
    /// `||`.
    Or,
    /// `&&`.
    And,
    /// `<`.
    Less,
    /// `<=`.
    LessOrEqual,
    /// `>`.
    Greater,
    /// `>=`.
    GreaterOrEqual,
    /// `==`.
    Equal,
    /// `!=`.
    NotEqual,
    /// `in`.
    In,
    /// `+`.
    Plus,
    /// `-`.
    Minus,
    /// `*`.
    Times,
    /// `/`.
    Divide,
    /// `%`.
    Remainder,
}

/// A function of one argument.
#[derive(Clone, Copy, Debug, PartialEq, Eq)]
pub enum Function {
    /// `size(a)`: how many characters, items or members.
    Size,
    /// `string(a)`: as a text.
    String,
}

/// A method of a text, with a text as its argument.
#[derive(Clone, Copy, Debug, PartialEq, Eq)]
pub enum Method {
    /// `a.startsWith(b)`.
    StartsWith,
    /// `a.endsWith(b)`.
    EndsWith,
    /// `a.contains(b)`.
    Contains,
}

/// The tree of an expression, a variant for each form of the grammar. Contracts see it by `tree_of`.
#[derive(Drop)]
pub enum Term {
    /// `null`.
    Null,
    /// `true` or `false`.
    Bool(bool),
    /// In units of 10^-18, never negative.
    Number(i128),
    /// A string by its value.
    Text(Bytes),
    /// `event` or `async`.
    Source(Source),
    /// `( .. )`.
    Group(Box<Term>),
    /// `[ .. , .. ]`.
    List(Vec<Term>),
    /// `a.f`.
    Member(Box<Term>, Bytes),
    /// `a[b]`.
    Index(Box<Term>, Box<Term>),
    /// `has(a.f)`.
    Has(Box<Term>, Bytes),
    /// `size(a)`, `string(a)`.
    Call(Function, Box<Term>),
    /// `a.startsWith(b)` and the like.
    Method(Method, Box<Term>, Box<Term>),
    /// `!a`, `-a`.
    Unary(Sign, Box<Term>),
    /// `a + b` and the like.
    Binary(Operator, Box<Term>, Box<Term>),
    /// `c ? a : b`.
    Choice(Box<Term>, Box<Term>, Box<Term>),
}

impl Clone for Term {
    ghost is_clone = { λ t u. tree_of u ≡ tree_of t };

    fn clone(&self) -> Result<Term, AllocError> {
        copy(self)
    }
}

#[cycle(copy)]
fn copy(term: &Term) -> Result<Term, AllocError>
    ensures { IfOk result (λ t. tree_of t ≡ tree_of term.now) }
{
    match term {
        Term::Null => Ok(Term::Null),
        Term::Bool(value) => Ok(Term::Bool(*value)),
        Term::Number(units) => Ok(Term::Number(*units)),
        Term::Text(text) => Ok(Term::Text(text.clone()?)),
        Term::Source(source) => Ok(Term::Source(*source)),
        Term::Group(inside) => Ok(Term::Group(copy_box(inside)?)),
        Term::List(items) => Ok(Term::List(copy_all(items)?)),
        Term::Member(of, name) => Ok(Term::Member(copy_box(of)?, name.clone()?)),
        Term::Index(of, place) => Ok(Term::Index(copy_box(of)?, copy_box(place)?)),
        Term::Has(of, name) => Ok(Term::Has(copy_box(of)?, name.clone()?)),
        Term::Call(function, argument) => Ok(Term::Call(*function, copy_box(argument)?)),
        Term::Method(method, of, argument) => {
            Ok(Term::Method(*method, copy_box(of)?, copy_box(argument)?))
        }
        Term::Unary(sign, operand) => Ok(Term::Unary(*sign, copy_box(operand)?)),
        Term::Binary(operator, left, right) => {
            Ok(Term::Binary(*operator, copy_box(left)?, copy_box(right)?))
        }
        Term::Choice(test, chosen, other) => {
            Ok(Term::Choice(copy_box(test)?, copy_box(chosen)?, copy_box(other)?))
        }
    }
}

#[cycle(copy)]
pub(crate) fn copy_box(term: &Box<Term>) -> Result<Box<Term>, AllocError>
    ensures { IfOk result (λ t. tree_of t.value ≡ tree_of term.now.value) }
{
    Ok(Box::new(*Box::allocator(term), copy(term)?)?)
}

#[cycle(copy)]
fn copy_all(terms: &Vec<Term>) -> Result<Vec<Term>, AllocError>
    ensures { IfOk result (λ t. trees_of t.items ≡ trees_of terms.now.items) }
{
    let mut copies = Vec::with_capacity(*terms.allocator(), terms.len())?;
    for term in terms {
        copies.push(copy(term)?)?;
    }
    Ok(copies)
}
