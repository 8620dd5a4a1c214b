// The rules on names and on counts of arguments.
ghost use Rattle.std.specs.Prelude.{◌≡◌, ◌∷◌, [], OnOk, IfOk, MatchOption, Bool, ℕ, List, Some, None};
ghost use Rattle.expr.specs.Tokens.{placed_tokens};
ghost use Rattle.cel_parse.specs.Rules.{without_signs, without_heads, takes, close_no_items, close_no_arguments, word_wanted, minus_wanted, take_wanted, begin_call, take_call, close_round, close_square, next_item, other_branch, operate, operate_if, take_behind, take_callable, take_name, take_token, lesser, rules_in};
ghost use Rattle.cel_parse.specs.Seats.{taken_of};
ghost use Rattle.cel_parse.specs.declared.rules.Shape.{Shape};
ghost use Rattle.cel_parse.specs.declared.rules.Seat.TheVariants.{Want};
ghost use Rattle.cel_parse.specs.Tokens.{token_of, placed_of};

use crate::cutter::Cutter;
use crate::step::{is_atom, is_callee, is_in, is_method};
use crate::token::{Placed, Token};
use expr::Operator;
use lists::Memory;
use std::alloc::Global;
use std::marker::Model;

/// Which item of a list is to come.
#[derive(Clone, Copy)]
pub enum Items {
    First,
    Later,
}

/// What is open, by its shape alone.
#[derive(Clone, Copy)]
pub enum Shape {
    Sign,
    Test,
    Branch,
    Round,
    Square(Items),
    Place,
    /// The arguments of a function or a method, with the place of its name.
    Call(usize, Items),
}

/// A name that may stand before `(`: its place, and whether there is a function or a method of this name.
#[derive(Clone, Copy)]
pub struct Callee {
    pub place: usize,
    pub known: bool,
}

/// Where the tokens so far end.
#[derive(Clone, Copy)]
pub enum Seat {
    /// An operand is to come.
    Want,
    /// In a name that is no operand: `(` is to come.
    Function(Callee),
    /// In an operand.
    Operand,
    /// In an operand that ends with a name.
    Callable(Callee),
    /// In `.`.
    BehindDot,
}

/// What a token does.
#[derive(Clone, Copy)]
pub enum Taken {
    /// No expression goes on so.
    Stops,
    /// The next seat, with the place of a name that breaks a rule at this token.
    Takes(Option<usize>, Seat),
}

/// What is open, the innermost last.
#[derive(Drop)]
struct Opens {
    items: Vec<Shape>,
}

impl Model for Opens {
    ghost use Rattle.std.specs.Prelude.{List};
    ghost use Rattle.cel_parse.specs.Rules.{onto};
    ghost use Rattle.cel_parse.specs.declared.rules.Shape.{Shape};
    ghost use Rattle.std.specs.Prelude.{[]};

    ghost Value = { List Shape };

    ghost view = { λ s. onto [] s.items.items };
}

impl Opens {
    fn new(alloc: Global) -> Self
        ensures { result ≡ [] }
    {
        Opens {
            items: Vec::new(alloc),
        }
    }

    fn push(&mut self, shape: Shape) -> Result<(), Memory>
        ensures { OnOk result (self.new ≡ shape ∷ self.old) }
    {
        self.items.push(shape)?;
        Ok(())
    }

    fn pop(&mut self) -> Option<Shape>
        ensures { MatchOption result ((self.old ≡ []) × (self.new ≡ [])) (λ x. self.old ≡ x ∷ self.new) }
    {
        self.items.pop()
    }

    /// Drops the signs on top.
    fn drop_signs(&mut self) -> Result<(), Memory>
        ensures { OnOk result (self.new ≡ without_signs self.old) }
    {
        while let Some(shape) = self.pop() {
            match shape {
                Shape::Sign => {}
                other => return self.push(other),
            }
        }
        Ok(())
    }

    /// Drops the signs and the second branches on top.
    fn drop_heads(&mut self) -> Result<(), Memory>
        ensures { OnOk result (self.new ≡ without_heads self.old) }
    {
        while let Some(shape) = self.pop() {
            match shape {
                Shape::Sign | Shape::Branch => {}
                other => return self.push(other),
            }
        }
        Ok(())
    }
}

/// Opens one more, in which an operand is to come.
fn begin(opens: &mut Opens, shape: Shape) -> Result<Taken, Memory>
    ensures { IfOk result (λ t. taken_of t opens.new ≡ takes None (shape ∷ opens.old) Want) }
{
    opens.push(shape)?;
    Ok(Taken::Takes(None, Seat::Want))
}

fn empty_list(shape: Shape) -> Taken
    ensures { (os : List Shape) → taken_of result os ≡ close_no_items (shape ∷ os) }
{
    match shape {
        Shape::Square(Items::First) => Taken::Takes(None, Seat::Operand),
        _ => Taken::Stops,
    }
}

fn close_no_items(opens: &mut Opens) -> Taken
    ensures { taken_of result opens.new ≡ close_no_items opens.old }
{
    match opens.pop() {
        Some(shape) => empty_list(shape),
        None => Taken::Stops,
    }
}

fn empty_call(shape: Shape) -> Taken
    ensures { (os : List Shape) → taken_of result os ≡ close_no_arguments (shape ∷ os) }
{
    match shape {
        Shape::Call(place, Items::First) => Taken::Takes(Some(place), Seat::Operand),
        _ => Taken::Stops,
    }
}

fn close_no_arguments(opens: &mut Opens) -> Taken
    ensures { taken_of result opens.new ≡ close_no_arguments opens.old }
{
    match opens.pop() {
        Some(shape) => empty_call(shape),
        None => Taken::Stops,
    }
}

fn word_wanted(start: usize, is_atom: bool, is_callee: bool) -> Taken
    ensures { (os : List Shape) → taken_of result os ≡ word_wanted start os is_atom is_callee }
{
    if is_atom {
        return Taken::Takes(
            None,
            Seat::Callable(Callee {
                place: start,
                known: false,
            }),
        );
    }
    Taken::Takes(
        None,
        Seat::Function(Callee {
            place: start,
            known: is_callee,
        }),
    )
}

fn minus_wanted(opens: &mut Opens, operator: Operator) -> Result<Taken, Memory>
    ensures { IfOk result (λ t. taken_of t opens.new ≡ minus_wanted opens.old operator) }
{
    match operator {
        Operator::Minus => begin(opens, Shape::Sign),
        _ => Ok(Taken::Stops),
    }
}

/// Takes a token where an operand is to come.
fn take_wanted(opens: &mut Opens, start: usize, token: Token) -> Result<Taken, Memory>
    ensures { IfOk result (λ t. taken_of t opens.new ≡ take_wanted start opens.old (token_of token)) }
{
    match token {
        Token::Number(_) => Ok(Taken::Takes(None, Seat::Operand)),
        Token::Quoted(_) => Ok(Taken::Takes(None, Seat::Operand)),
        Token::Word(word) => Ok(word_wanted(
            start,
            is_atom(word.as_slice()),
            is_callee(word.as_slice()),
        )),
        Token::Operator(operator) => minus_wanted(opens, operator),
        Token::Exclaim => begin(opens, Shape::Sign),
        Token::RoundOpen => begin(opens, Shape::Round),
        Token::SquareOpen => begin(opens, Shape::Square(Items::First)),
        Token::SquareClose => Ok(close_no_items(opens)),
        Token::RoundClose => Ok(close_no_arguments(opens)),
        _ => Ok(Taken::Stops),
    }
}

/// Opens the arguments behind a name, which breaks a rule where there is none such.
fn begin_call(opens: &mut Opens, callee: Callee) -> Result<Taken, Memory>
    ensures { IfOk result (λ t. taken_of t opens.new ≡ begin_call opens.old callee) }
{
    opens.push(Shape::Call(callee.place, Items::First))?;
    let broken = if callee.known {
        None
    } else {
        Some(callee.place)
    };
    Ok(Taken::Takes(broken, Seat::Want))
}

fn take_call(opens: &mut Opens, callee: Callee, token: Token) -> Result<Taken, Memory>
    ensures { IfOk result (λ t. taken_of t opens.new ≡ take_call opens.old callee (token_of token)) }
{
    match token {
        Token::RoundOpen => begin_call(opens, callee),
        _ => Ok(Taken::Stops),
    }
}

fn round_of(shape: Shape) -> Taken
    ensures { (os : List Shape) → taken_of result os ≡ close_round (shape ∷ os) }
{
    match shape {
        Shape::Round => Taken::Takes(None, Seat::Operand),
        Shape::Call(_, _) => Taken::Takes(None, Seat::Operand),
        _ => Taken::Stops,
    }
}

fn close_round(opens: &mut Opens) -> Taken
    ensures { taken_of result opens.new ≡ close_round opens.old }
{
    match opens.pop() {
        Some(shape) => round_of(shape),
        None => Taken::Stops,
    }
}

fn square_of(shape: Shape) -> Taken
    ensures { (os : List Shape) → taken_of result os ≡ close_square (shape ∷ os) }
{
    match shape {
        Shape::Square(_) => Taken::Takes(None, Seat::Operand),
        Shape::Place => Taken::Takes(None, Seat::Operand),
        _ => Taken::Stops,
    }
}

fn close_square(opens: &mut Opens) -> Taken
    ensures { taken_of result opens.new ≡ close_square opens.old }
{
    match opens.pop() {
        Some(shape) => square_of(shape),
        None => Taken::Stops,
    }
}

/// Takes `,` behind an item: a second argument breaks a rule.
fn next_item(opens: &mut Opens) -> Result<Taken, Memory>
    ensures { IfOk result (λ t. taken_of t opens.new ≡ next_item opens.old) }
{
    let Some(shape) = opens.pop() else {
        return Ok(Taken::Stops);
    };
    match shape {
        Shape::Square(_) => begin(opens, Shape::Square(Items::Later)),
        Shape::Call(place, _) => {
            opens.push(Shape::Call(place, Items::Later))?;
            Ok(Taken::Takes(Some(place), Seat::Want))
        }
        _ => Ok(Taken::Stops),
    }
}

fn other_branch(opens: &mut Opens) -> Result<Taken, Memory>
    ensures { IfOk result (λ t. taken_of t opens.new ≡ other_branch opens.old) }
{
    let Some(shape) = opens.pop() else {
        return Ok(Taken::Stops);
    };
    match shape {
        Shape::Test => begin(opens, Shape::Branch),
        _ => Ok(Taken::Stops),
    }
}

fn operate(opens: &mut Opens) -> Result<Taken, Memory>
    ensures { IfOk result (λ t. taken_of t opens.new ≡ operate opens.old) }
{
    opens.drop_signs()?;
    Ok(Taken::Takes(None, Seat::Want))
}

fn operate_if(opens: &mut Opens, is_operator: bool) -> Result<Taken, Memory>
    ensures { IfOk result (λ t. taken_of t opens.new ≡ operate_if opens.old is_operator) }
{
    if is_operator {
        return operate(opens);
    }
    Ok(Taken::Stops)
}

/// Takes a token behind an operand.
fn take_behind(opens: &mut Opens, token: Token) -> Result<Taken, Memory>
    ensures { IfOk result (λ t. taken_of t opens.new ≡ take_behind opens.old (token_of token)) }
{
    match token {
        Token::Operator(_) => operate(opens),
        Token::Word(word) => operate_if(opens, is_in(word.as_slice())),
        Token::Question => {
            opens.drop_signs()?;
            begin(opens, Shape::Test)
        }
        Token::Dot => Ok(Taken::Takes(None, Seat::BehindDot)),
        Token::SquareOpen => begin(opens, Shape::Place),
        Token::Colon => {
            opens.drop_heads()?;
            other_branch(opens)
        }
        Token::Comma => {
            opens.drop_heads()?;
            next_item(opens)
        }
        Token::RoundClose => {
            opens.drop_heads()?;
            Ok(close_round(opens))
        }
        Token::SquareClose => {
            opens.drop_heads()?;
            Ok(close_square(opens))
        }
        _ => Ok(Taken::Stops),
    }
}

fn take_callable(opens: &mut Opens, callee: Callee, token: Token) -> Result<Taken, Memory>
    ensures { IfOk result (λ t.
        taken_of t opens.new ≡ take_callable opens.old callee (token_of token)) }
{
    match token {
        Token::RoundOpen => begin_call(opens, callee),
        other => take_behind(opens, other),
    }
}

/// Takes a token behind `.`.
fn take_name(start: usize, token: Token) -> Taken
    ensures { (os : List Shape) → taken_of result os ≡ take_name start os (token_of token) }
{
    match token {
        Token::Word(name) => {
            let known = is_method(name.as_slice());
            Taken::Takes(
                None,
                Seat::Callable(Callee {
                    place: start,
                    known,
                }),
            )
        }
        _ => Taken::Stops,
    }
}

fn take_token(opens: &mut Opens, seat: Seat, placed: Placed) -> Result<Taken, Memory>
    ensures { IfOk result (λ t. taken_of t opens.new ≡ take_token opens.old seat (placed_of placed)) }
{
    let Placed { start, token } = placed;
    match seat {
        Seat::Want => take_wanted(opens, start, token),
        Seat::Function(callee) => take_call(opens, callee, token),
        Seat::Operand => take_behind(opens, token),
        Seat::Callable(callee) => take_callable(opens, callee, token),
        Seat::BehindDot => Ok(take_name(start, token)),
    }
}

fn lesser(a: Option<usize>, b: Option<usize>) -> Option<usize>
    ensures { result ≡ lesser a b }
{
    let Some(first) = a else {
        return b;
    };
    match b {
        Some(second) => Some(first.min(second)),
        None => Some(first),
    }
}

/// The least place of a name that breaks a rule of names or of counts, in the tokens up to where the grammar
/// ends.
pub fn least_rule(alloc: Global, text: &[u8]) -> Result<Option<usize>, Memory>
    ensures { IfOk result (λ least. least ≡ rules_in (placed_tokens text.now)) }
{
    let mut opens = Opens::new(alloc);
    let mut seat = Seat::Want;
    let mut least = None;
    let mut cutter = Cutter::new(text);
    while let Some(placed) = cutter.next(alloc)? {
        match take_token(&mut opens, seat, placed)? {
            Taken::Stops => return Ok(least),
            Taken::Takes(place, next) => {
                least = lesser(least, place);
                seat = next;
            }
        }
    }
    Ok(least)
}
