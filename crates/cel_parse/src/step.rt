// What one token does to the stack.
ghost use Rattle.std.specs.Prelude.{◌≡◌, ◌∷◌, ◌==◌, List, length, option_map, is_some, IfOk};
ghost use Rattle.expr.specs.Reading.{Frame as Layer, prefix, square, reduce, deepest, held, over, atom_of, callee_of, method_of, is_in, atom_or_callee, close_empty, minus_sign, step_want, step_enter, asked_of, close_round, close_square, next_item, other_branch, operate, begin_method, method_or_none, tested, step_have, step_dot, step, end_in, unless_asked};
ghost use Rattle.expr.specs.Tree.{list, more};
ghost use Rattle.expr.specs.Trees.{tree_of, trees_of};
ghost use Rattle.cel_parse.specs.Frames.{frame_of, open_in, state_of, Answers, Lays, Ends};
ghost use Rattle.cel_parse.specs.Tokens.{token_of};

use crate::frame::{Frame, Stack, rank, reduce};
use crate::token::Token;
use expr::{Function, Method, Operator, Sign, Source, Term};
use lists::{Bytes, Memory};
use std::alloc::{AllocError, AllocFailed, Global};

/// The most that may be open around a token.
const DEEPEST: usize = 32;

/// Why a token isn't taken.
#[derive(Clone, Copy)]
pub enum Refusal {
    Syntax,
    TooDeep,
    Memory,
}

impl From<AllocError> for Refusal {
    ghost use Rattle.cel_parse.specs.declared.step.Refusal.TheVariants as refusal;
    ghost use Rattle.std.specs.Prelude.{◌≡◌};

    ghost from_gives = { λ _ e. e ≡ refusal.Memory };

    fn from(_error: AllocError) -> Self {
        Refusal::Memory
    }
}

impl<T: Drop> From<AllocFailed<T>> for Refusal {
    ghost use Rattle.cel_parse.specs.declared.step.Refusal.TheVariants as refusal;
    ghost use Rattle.std.specs.Prelude.{◌≡◌};

    ghost from_gives = { λ _ e. e ≡ refusal.Memory };

    fn from(_error: AllocFailed<T>) -> Self {
        Refusal::Memory
    }
}

/// Where a reader of tokens stands, beside what is open.
#[derive(Drop)]
pub enum Place {
    /// An operand is to come.
    Want,
    /// `(` is to come, behind the name of a function.
    Enter(Frame),
    /// An operand is there.
    Have(Term),
    /// A name is to come, behind `.`.
    BehindDot(Term),
}

/// Opens one more, if that isn't too many.
fn over(stack: &mut Stack, frame: Frame) -> Result<Place, Refusal>
    ensures { Answers (open_in stack.new) (over deepest (frame_of frame) (open_in stack.old)) result }
{
    if stack.depth() >= DEEPEST {
        return Err(Refusal::TooDeep);
    }
    stack.push(frame)?;
    Ok(Place::Want)
}

/// The expression that a word is.
#[tactic(auto, unfolding(expr::specs::Reading::atom_of))]
fn atom(word: &[u8]) -> Option<Term>
    ensures { option_map tree_of result ≡ atom_of word.now }
{
    if word == b"true".as_slice() {
        Some(Term::Bool(true))
    } else if word == b"false".as_slice() {
        Some(Term::Bool(false))
    } else if word == b"null".as_slice() {
        Some(Term::Null)
    } else if word == b"event".as_slice() {
        Some(Term::Source(Source::Event))
    } else if word == b"async".as_slice() {
        Some(Term::Source(Source::Async))
    } else {
        None
    }
}

/// What the name of a function opens.
#[tactic(auto, unfolding(expr::specs::Reading::callee_of))]
fn callee(word: &[u8]) -> Option<Frame>
    ensures { option_map frame_of result ≡ callee_of word.now }
{
    if word == b"has".as_slice() {
        Some(Frame::Asked)
    } else if word == b"size".as_slice() {
        Some(Frame::Argument(Function::Size))
    } else if word == b"string".as_slice() {
        Some(Frame::Argument(Function::String))
    } else {
        None
    }
}

#[tactic(auto, unfolding(expr::specs::Reading::method_of))]
fn method_named(word: &[u8]) -> Option<Method>
    ensures { result ≡ method_of word.now }
{
    if word == b"startsWith".as_slice() {
        Some(Method::StartsWith)
    } else if word == b"endsWith".as_slice() {
        Some(Method::EndsWith)
    } else if word == b"contains".as_slice() {
        Some(Method::Contains)
    } else {
        None
    }
}

#[tactic(auto, unfolding(expr::specs::Reading::is_in))]
pub fn is_in(word: &[u8]) -> bool
    ensures { result ≡ is_in word.now }
{
    word == b"in".as_slice()
}

fn begin_word(word: &[u8]) -> Result<Place, Refusal>
    ensures { (fs : List Layer) →
        Answers fs (atom_or_callee fs (atom_of word.now) (callee_of word.now)) result }
{
    if let Some(term) = atom(word) {
        return Ok(Place::Have(term));
    }
    match callee(word) {
        Some(frame) => Ok(Place::Enter(frame)),
        None => Err(Refusal::Syntax),
    }
}

fn prefix(stack: &mut Stack, sign: Sign) -> Result<Place, Refusal>
    ensures { Answers (open_in stack.new)
        (unless_asked (open_in stack.old) (over deepest (prefix sign) (open_in stack.old))) result }
{
    if stack.is_asked() {
        return Err(Refusal::Syntax);
    }
    over(stack, Frame::Prefix(sign))
}

fn step_want(alloc: Global, stack: &mut Stack, token: Token) -> Result<Place, Refusal>
    ensures { Answers (open_in stack.new)
        (step_want deepest (open_in stack.old) (token_of token)) result }
{
    match token {
        Token::Number(units) => Ok(Place::Have(Term::Number(units))),
        Token::Quoted(text) => Ok(Place::Have(Term::Text(text))),
        Token::Word(word) => begin_word(word.as_slice()),
        Token::Operator(Operator::Minus) => prefix(stack, Sign::Minus),
        Token::Exclaim => prefix(stack, Sign::Not),
        Token::RoundOpen => over(stack, Frame::Round),
        Token::SquareOpen => over(stack, Frame::Square(Vec::new(alloc))),
        Token::SquareClose => close_empty(stack),
        _ => Err(Refusal::Syntax),
    }
}

fn close_empty(stack: &mut Stack) -> Result<Place, Refusal>
    ensures { Answers (open_in stack.new) (close_empty (open_in stack.old)) result }
{
    match stack.pop() {
        None => Err(Refusal::Syntax),
        Some(frame) => empty_list(frame),
    }
}

fn empty_list(frame: Frame) -> Result<Place, Refusal>
    ensures { (fs : List Layer) → Answers fs (close_empty (frame_of frame ∷ fs)) result }
{
    match frame {
        Frame::Square(items) => no_items(items),
        _ => Err(Refusal::Syntax),
    }
}

fn no_items(items: Vec<Term>) -> Result<Place, Refusal>
    ensures { (fs : List Layer) → Answers fs (close_empty (square (trees_of items.items) ∷ fs)) result }
{
    if is_none(items.as_slice()) {
        return Ok(Place::Have(list_of(items)));
    }
    Err(Refusal::Syntax)
}

fn is_none(items: &[Term]) -> bool
    ensures { result ≡ (length items.now == 0) }
{
    items.is_empty()
}

fn list_of(items: Vec<Term>) -> Term
    ensures { tree_of result ≡ list (trees_of items.items) }
{
    Term::List(items)
}

fn step_enter(stack: &mut Stack, frame: Frame, token: Token) -> Result<Place, Refusal>
    ensures { Answers (open_in stack.new)
        (step_enter deepest (open_in stack.old) (frame_of frame) (token_of token)) result }
{
    match token {
        Token::RoundOpen => over(stack, frame),
        _ => Err(Refusal::Syntax),
    }
}

fn asked(tree: Term) -> Result<Place, Refusal>
    ensures { (fs : List Layer) → Answers fs (asked_of fs (tree_of tree)) result }
{
    match tree {
        Term::Member(of, name) => Ok(Place::Have(Term::Has(of, name))),
        _ => Err(Refusal::Syntax),
    }
}

fn close_round_frame(alloc: Global, frame: Frame, tree: Term) -> Result<Place, Refusal>
    ensures { (fs : List Layer) → Answers fs (close_round (frame_of frame ∷ fs) (tree_of tree)) result }
{
    match frame {
        Frame::Round => Ok(Place::Have(Term::Group(Box::new(alloc, tree)?))),
        Frame::Asked => asked(tree),
        Frame::Argument(function) => Ok(Place::Have(Term::Call(function, Box::new(alloc, tree)?))),
        Frame::Behind(method, of) => {
            Ok(Place::Have(Term::Method(method, Box::new(alloc, of)?, Box::new(alloc, tree)?)))
        }
        _ => Err(Refusal::Syntax),
    }
}

fn close_square_frame(alloc: Global, frame: Frame, tree: Term) -> Result<Place, Refusal>
    ensures { (fs : List Layer) → Answers fs (close_square (frame_of frame ∷ fs) (tree_of tree)) result }
{
    match frame {
        Frame::Square(items) => Ok(Place::Have(Term::List(with_item(items, tree)?))),
        Frame::Place(of) => Ok(Place::Have(Term::Index(
            Box::new(alloc, of)?,
            Box::new(alloc, tree)?,
        ))),
        _ => Err(Refusal::Syntax),
    }
}

fn with_item(items: Vec<Term>, item: Term) -> Result<Vec<Term>, AllocError>
    ensures { IfOk result (λ v. trees_of v.items ≡ more (trees_of items.items) (tree_of item)) }
{
    let mut all = items;
    all.push(item)?;
    Ok(all)
}

fn next_item_frame(frame: Frame, tree: Term) -> Result<Frame, Refusal>
    ensures { (fs : List Layer) → Lays fs (next_item (frame_of frame ∷ fs) (tree_of tree)) result }
{
    match frame {
        Frame::Square(items) => Ok(Frame::Square(with_item(items, tree)?)),
        _ => Err(Refusal::Syntax),
    }
}

fn other_branch_frame(frame: Frame, tree: Term) -> Result<Frame, Refusal>
    ensures { (fs : List Layer) → Lays fs (other_branch (frame_of frame ∷ fs) (tree_of tree)) result }
{
    match frame {
        Frame::Test(test) => Ok(Frame::Either(test, tree)),
        _ => Err(Refusal::Syntax),
    }
}

fn close_round(alloc: Global, stack: &mut Stack, tree: Term) -> Result<Place, Refusal>
    ensures { Answers (open_in stack.new) (close_round (open_in stack.old) (tree_of tree)) result }
{
    match stack.pop() {
        None => Err(Refusal::Syntax),
        Some(frame) => close_round_frame(alloc, frame, tree),
    }
}

fn close_square(alloc: Global, stack: &mut Stack, tree: Term) -> Result<Place, Refusal>
    ensures { Answers (open_in stack.new) (close_square (open_in stack.old) (tree_of tree)) result }
{
    match stack.pop() {
        None => Err(Refusal::Syntax),
        Some(frame) => close_square_frame(alloc, frame, tree),
    }
}

fn next_item(stack: &mut Stack, tree: Term) -> Result<Place, Refusal>
    ensures { Answers (open_in stack.new) (next_item (open_in stack.old) (tree_of tree)) result }
{
    let Some(frame) = stack.pop() else {
        return Err(Refusal::Syntax);
    };
    match next_item_frame(frame, tree) {
        Ok(next) => {
            stack.push(next)?;
            Ok(Place::Want)
        }
        Err(fault) => Err(fault),
    }
}

fn other_branch(stack: &mut Stack, tree: Term) -> Result<Place, Refusal>
    ensures { Answers (open_in stack.new) (other_branch (open_in stack.old) (tree_of tree)) result }
{
    let Some(frame) = stack.pop() else {
        return Err(Refusal::Syntax);
    };
    match other_branch_frame(frame, tree) {
        Ok(next) => {
            stack.push(next)?;
            Ok(Place::Want)
        }
        Err(fault) => Err(fault),
    }
}

fn operate(
    alloc: Global,
    stack: &mut Stack,
    operator: Operator,
    tree: Term,
) -> Result<Place, Refusal>
    ensures { Answers (open_in stack.new)
        (operate operator (held (open_in stack.old) (tree_of tree))) result }
{
    if stack.is_asked() {
        return Err(Refusal::Syntax);
    }
    let left = reduce(alloc, stack, tree, rank(operator))?;
    stack.push(Frame::Left(operator, left))?;
    Ok(Place::Want)
}

fn question(alloc: Global, stack: &mut Stack, tree: Term) -> Result<Place, Refusal>
    ensures { Answers (open_in stack.new)
        (unless_asked (open_in stack.old)
        (tested deepest (reduce 1 (open_in stack.old) (tree_of tree)))) result }
{
    if stack.is_asked() {
        return Err(Refusal::Syntax);
    }
    let test = reduce(alloc, stack, tree, 1)?;
    over(stack, Frame::Test(test))
}

fn begin_method(stack: &mut Stack, tree: Term) -> Result<Place, Refusal>
    ensures { Answers (open_in stack.new)
        (begin_method deepest (open_in stack.old) (tree_of tree)) result }
{
    let Term::Member(of, name) = tree else {
        return Err(Refusal::Syntax);
    };
    match method_named(name.as_slice()) {
        Some(method) => over(stack, Frame::Behind(method, Box::into_inner(of))),
        None => Err(Refusal::Syntax),
    }
}

fn step_have(alloc: Global, stack: &mut Stack, tree: Term, token: Token) -> Result<Place, Refusal>
    ensures { Answers (open_in stack.new)
        (step_have deepest (held (open_in stack.old) (tree_of tree)) (token_of token)) result }
{
    match token {
        Token::Operator(operator) => operate(alloc, stack, operator, tree),
        Token::Word(word) => {
            if !is_in(word.as_slice()) {
                return Err(Refusal::Syntax);
            }
            operate(alloc, stack, Operator::In, tree)
        }
        Token::RoundOpen => begin_method(stack, tree),
        Token::RoundClose => {
            let inside = reduce(alloc, stack, tree, 0)?;
            close_round(alloc, stack, inside)
        }
        Token::SquareOpen => over(stack, Frame::Place(tree)),
        Token::SquareClose => {
            let inside = reduce(alloc, stack, tree, 0)?;
            close_square(alloc, stack, inside)
        }
        Token::Dot => Ok(Place::BehindDot(tree)),
        Token::Comma => {
            let inside = reduce(alloc, stack, tree, 0)?;
            next_item(stack, inside)
        }
        Token::Question => question(alloc, stack, tree),
        Token::Colon => {
            let inside = reduce(alloc, stack, tree, 0)?;
            other_branch(stack, inside)
        }
        _ => Err(Refusal::Syntax),
    }
}

fn step_dot(alloc: Global, tree: Term, token: Token) -> Result<Place, Refusal>
    ensures { (fs : List Layer) →
        Answers fs (step_dot (held fs (tree_of tree)) (token_of token)) result }
{
    match token {
        Token::Word(name) => Ok(Place::Have(Term::Member(Box::new(alloc, tree)?, name))),
        _ => Err(Refusal::Syntax),
    }
}

/// Takes a token.
pub fn step(alloc: Global, stack: &mut Stack, place: Place, token: Token) -> Result<Place, Refusal>
    ensures { Answers (open_in stack.new)
        (step deepest (state_of (open_in stack.old) place) (token_of token)) result }
{
    match place {
        Place::Want => step_want(alloc, stack, token),
        Place::Enter(frame) => step_enter(stack, frame, token),
        Place::Have(tree) => step_have(alloc, stack, tree, token),
        Place::BehindDot(tree) => step_dot(alloc, tree, token),
    }
}

/// The whole tree, where nothing is open.
pub fn finish(alloc: Global, stack: &mut Stack, place: Place) -> Result<Term, Refusal>
    ensures { Ends (end_in (state_of (open_in stack.old) place)) result }
{
    match place {
        Place::Have(tree) => {
            let whole = reduce(alloc, stack, tree, 0)?;
            match stack.pop() {
                None => Ok(whole),
                Some(_) => Err(Refusal::Syntax),
            }
        }
        _ => Err(Refusal::Syntax),
    }
}

pub fn is_atom(word: &[u8]) -> bool
    ensures { result ≡ is_some (atom_of word.now) }
{
    atom(word).is_some()
}

pub fn is_callee(word: &[u8]) -> bool
    ensures { result ≡ is_some (callee_of word.now) }
{
    callee(word).is_some()
}

pub fn is_method(word: &[u8]) -> bool
    ensures { result ≡ is_some (method_of word.now) }
{
    method_named(word).is_some()
}
