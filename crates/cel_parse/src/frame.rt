// The stack of what is open while tokens are read.
ghost use Rattle.std.specs.Prelude.{◌≡◌, ◌∷◌, ◌<◌, [], List, length, OnOk, IfOk, MatchOption};
ghost use Rattle.expr.specs.Reading.{Frame as Layer, is_asked, rank_of, reduce, held, opens};
ghost use Rattle.expr.specs.Trees.{tree_of};
ghost use Rattle.cel_parse.specs.Frames.{frame_of, open_in, weight_of, goes_on};

use expr::{Function, Method, Operator, Sign, Term};
use std::alloc::{AllocError, Global};

/// What is open, of which an operand is to come.
#[derive(Drop)]
pub enum Frame {
    /// `a +`.
    Left(Operator, Term),
    /// `!`, `-`.
    Prefix(Sign),
    /// `c ?`.
    Test(Term),
    /// `c ? a :`.
    Either(Term, Term),
    /// `(`.
    Round,
    /// `[ a ,`.
    Square(Vec<Term>),
    /// `a [`.
    Place(Term),
    /// `has (`.
    Asked,
    /// `size (`, `string (`.
    Argument(Function),
    /// `a . startsWith (`.
    Behind(Method, Term),
}

impl Frame {
    fn is_asked(&self) -> bool
        ensures { result ≡ is_asked (frame_of self.now ∷ []) }
    {
        matches!(self, Frame::Asked)
    }
}

/// Whether a frame and a tree were put together.
#[derive(Drop)]
pub enum Joined {
    Whole(Term),
    Apart(Frame, Term),
}

pub fn rank(operator: Operator) -> u8
    ensures { result ≡ rank_of operator }
{
    match operator {
        Operator::Or => 1,
        Operator::And => 2,
        Operator::Less
        | Operator::LessOrEqual
        | Operator::Greater
        | Operator::GreaterOrEqual
        | Operator::Equal
        | Operator::NotEqual
        | Operator::In => 3,
        Operator::Plus | Operator::Minus => 4,
        Operator::Times | Operator::Divide | Operator::Remainder => 5,
    }
}

/// How many the frame counts in the depth.
fn weight(frame: &Frame) -> usize
    ensures { result ≡ weight_of frame.now }
{
    match frame {
        Frame::Left(_, _) => 0,
        _ => 1,
    }
}

/// What is open, the innermost last.
#[derive(Drop)]
pub struct Stack {
    frames: Vec<Frame>,
}

impl Stack {
    pub fn new(alloc: Global) -> Self
        ensures { open_in result ≡ [] }
    {
        Stack {
            frames: Vec::new(alloc),
        }
    }

    /// How many are open that count in the depth.
    pub fn depth(&self) -> usize
        ensures { result ≡ opens (open_in self.now) }
    {
        let mut depth = 0;
        for frame in &self.frames {
            depth += weight(frame);
        }
        depth
    }

    pub fn push(&mut self, frame: Frame) -> Result<(), AllocError>
        ensures { OnOk result (open_in self.new ≡ frame_of frame ∷ open_in self.old) }
    {
        self.frames.push(frame)?;
        Ok(())
    }

    pub fn pop(&mut self) -> Option<Frame>
        ensures top { MatchOption result ((open_in self.old ≡ []) × (open_in self.new ≡ []))
            (λ f. open_in self.old ≡ frame_of f ∷ open_in self.new) }
        ensures fewer { MatchOption result (length (open_in self.new) ≡ 0)
            (λ f. length (open_in self.new) < length (open_in self.old)) }
    {
        self.frames.pop()
    }

    /// Whether `has (` is on top.
    pub fn is_asked(&self) -> bool
        ensures { result ≡ is_asked (open_in self.now) }
    {
        match self.frames.last() {
            Some(frame) => frame.is_asked(),
            None => false,
        }
    }
}

fn join(alloc: Global, frame: Frame, tree: Term, least: u8) -> Result<Joined, AllocError>
    ensures { IfOk result (λ j. (fs : List Layer) →
        reduce least (frame_of frame ∷ fs) (tree_of tree) ≡ goes_on least fs j) }
{
    match frame {
        Frame::Left(operator, left) => {
            if rank(operator) < least {
                return Ok(Joined::Apart(Frame::Left(operator, left), tree));
            }
            Ok(Joined::Whole(Term::Binary(
                operator,
                Box::new(alloc, left)?,
                Box::new(alloc, tree)?,
            )))
        }
        Frame::Prefix(sign) => {
            if 6 < least {
                return Ok(Joined::Apart(Frame::Prefix(sign), tree));
            }
            Ok(Joined::Whole(Term::Unary(sign, Box::new(alloc, tree)?)))
        }
        Frame::Either(test, chosen) => {
            if 0 < least {
                return Ok(Joined::Apart(Frame::Either(test, chosen), tree));
            }
            Ok(Joined::Whole(Term::Choice(
                Box::new(alloc, test)?,
                Box::new(alloc, chosen)?,
                Box::new(alloc, tree)?,
            )))
        }
        other => Ok(Joined::Apart(other, tree)),
    }
}

/// Puts together what binds at least as strong.
pub fn reduce(alloc: Global, stack: &mut Stack, tree: Term, least: u8) -> Result<Term, AllocError>
    ensures { IfOk result (λ t.
        held (open_in stack.new) (tree_of t) ≡ reduce least (open_in stack.old) (tree_of tree)) }
{
    let mut whole = tree;
    while let Some(frame) = stack.pop() {
        match join(alloc, frame, whole, least)? {
            Joined::Whole(tree) => whole = tree,
            Joined::Apart(frame, tree) => {
                stack.push(frame)?;
                return Ok(tree);
            }
        }
    }
    Ok(whole)
}
