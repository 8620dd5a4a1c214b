// The public call: a text as an expression, or its first fault.
ghost use Rattle.std.specs.Prelude.{◌≡◌, ◌⊎◌, ℕ, List, [], length, Option, Some};
ghost use Rattle.lists.specs.Starved.{OrStarved};
ghost use Rattle.expr.specs.Tokens.{placed_tokens};
ghost use Rattle.expr.specs.Reading.{Frame as Layer, want, tree_of_text};
ghost use Rattle.expr.specs.Trees.{tree_of};
ghost use Rattle.cel_parse.specs.declared.fault.ParseFault.TheVariants.{Memory};
ghost use Rattle.cel_parse.specs.Faults.{walk, unclosed_or, refused_place, place_of, settle_fault, parse_text};
ghost use Rattle.cel_parse.specs.Frames.{state_of};
ghost use Rattle.cel_parse.specs.Rules.{rules_in};
ghost use Rattle.cel_parse.specs.Tokens.{placed_of, token_of};
ghost use Rattle.cel_parse.specs.Walked.{Walked, IsWhole};

use crate::cutter::Cutter;
use crate::fault::ParseFault;
use crate::frame::Stack;
use crate::rules::least_rule;
use crate::step::{Place, Refusal, finish, step};
use crate::token::{Placed, Token};
use expr::{Expr, Term};
use lists::Bytes;
use std::alloc::Global;

/// The longest text of an expression, in bytes.
const LONGEST: usize = 1024;

/// Reads an expression: its text and its tree, exactly where there is one. TooLong comes exactly over 1,024
/// bytes; any other fault is that of the first token that isn't taken, or a Syntax at the lesser place of a name
/// that breaks a rule.
pub fn parse(alloc: Global, text: &[u8]) -> Result<Expr, ParseFault>
    ensures { OrStarved Memory (parse_text text.now) result }
{
    if text.len() > LONGEST {
        return Err(ParseFault::TooLong);
    }
    match walk(alloc, text) {
        Ok(term) => whole(alloc, text, term),
        Err(fault) => Err(fault_of(alloc, text, fault)),
    }
}

/// The text with its tree.
fn whole(alloc: Global, text: &[u8], term: Term) -> Result<Expr, ParseFault>
    requires { tree_of_text text.now ≡ Some (tree_of term) }
    ensures { IsWhole text.now result }
{
    match Bytes::from_slice(alloc, text) {
        Ok(copy) => Expr::new(alloc, copy, term).map_err(|_| ParseFault::Memory),
        Err(_) => Err(ParseFault::Memory),
    }
}

/// The fault with the lesser place, of that of the first token that isn't taken and the rules on names and
/// counts.
fn fault_of(alloc: Global, text: &[u8], first: ParseFault) -> ParseFault
    ensures { (settle_fault first (rules_in (placed_tokens text.now)) ≡ result) ⊎ (result ≡ Memory) }
{
    match least_rule(alloc, text) {
        Ok(rule) => settle(first, rule),
        Err(_) => ParseFault::Memory,
    }
}

fn settle(fault: ParseFault, rule: Option<usize>) -> ParseFault
    ensures { result ≡ settle_fault fault rule }
{
    let Some(place) = rule else {
        return fault;
    };
    let at = place as u64;
    if at < place_of(fault) {
        return ParseFault::Syntax { at };
    }
    fault
}

fn place_of(fault: ParseFault) -> u64
    ensures { result ≡ place_of fault }
{
    match fault {
        ParseFault::Syntax { at } => at,
        ParseFault::TooDeep { at } => at,
        _ => 0,
    }
}

/// The tree of a text, or the first token that isn't taken.
fn walk(alloc: Global, text: &[u8]) -> Result<Term, ParseFault>
    ensures { Walked (walk (length text.now) (want []) (placed_tokens text.now)) result }
{
    let mut stack = Stack::new(alloc);
    let mut place = Place::Want;
    let mut cutter = Cutter::new(text);
    while let Some(placed) = cutter.next(alloc)? {
        let at = refused_place(text.len(), &place, &placed);
        let start = placed.start;
        place = match step(alloc, &mut stack, place, placed.token) {
            Ok(next) => next,
            Err(Refusal::Syntax) => return Err(ParseFault::Syntax { at: at as u64 }),
            Err(Refusal::TooDeep) => return Err(ParseFault::TooDeep { at: start as u64 }),
            Err(Refusal::Memory) => return Err(ParseFault::Memory),
        };
    }
    match finish(alloc, &mut stack, place) {
        Ok(term) => Ok(term),
        Err(Refusal::Memory) => Err(ParseFault::Memory),
        Err(_) => Err(ParseFault::Syntax {
            at: text.len() as u64,
        }),
    }
}

/// Where the fault is if the token isn't taken: at the end for a string that may stand there and isn't
/// closed.
fn refused_place(whole: usize, place: &Place, placed: &Placed) -> usize
    ensures { (fs : List Layer) →
        result ≡ refused_place whole (state_of fs place.now) (placed_of placed.now) }
{
    match place {
        Place::Want => unclosed_or(whole, placed),
        _ => placed.start,
    }
}

fn unclosed_or(whole: usize, placed: &Placed) -> usize
    ensures { result ≡ unclosed_or whole placed.now.start (token_of placed.now.token) }
{
    match &placed.token {
        Token::Unclosed => whole,
        _ => placed.start,
    }
}
