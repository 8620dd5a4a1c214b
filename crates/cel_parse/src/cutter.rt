// A text is cut into tokens.
ghost use Rattle.std.specs.Prelude.{◌≡◌, ◌∷◌, ◌<◌, [], length, ℕ, List, IfOk, MatchOption};
ghost use Rattle.expr.specs.Tokens.{Placed as PlacedToken, behind_number, behind_spaces, cut, cut_at, cut_number, cut_sign, two, without_zeros, begins_name, goes_on_name, name_front, behind_name, is_space, placed_at};
ghost use Rattle.cel_parse.specs.Strings.{token_at};
ghost use Rattle.cel_parse.specs.Tokens.{token_of, zero_before, IsNext};

use crate::quoted::{End, read_string};
use crate::token::{Placed, Token};
use expr::Operator;
use lists::{Bytes, Memory};
use std::alloc::Global;
use text_num::{read_units, split_digits, split_fraction};

/// What is left of a text of `whole` bytes, which gives a token at a time.
#[derive(Drop)]
pub struct Cutter<'a> {
    whole: usize,
    rest: &'a [u8],
}

impl<'a> Cutter<'a> {
    pub fn new(text: &'a [u8]) -> Self
        ensures whole { result.whole ≡ length text.now }
        ensures rest { result.rest.now ≡ text.now }
    {
        Cutter {
            whole: text.len(),
            rest: text,
        }
    }

    /// The next token, behind spaces.
    pub fn next(&mut self, alloc: Global) -> Result<Option<Placed>, Memory>
        ensures whole { self.new.whole ≡ self.old.whole }
        ensures next { IfOk result (λ next. MatchOption next
            ((on : List ℕ → List PlacedToken) →
            placed_at self.old.whole (behind_spaces self.old.rest.now) on ≡ [])
            (λ p. IsNext self.old.whole self.old.rest.now p self.new.rest.now)) }
    {
        let bytes = behind_spaces(self.rest);
        let Some(first) = bytes.first() else {
            return Ok(None);
        };
        let start = self.whole.saturating_sub(bytes.len());
        let token = self.cut(alloc, *first, bytes)?;
        Ok(Some(Placed { start, token }))
    }

    /// The token at the front of the bytes, of which this is the first.
    fn cut(&mut self, alloc: Global, first: u8, bytes: &'a [u8]) -> Result<Token, Memory>
        requires { (cs : List ℕ) × (bytes.now ≡ first ∷ cs) }
        ensures whole { self.new.whole ≡ self.old.whole }
        ensures cut { (cs : List ℕ) → bytes.now ≡ first ∷ cs →
            IfOk result (λ t. cut_at first cs ≡ cut (token_of t) self.new.rest.now) }
    {
        if first.is_ascii_digit() {
            let (token, rest) = cut_number(bytes);
            self.rest = rest;
            return Ok(token);
        }
        if begins_name(first) {
            let (name, rest) = split_name(bytes);
            self.rest = rest;
            return Ok(Token::Word(Bytes::from_slice(alloc, name)?));
        }
        if first == b'"' || first == b'\'' {
            let mut value = Bytes::new(alloc);
            let (end, rest) = read_string(&mut value, first, &bytes[1..])?;
            self.rest = rest;
            return Ok(string_token(end, value));
        }
        let (token, rest) = cut_sign(first, &bytes[1..]);
        self.rest = rest;
        Ok(token)
    }
}

fn string_token(end: End, value: Bytes) -> Token
    ensures { token_of result ≡ token_at end value }
{
    match end {
        End::Closed => Token::Quoted(value),
        End::Wrong => Token::Wrong,
        End::Unclosed => Token::Unclosed,
    }
}

fn is_space(byte: u8) -> bool
    ensures { result ≡ is_space byte }
{
    byte == b' ' || byte == b'\t' || byte == b'\n' || byte == b'\r'
}

fn behind_spaces(bytes: &[u8]) -> &[u8]
    ensures { result.now ≡ behind_spaces bytes.now }
{
    let mut rest = bytes;
    while let Some(first) = rest.first() {
        if !is_space(*first) {
            break;
        }
        rest = &rest[1..];
    }
    rest
}

fn begins_name(byte: u8) -> bool
    ensures { result ≡ begins_name byte }
{
    byte.is_ascii_alphabetic() || byte == b'_'
}

fn goes_on_name(byte: u8) -> bool
    ensures { result ≡ goes_on_name byte }
{
    begins_name(byte) || byte.is_ascii_digit()
}

/// The name at the front of the bytes, and what follows it.
fn split_name(bytes: &[u8]) -> (&[u8], &[u8])
    ensures name { result.0.now ≡ name_front bytes.now }
    ensures rest { result.1.now ≡ behind_name bytes.now }
{
    bytes.split_at(name_length(bytes))
}

fn name_length(bytes: &[u8]) -> usize
    ensures { result ≡ length (name_front bytes.now) }
{
    let end = bytes.iter().position(|byte| !goes_on_name(*byte));
    end.unwrap_or(bytes.len())
}

fn behind_number(bytes: &[u8]) -> &[u8]
    ensures { result.now ≡ behind_number bytes.now }
{
    let (_, after) = split_digits(bytes);
    match split_fraction(after) {
        Some((_, rest)) => rest,
        None => after,
    }
}

fn without_zeros(bytes: &[u8]) -> &[u8]
    ensures { result.now ≡ without_zeros bytes.now }
{
    let mut rest = bytes;
    while zero_before(rest) {
        rest = &rest[1..];
    }
    rest
}

/// Whether a digit follows a zero at the front.
fn zero_before(bytes: &[u8]) -> bool
    ensures { result ≡ zero_before bytes.now }
{
    bytes.len() > 1 && bytes[0] == b'0' && bytes[1].is_ascii_digit()
}

/// The number at the front of the bytes, and what follows it.
fn cut_number(bytes: &[u8]) -> (Token, &[u8])
    ensures { cut (token_of result.0) result.1.now ≡ cut_number bytes.now (behind_number bytes.now) }
{
    let rest = behind_number(bytes);
    let length = bytes.len().saturating_sub(rest.len());
    match read_units(without_zeros(&bytes[..length])) {
        Ok(units) => (Token::Number(units), rest),
        Err(_) => (Token::Wrong, rest),
    }
}

/// A sign of two bytes, or of one where the second isn't there.
fn two(second: u8, both: Token, one: Token, rest: &[u8]) -> (Token, &[u8])
    requires { 0 < second }
    ensures { cut (token_of result.0) result.1.now ≡
        two second (token_of both) (token_of one) rest.now }
{
    if rest.first() == Some(&second) {
        return (both, &rest[1..]);
    }
    (one, rest)
}

/// The sign that begins with this byte, and what follows it.
fn cut_sign(first: u8, rest: &[u8]) -> (Token, &[u8])
    ensures { cut (token_of result.0) result.1.now ≡ cut_sign first rest.now }
{
    match first {
        b'(' => (Token::RoundOpen, rest),
        b')' => (Token::RoundClose, rest),
        b'[' => (Token::SquareOpen, rest),
        b']' => (Token::SquareClose, rest),
        b'.' => (Token::Dot, rest),
        b',' => (Token::Comma, rest),
        b'?' => (Token::Question, rest),
        b':' => (Token::Colon, rest),
        b'+' => (Token::Operator(Operator::Plus), rest),
        b'-' => (Token::Operator(Operator::Minus), rest),
        b'*' => (Token::Operator(Operator::Times), rest),
        b'/' => (Token::Operator(Operator::Divide), rest),
        b'%' => (Token::Operator(Operator::Remainder), rest),
        b'<' => two(
            b'=',
            Token::Operator(Operator::LessOrEqual),
            Token::Operator(Operator::Less),
            rest,
        ),
        b'>' => two(
            b'=',
            Token::Operator(Operator::GreaterOrEqual),
            Token::Operator(Operator::Greater),
            rest,
        ),
        b'!' => two(
            b'=',
            Token::Operator(Operator::NotEqual),
            Token::Exclaim,
            rest,
        ),
        b'=' => two(b'=', Token::Operator(Operator::Equal), Token::Wrong, rest),
        b'&' => two(b'&', Token::Operator(Operator::And), Token::Wrong, rest),
        b'|' => two(b'|', Token::Operator(Operator::Or), Token::Wrong, rest),
        _ => (Token::Wrong, rest),
    }
}
