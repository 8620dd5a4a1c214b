// Tokens.
use expr::Operator;
use lists::Bytes;

/// A token of a text.
#[derive(Drop)]
pub enum Token {
    /// In units of 10^-18.
    Number(i128),
    /// A string by its value.
    Quoted(Bytes),
    /// A name or a word of the grammar.
    Word(Bytes),
    Operator(Operator),
    Exclaim,
    RoundOpen,
    RoundClose,
    SquareOpen,
    SquareClose,
    Dot,
    Comma,
    Question,
    Colon,
    /// What begins no token, or a number or a string that isn't allowed.
    Wrong,
    /// A string that isn't closed.
    Unclosed,
}

/// A token and the place where it begins.
#[derive(Drop)]
pub struct Placed {
    pub start: usize,
    pub token: Token,
}
