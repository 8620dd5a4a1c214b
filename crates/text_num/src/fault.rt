// Why a text gives no number.
use std::fmt;

/// Why a text gives no number.
#[derive(Clone, Copy, Debug, PartialEq, Eq)]
pub enum NumFault {
    /// The text is outside the grammar.
    NotANumber,
    /// The text is in the grammar, and its number is outside the range.
    OutOfRange,
}

impl fmt::Display for NumFault {
    fn fmt<W: fmt::Write>(&self, f: &mut fmt::Formatter<W>) -> fmt::Result {
        match self {
            NumFault::NotANumber => f.write_str("not a number"),
            NumFault::OutOfRange => f.write_str("out of range"),
        }
    }
}
