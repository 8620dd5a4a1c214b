// The value of an expression as callers see it.
use lists::Bytes;

/// What an expression is worth. Lists and objects carry nothing, since no caller looks into them.
#[derive(Drop)]
pub enum Value {
    /// `null`.
    Null,
    /// `true` or `false`.
    Bool(bool),
    /// A multiple of 10^-18, below 10^38 in absolute value.
    Number(i128),
    /// A text, its escapes undone.
    Text(Bytes),
    /// A list, whatever is in it.
    List,
    /// An object, whatever is in it.
    Object,
}
