//! Expressions as they are kept: a text and the tree that it is read as. Stands on `lists` and `text_num`, and
//! promises that every contract above sees an expression as its text, which fixes its tree.
#![tactic(auto)]

mod expr;
mod term;

pub use expr::Expr;
pub use term::{Function, Method, Operator, Sign, Source, Term};
