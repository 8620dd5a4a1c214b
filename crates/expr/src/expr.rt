// An expression: a text with its tree.
ghost use Rattle.expr.specs.Reading.{tree_of_text};
ghost use Rattle.expr.specs.Trees.{tree_of};
ghost use Rattle.std.specs.Prelude.{◌≡◌, Some, IfOk};

use crate::Term;
use crate::term::copy_box;
use lists::{Bytes, Memory};
use std::alloc::{AllocError, Global};
use std::marker::Model;

/// An expression. Contracts see it as its text, which fixes the tree that it keeps.
#[derive(Drop)]
pub struct Expr {
    text: Bytes,
    term: Box<Term>,
}

impl Model for Expr {
    ghost use Rattle.expr.specs.Reading.{tree_of_text};
    ghost use Rattle.expr.specs.Trees.{tree_of};
    ghost use Rattle.std.specs.Prelude.{◌≡◌, List, Some, ℕ, box_value};

    ghost Value = { List ℕ };

    ghost view = { λ e. e.text };

    ghost invariant = { λ e. tree_of_text e.text ≡ Some (tree_of (box_value e.term)) };
}

impl Expr {
    /// A text with the tree that it is read as. The parser calls it.
    pub fn new(alloc: Global, text: Bytes, term: Term) -> Result<Self, Memory>
        requires tree { tree_of_text text ≡ Some (tree_of term) }
        ensures { IfOk result (λ e. e ≡ text) }
    {
        Ok(Expr {
            text,
            term: Box::new(alloc, term)?,
        })
    }

    /// The tree of the text.
    pub fn term(&self) -> &Term
        ensures { tree_of_text self.now ≡ Some (tree_of result.now) }
    {
        &self.term
    }

    /// The text, as it was read.
    pub fn text(&self) -> &[u8]
        ensures { result.now ≡ self.now }
    {
        self.text.as_slice()
    }
}

/// A copy is read from the same text.
impl Clone for Expr {
    ghost use Rattle.std.specs.Prelude.{◌≡◌};

    ghost is_clone = { λ e f. f ≡ e };

    fn clone(&self) -> Result<Self, AllocError> {
        Ok(Expr {
            text: self.text.clone()?,
            term: copy_box(&self.term)?,
        })
    }
}

/// Equal are those with the same text.
impl PartialEq for Expr {
    ghost use Rattle.std.specs.Prelude.{nat_eq};
    ghost use Rattle.std.specs.Cmp.{partial_equiv_from_equiv};
    ghost use Rattle.std.specs.Cmp.Lexicographic.{pointwise, nat_list_eq_equiv};

    ghost eq = { pointwise nat_eq };

    ghost laws = { partial_equiv_from_equiv nat_list_eq_equiv };

    fn eq(&self, other: &Self) -> bool {
        self.text == other.text
    }
}

impl Eq for Expr {
    ghost use Rattle.std.specs.Cmp.Lexicographic.{nat_list_eq_equiv};

    ghost laws = { nat_list_eq_equiv };
}
