//! Laws of the grammar, for the layers above.
ghost use Rattle.std.specs.Prelude.{◌≡◌, ◌↔◌, List, ℕ, Some, Err};
ghost use Rattle.json_text.specs.Equality.{AreEqual};
ghost use Rattle.json_text.specs.Grammar.{Json, IsText};
ghost use Rattle.json_text.specs.Lexical.{IsNumber};
ghost use Rattle.json_text.specs.Same.{canonical, comparison};
ghost use Rattle.json_text.specs.declared.comparison.Comparison.TheVariants.{Equal};
ghost use Rattle.text_num.specs.Units.{units_of};
ghost use Rattle.text_num.specs.declared.fault.NumFault.TheVariants.{NotANumber};

/// A text spells one value, however deep it nests.
pub fn one_value()
    ensures { (w : List ℕ) (i j : Json) → IsText w i → IsText w j → i ≡ j }
{}

/// What this grammar takes for a number is one to whoever reads its units: they are known, or out of range.
pub fn numbers_are_numbers()
    ensures { (w : List ℕ) → IsNumber w → units_of w ≡ Err NotANumber → ⊥ }
{
    text_num::units_of_a_number();
}

/// Two values that have canonical texts have the same one exactly where they are equal part by part, and
/// `Tree::compare` answers `Equal` exactly where they are.
pub fn equal_values_have_equal_texts()
    ensures texts { (a b : Json) (v w : List ℕ) → canonical a ≡ Some v → canonical b ≡ Some w
        → (v ≡ w) ↔ AreEqual a b }
    ensures compared { (a b : Json) → (comparison a b ≡ Equal) ↔ AreEqual a b }
{}
