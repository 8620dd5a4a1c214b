//! Laws of the definitions, for the layers above.
ghost use Rattle.std.specs.Prelude.{◌≡◌, ℕ, List};
ghost use Rattle.text_num.specs.JsonNumber.{JsonNumber, IsJsonNumber};
ghost use Rattle.text_num.specs.Units.{units_of, units_of_number};

/// A text that a number writes has the units of the number.
pub fn units_of_a_number()
    ensures { (text : List ℕ) (number : JsonNumber) → IsJsonNumber text number
        → units_of text ≡ units_of_number number }
{}
