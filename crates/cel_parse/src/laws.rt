// Laws of the grammar: one tree a text, and where its faults are.
ghost use Rattle.std.specs.Prelude.{◌≡◌, ◌⊎◌, [], List, length, ℕ, Some, Ok, Err};
ghost use Rattle.expr.specs.Reading.{want, tree_of_text};
ghost use Rattle.expr.specs.Tokens.{placed_tokens};
ghost use Rattle.expr.specs.Tree.{Tree};
ghost use Rattle.cel_parse.specs.declared.fault.ParseFault.TheVariants.{Syntax, TooDeep};
ghost use Rattle.cel_parse.specs.Faults.{walk, parse_text};
ghost use Rattle.cel_parse.specs.Grammar.{IsExpression};
ghost use Rattle.cel_parse.specs.Places.{StopsAt, EndsEarly, IsDeepAt};

/// A text that the grammar spells is read as its tree, and what is read is spelled, so that a text has at
/// most one tree.
pub fn exact()
    ensures spelled { (w : List ℕ) (t : Tree) → IsExpression w t → tree_of_text w ≡ Some t }
    ensures read { (w : List ℕ) (t : Tree) → tree_of_text w ≡ Some t → IsExpression w t }
    ensures one { (w : List ℕ) (t u : Tree) → IsExpression w t → IsExpression w u → t ≡ u }
{}

/// A text is parsed exactly where it is an expression.
pub fn parsed()
    ensures ok { (w : List ℕ) (t : Tree) → IsExpression w t → parse_text w ≡ Ok w }
    ensures tree { (w : List ℕ) → parse_text w ≡ Ok w → (t : Tree) × IsExpression w t }
{}

/// The faults of the walk are told by the grammar: Syntax is at the first token with which no expression goes
/// on, however deep, or at the length where the text is the beginning of one alone; TooDeep is at a token with
/// which some expression goes on, but none within the limit. The fault of a text is the walk's, or Syntax at the
/// lesser place of a name that breaks a rule.
pub fn places()
    ensures syntax { (text : List ℕ) (place : ℕ)
        → walk (length text) (want []) (placed_tokens text) ≡ Err (Syntax place)
        → StopsAt (length text) (placed_tokens text) place
        ⊎ ((place ≡ length text) × EndsEarly (placed_tokens text)) }
    ensures deep { (text : List ℕ) (place : ℕ)
        → walk (length text) (want []) (placed_tokens text) ≡ Err (TooDeep place)
        → IsDeepAt (placed_tokens text) place }
{}
