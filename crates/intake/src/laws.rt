//! Laws of the definitions, for their readers.
ghost use Rattle.std.specs.Prelude.{◌≡◌, List, ℕ};
ghost use Rattle.json_text.specs.Lexical.{IsString};
ghost use Rattle.json_text.specs.Text.{quoted, unescaped};
ghost use Rattle.intake.specs.Plain.{HasNoEscape};

/// A name or an id that is spelled without escapes goes on as it is spelled.
pub fn plain_texts_stay()
    ensures { (spelling : List ℕ) → IsString spelling → HasNoEscape spelling
        → quoted (unescaped spelling) ≡ spelling }
{}
