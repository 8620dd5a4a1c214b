// The words `null`, `true` and `false`.
ghost use Rattle.std.specs.Prelude.{◌≡◌, ◌∷◌, [], MatchOption};
ghost use Rattle.json_text.specs.Steps.{rest_of, word_value, first_of};
ghost use Rattle.json_text.specs.Nodes.{kind_of};

use crate::Kind;

/// What is still to come of `null`, `true` or `false`.
#[derive(Clone, Copy, Debug, PartialEq, Eq)]
pub(crate) enum Word {
    Ull,
    Ll,
    L,
    Rue,
    Ue,
    TrueE,
    Alse,
    Lse,
    Se,
    FalseE,
}

impl Word {
    /// The next byte.
    pub(crate) fn first(self) -> u8
        ensures { result ≡ first_of self }
    {
        match self {
            Word::Ull | Word::Ue => b'u',
            Word::Ll | Word::L | Word::Lse => b'l',
            Word::Rue => b'r',
            Word::TrueE | Word::FalseE => b'e',
            Word::Alse => b'a',
            Word::Se => b's',
        }
    }

    /// What comes behind it, or None at the end.
    pub(crate) fn rest(self) -> Option<Self>
        ensures { MatchOption result (rest_of self ≡ first_of self ∷ [])
            (λ w. (rest_of self ≡ first_of self ∷ rest_of w) × (word_value w ≡ word_value self)) }
    {
        match self {
            Word::Ull => Some(Word::Ll),
            Word::Ll => Some(Word::L),
            Word::Rue => Some(Word::Ue),
            Word::Ue => Some(Word::TrueE),
            Word::Alse => Some(Word::Lse),
            Word::Lse => Some(Word::Se),
            Word::Se => Some(Word::FalseE),
            Word::L | Word::TrueE | Word::FalseE => None,
        }
    }

    pub(crate) fn kind(self) -> Kind
        ensures { result ≡ kind_of (word_value self) }
    {
        match self {
            Word::Ull | Word::Ll | Word::L => Kind::Null,
            _ => Kind::Bool,
        }
    }
}
