// Which part of a list or an object is to come.
ghost use Rattle.std.specs.Prelude.{◌≡◌};
ghost use Rattle.json_text.specs.Bytes.{is_space};
ghost use Rattle.json_text.specs.Entries.{turn_of};
ghost use Rattle.json_text.specs.Grammar.{following, parts_at};
ghost use Rattle.json_text.specs.Automaton.{closes, takes_values};

use crate::bracket::Turn;

impl Turn {
    /// The turn behind a part.
    pub(crate) fn following(self) -> Self
        ensures { turn_of result ≡ following (turn_of self) }
    {
        match self {
            Turn::Whole | Turn::Nothing => Turn::Nothing,
            Turn::Element => Turn::Element,
            Turn::Name => Turn::Member,
            Turn::Member => Turn::Name,
        }
    }

    pub(crate) fn closes(self, byte: u8) -> bool
        ensures { result ≡ closes (turn_of self) byte }
    {
        match self {
            Turn::Element => byte == b']',
            Turn::Name => byte == b'}',
            Turn::Whole | Turn::Nothing | Turn::Member => false,
        }
    }

    /// Whether the byte stands between the part before and this one.
    pub(crate) fn separates(self, byte: u8) -> bool
        ensures { result ≡ parts_at (turn_of self) byte }
    {
        match self {
            Turn::Element | Turn::Name => byte == b',',
            Turn::Member => byte == b':',
            Turn::Whole | Turn::Nothing => false,
        }
    }

    /// Whether any value may come: for a name, only a text.
    pub(crate) fn takes_values(self) -> bool
        ensures { result ≡ takes_values (turn_of self) }
    {
        matches!(self, Turn::Whole | Turn::Element | Turn::Member)
    }
}

pub(crate) fn is_space(byte: u8) -> bool
    ensures { result ≡ is_space byte }
{
    byte == b' ' || byte == b'\t' || byte == b'\n' || byte == b'\r'
}
