// What a part of an expression is worth, while it is evaluated.
ghost use Rattle.std.specs.Prelude.{◌≡◌, Ok};
ghost use Rattle.std.specs.Option.{option_copied};
ghost use Rattle.json_text.specs.Nodes.{kind_of};
ghost use Rattle.json_text.specs.Text.{text_of};
ghost use Rattle.json_text.specs.declared.kind.Kind.TheVariants as kind;
ghost use Rattle.cel_eval.specs.Data.{of_json, of_found, text};
ghost use Rattle.cel_eval.specs.Operands.{datum_of, Gives};
ghost use Rattle.cel_eval.specs.Operations.{number_in, text_in, truth_of};

use crate::EvalFault;
use crate::part::Part;
use crate::text::plain;
use crate::units::Units;
use json_text::Kind;
use lists::Bytes;

/// What a part of an expression is worth. What an event's text holds stays in its place, but for a text with
/// escapes.
#[derive(Drop)]
pub(crate) enum Operand<'t, 'a> {
    Null,
    Bool(bool),
    Number(Units),
    /// A text of the expression, or one of an event without escapes.
    Text(&'t [u8]),
    /// A text that was put together, or whose escapes were read.
    Made(Bytes),
    List(Part<'t, 'a>),
    Object(Part<'t, 'a>),
    /// A list that the expression writes out.
    Written(Vec<Operand<'t, 'a>>),
}

impl<'t, 'a> Operand<'t, 'a> {
    /// What a value of an event's text is worth.
    pub(crate) fn of(part: Part<'t, 'a>) -> Result<Operand<'t, 'a>, EvalFault>
        ensures { Gives (of_json part.entry) result }
    {
        match part.kind() {
            Kind::Null => Ok(Operand::Null),
            Kind::Bool => Ok(Operand::Bool(part.is_true())),
            Kind::Number => Ok(Operand::Number(part.units()?)),
            Kind::Text => Operand::string(&part),
            Kind::List => Ok(Operand::List(part)),
            Kind::Object => Ok(Operand::Object(part)),
        }
    }

    fn string(part: &Part<'t, 'a>) -> Result<Operand<'t, 'a>, EvalFault>
        requires { kind_of part.now ≡ kind.Text }
        ensures { Gives (Ok (text (text_of part.now))) result }
    {
        match plain(part.spelling()) {
            Some(text) => Ok(Operand::Text(text)),
            None => Ok(Operand::Made(part.unescaped()?)),
        }
    }

    /// The same of one that may be absent.
    pub(crate) fn found(part: Option<Part<'t, 'a>>) -> Result<Operand<'t, 'a>, EvalFault>
        ensures { Gives (of_found part.entry) result }
    {
        match part {
            Some(part) => Operand::of(part),
            None => Err(EvalFault::NoField),
        }
    }

    pub(crate) fn number(&self) -> Option<Units>
        ensures { result ≡ number_in (datum_of self.now) }
    {
        match self {
            Operand::Number(units) => Some(*units),
            _ => None,
        }
    }

    pub(crate) fn text(&self) -> Option<&[u8]>
        ensures { option_copied result ≡ text_in (datum_of self.now) }
    {
        match self {
            Operand::Text(text) => Some(text),
            Operand::Made(text) => Some(text.as_slice()),
            _ => None,
        }
    }

    pub(crate) fn truth(&self) -> Result<bool, EvalFault>
        ensures { result ≡ truth_of (datum_of self.now) }
    {
        match self {
            Operand::Bool(value) => Ok(*value),
            _ => Err(EvalFault::BadType),
        }
    }
}
