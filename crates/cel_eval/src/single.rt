// Signs, and functions and methods of texts.
ghost use Rattle.std.specs.Prelude.{◌≡◌};
ghost use Rattle.expr.specs.declared.term.Sign.TheVariants as sign;
ghost use Rattle.cel_eval.specs.Data.{number};
ghost use Rattle.cel_eval.specs.Operands.{data_of, datum_of, Gives};
ghost use Rattle.cel_eval.specs.Operations.{signed, size, string, call, count, whole, characters, begins_character};

use crate::EvalFault;
use crate::cell::{bool_text, push_units};
use crate::operand::Operand;
use crate::units::{Units, counted};
use expr::{Function, Sign};
use lists::Bytes;
use std::alloc::Global;

impl<'t, 'a> Operand<'t, 'a> {
    /// `!a` or `-a`.
    pub(crate) fn signed(&self, sign: Sign) -> Result<Operand<'t, 'a>, EvalFault>
        ensures { Gives (signed sign (datum_of self.now)) result }
    {
        match sign {
            Sign::Not => self.inverted(),
            Sign::Minus => self.negated(),
        }
    }

    fn inverted(&self) -> Result<Operand<'t, 'a>, EvalFault>
        ensures { Gives (signed sign.Not (datum_of self.now)) result }
    {
        match self {
            Operand::Bool(value) => Ok(Operand::Bool(!*value)),
            _ => Err(EvalFault::BadType),
        }
    }

    fn negated(&self) -> Result<Operand<'t, 'a>, EvalFault>
        ensures { Gives (signed sign.Minus (datum_of self.now)) result }
    {
        match self {
            Operand::Number(units) => Ok(Operand::Number(units.negated())),
            _ => Err(EvalFault::BadType),
        }
    }

    /// `size(a)` or `string(a)`.
    pub(crate) fn call(
        self,
        function: Function,
        alloc: Global,
    ) -> Result<Operand<'t, 'a>, EvalFault>
        ensures { Gives (call function (datum_of self.entry)) result }
    {
        match function {
            Function::Size => self.size(),
            Function::String => self.string_of(alloc),
        }
    }

    fn size(&self) -> Result<Operand<'t, 'a>, EvalFault>
        ensures { Gives (size (datum_of self.now)) result }
    {
        match self {
            Operand::Text(text) => whole(characters(text)),
            Operand::Made(text) => whole(characters(text.as_slice())),
            Operand::List(part) => whole(part.len()),
            Operand::Object(part) => whole(part.len()),
            Operand::Written(items) => whole(count(items)),
            _ => Err(EvalFault::BadType),
        }
    }

    fn string_of(self, alloc: Global) -> Result<Operand<'t, 'a>, EvalFault>
        ensures { Gives (string (datum_of self.entry)) result }
    {
        match self {
            Operand::Text(text) => Ok(Operand::Text(text)),
            Operand::Made(text) => Ok(Operand::Made(text)),
            Operand::Number(units) => number_text(units, alloc),
            Operand::Bool(value) => Ok(Operand::Text(bool_text(value))),
            _ => Err(EvalFault::BadType),
        }
    }
}

fn number_text<'t, 'a>(units: Units, alloc: Global) -> Result<Operand<'t, 'a>, EvalFault>
    ensures { Gives (string (number units)) result }
{
    let mut text = Bytes::new(alloc);
    push_units(&mut text, units.get())?;
    Ok(Operand::Made(text))
}

fn whole<'t, 'a>(count: usize) -> Result<Operand<'t, 'a>, EvalFault>
    ensures { Gives (whole count) result }
{
    Ok(Operand::Number(counted(count)?))
}

/// How many characters a text in UTF-8 has.
fn characters(text: &[u8]) -> usize
    ensures { result ≡ characters text.now }
{
    text.iter().filter(|byte| begins_character(**byte)).count()
}

fn begins_character(byte: u8) -> bool
    ensures { result ≡ begins_character byte }
{
    byte < 0x80 || byte >= 0xc0
}

#[tactic(auto, using(crate::proofs::ItemLemmas::count_all))]
fn count(items: &Vec<Operand<'_, '_>>) -> usize
    ensures { result ≡ count (data_of items.now.items) }
{
    items.len()
}
