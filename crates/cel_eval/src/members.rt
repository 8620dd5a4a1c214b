// Members and items of a value, and `has`.
ghost use Rattle.std.specs.Prelude.{◌≡◌};
ghost use Rattle.cel_eval.specs.Operands.{data_of, datum_of, Gives};
ghost use Rattle.cel_eval.specs.Operations.{member, index, item_at, item, is_list, is_object, has, written_item, found};

use crate::EvalFault;
use crate::operand::Operand;
use crate::units::Units;

impl<'t, 'a> Operand<'t, 'a> {
    /// `a.f`.
    pub(crate) fn member(&self, name: &[u8]) -> Result<Operand<'t, 'a>, EvalFault>
        ensures { Gives (member (datum_of self.now) name.now) result }
    {
        match self {
            Operand::Object(part) => Operand::found(part.member(name)),
            _ => Err(EvalFault::BadType),
        }
    }

    /// `has(a.f)`.
    pub(crate) fn has(&self, name: &[u8]) -> Result<Operand<'t, 'a>, EvalFault>
        ensures { Gives (has (datum_of self.now) name.now) result }
    {
        match self {
            Operand::Object(part) => Ok(Operand::Bool(part.member(name).is_some())),
            _ => Err(EvalFault::BadType),
        }
    }

    /// `a[b]`.
    pub(crate) fn index(self, place: &Operand<'_, '_>) -> Result<Operand<'t, 'a>, EvalFault>
        ensures { Gives (index (datum_of self.entry) (datum_of place.now)) result }
    {
        match place {
            Operand::Number(units) => self.item_at(*units),
            Operand::Text(name) => self.member(name),
            Operand::Made(name) => self.member(name.as_slice()),
            _ => Err(EvalFault::BadType),
        }
    }

    fn item_at(self, place: Units) -> Result<Operand<'t, 'a>, EvalFault>
        ensures { Gives (item_at (datum_of self.entry) place) result }
    {
        if !(self.is_list() && place.is_whole()) {
            return Err(EvalFault::BadType);
        }
        if place.is_negative() {
            return Err(EvalFault::NoField);
        }
        self.item(place.whole())
    }

    pub(crate) fn is_list(&self) -> bool
        ensures { result ≡ is_list (datum_of self.now) }
    {
        match self {
            Operand::List(_) | Operand::Written(_) => true,
            _ => false,
        }
    }

    pub(crate) fn is_object(&self) -> bool
        ensures { result ≡ is_object (datum_of self.now) }
    {
        match self {
            Operand::Object(_) => true,
            _ => false,
        }
    }

    fn item(self, k: u128) -> Result<Operand<'t, 'a>, EvalFault>
        ensures { Gives (item (datum_of self.entry) k) result }
    {
        match self {
            Operand::List(part) => Operand::found(part.item(k)),
            Operand::Written(items) => written_item(items, k),
            _ => Err(EvalFault::BadType),
        }
    }
}

fn written_item<'t, 'a>(
    mut items: Vec<Operand<'t, 'a>>,
    k: u128,
) -> Result<Operand<'t, 'a>, EvalFault>
    ensures { Gives (found (written_item (data_of items.entry.items) k)) result }
{
    if k < items.len() as u128 {
        Ok(items.swap_remove(k as usize))
    } else {
        Err(EvalFault::NoField)
    }
}
