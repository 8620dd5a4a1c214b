// The events that an expression is evaluated over.
ghost use Rattle.std.specs.Prelude.{◌≡◌};
ghost use Rattle.std.specs.Option.{option_copied};
ghost use Rattle.cel_eval.specs.Operands.{Gives};
ghost use Rattle.cel_eval.specs.Table.{of_source, of_fresh};

use crate::EvalFault;
use crate::operand::Operand;
use crate::part::Part;
use expr::Source;
use json_text::Tree;
use std::marker::Model;

/// The events that an expression is evaluated over. Contracts see their values.
#[derive(Drop)]
pub(crate) struct Scope<'t, 'a> {
    event: &'t Tree<'a>,
    fresh: Option<&'t Tree<'a>>,
}

impl<'t, 'a> Model for Scope<'t, 'a> {
    ghost use Rattle.std.specs.Prelude.{option_map};
    ghost use Rattle.std.specs.Option.{option_copied};
    ghost use Rattle.cel_eval.specs.Data.{Events, events_code, over, over_documents};

    ghost Value = { Events };

    ghost coded = { events_code };

    ghost view = { λ s. over_documents s.event.now (option_copied s.fresh) };
}

impl<'t, 'a> Scope<'t, 'a> {
    ghost use Rattle.cel_eval.specs.Data.{over_documents};

    pub(crate) fn new(event: &'t Tree<'a>, fresh: Option<&'t Tree<'a>>) -> Self
        ensures { result ≡ over_documents event.now (option_copied fresh.entry) }
    {
        Scope { event, fresh }
    }

    pub(crate) fn whole(&self, source: Source) -> Result<Operand<'t, 'a>, EvalFault>
        ensures { Gives (of_source source self.now) result }
    {
        match source {
            Source::Event => Operand::of(Part::whole(self.event)),
            Source::Async => self.fresh(),
        }
    }

    fn fresh(&self) -> Result<Operand<'t, 'a>, EvalFault>
        ensures { Gives (of_fresh self.now.fresh) result }
    {
        match self.fresh {
            Some(tree) => Operand::of(Part::whole(tree)),
            None => Err(EvalFault::NoField),
        }
    }
}
