// The nodes of a tree while its text is read.
ghost use Rattle.std.specs.Prelude.{◌≡◌, List, ℕ, true, false, [], OnOk, IfOk, length};
ghost use Rattle.json_text.specs.Building.{EndsEntry, Lies, Puts, Opens, Closes, IsOutermost, IsInside, AddsPart};
ghost use Rattle.json_text.specs.Grammar.{whole, no_parts};
ghost use Rattle.json_text.specs.Entries.{bracket_kind, turn_of};

use crate::Kind;
use crate::bracket::{Bracket, Turn};
use crate::entry::{Entry, small};
use lists::Memory;
use std::alloc::Global;

/// The entries so far, and the brackets that are open.
#[derive(Drop)]
pub(crate) struct Builder {
    pub(crate) nodes: Vec<Entry>,
    pub(crate) top: Bracket,
    pub(crate) below: Vec<Bracket>,
}

impl Builder {
    pub(crate) fn new(alloc: Global) -> Self
        ensures { (w : List ℕ) → Lies w result whole no_parts [] }
    {
        Builder {
            nodes: Vec::new(alloc),
            top: Bracket {
                turn: Turn::Whole,
                entry: 0,
                count: 0,
            },
            below: Vec::new(alloc),
        }
    }

    /// How many brackets are open.
    pub(crate) fn depth(&self) -> usize
        ensures { result ≡ length self.now.below.items }
    {
        self.below.len()
    }

    /// Puts a value without parts at the end.
    pub(crate) fn put(&mut self, kind: Kind, start: usize, stop: usize) -> Result<(), Memory>
        ensures { OnOk result (Puts self.old start stop kind self.new) }
    {
        let entry = Entry::new(kind, start, stop, self.nodes.len() + 1)?;
        self.nodes.push(entry)?;
        self.top = with_part(self.top)?;
        Ok(())
    }

    /// Opens a bracket at the end, whose first part has this turn.
    pub(crate) fn open(&mut self, turn: Turn, start: usize) -> Result<(), Memory>
        ensures { OnOk result (Opens self.old turn start self.new) }
    {
        let entry = self.nodes.len();
        self.nodes
            .push(Entry::new(bracket_kind(turn), start, start, entry)?)?;
        self.below.push(self.top)?;
        self.top = Bracket {
            turn,
            entry,
            count: 0,
        };
        Ok(())
    }

    /// Closes the innermost bracket, or answers false where none is open.
    pub(crate) fn close(&mut self, stop: usize) -> Result<bool, Memory>
        ensures closed { IfOk result (λ inside. inside ≡ true → Closes self.old stop self.new) }
        ensures inside { IfOk result (λ inside. inside ≡ true → IsInside self.old) }
        ensures outermost { IfOk result (λ inside. inside ≡ false → IsOutermost self.old) }
    {
        let Some(outer) = self.below.pop() else {
            return Ok(false);
        };
        self.end_entry(stop)?;
        self.top = with_part(outer)?;
        Ok(true)
    }

    /// Writes the end of the innermost bracket into its entry.
    fn end_entry(&mut self, stop: usize) -> Result<(), Memory>
        ensures top { OnOk result (self.new.top ≡ self.old.top) }
        ensures below { OnOk result (self.new.below ≡ self.old.below) }
        ensures written { OnOk result (EndsEntry self.old stop self.new) }
    {
        let count = small(self.top.count)?;
        let stop = small(stop)?;
        let next = small(self.nodes.len())?;
        if let Some(entry) = self.nodes.get_mut(self.top.entry) {
            entry.count = count;
            entry.stop = stop;
            entry.next = next;
        }
        Ok(())
    }
}

fn bracket_kind(turn: Turn) -> Kind
    ensures { result ≡ bracket_kind (turn_of turn) }
{
    match turn {
        Turn::Element => Kind::List,
        _ => Kind::Object,
    }
}

/// The bracket with one more part.
fn with_part(bracket: Bracket) -> Result<Bracket, Memory>
    ensures { IfOk result (AddsPart bracket) }
{
    let Some(count) = bracket.count.checked_add(1) else {
        return Err(Memory);
    };
    Ok(Bracket {
        turn: bracket.turn.following(),
        entry: bracket.entry,
        count,
    })
}
