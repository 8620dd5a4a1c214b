// Items, open calls and the starts of throttles, together at a moment.
ghost use Rattle.std.specs.Prelude.{◌≡◌, ◌+◌, ◌++◌, ◌∷◌, ◌<◌, ◌≤◌, [], ℕ, true, map, find, drop};
ghost use Rattle.std.specs.Prelude.{Some, None, OnOk, OnErr, IfOk};
ghost use Rattle.std.specs.List.{AllByRecursion, list_any, slice_get};
ghost use Rattle.std.specs.Option.{option_copied, option_map};
ghost use Rattle.kinds.specs.Cells.{IsStart, last_moment, are_free, may_start, open_in, later_starts};
ghost use Rattle.kinds.specs.Queue.{has_number, has_run, without_run, insert_item, groups_of, next_item};
ghost use Rattle.kinds.specs.declared.cell.Cell.{Cell};
ghost use Rattle.admission.specs.Admission.{empty, next_issued, with_issued, started_at, issue_entries};
ghost use Rattle.admission.specs.Issues.{call_of, has_call, without_call, is_issue_of, has_open_call};
ghost use Rattle.admission.specs.Issues.{in_cells, issued, first_due, limit_of};
ghost use Rattle.admission.specs.Items.{is_item_of, without_item};
ghost use Rattle.admission.specs.declared.issue.Issue.{Issue};

use crate::OpenCalls;
use crate::calls::Calls;
use crate::issue::{CallLimit, Issue};
use crate::waiting::Waiting;
use concurrency_keys::ConcurrencyKeys;
use kinds::{Cell, CellLimits, Item, Shared, StepHash, Steps};
use lists::Memory;
use std::alloc::Global;
use std::marker::Model;
use std::sync::ledger::Ledger;
use throttle::Starts;

/// How long a call may be open, in milliseconds.
const LONGEST_CALL: u64 = 7_200_000;

/// Items that wait to be issued, the calls that are open, and what throttles tell of later starts, at a
/// moment in milliseconds since 1970. Contracts see these three lists and the moment.
#[derive(Drop)]
pub struct Admission {
    waiting: Waiting,
    calls: Calls,
    cells: ConcurrencyKeys,
    starts: Starts,
    moment: u64,
}

impl Model for Admission {
    ghost use Rattle.admission.specs.Admission.{Admission, IsAdmission};

    ghost Value = { Admission };

    ghost view = { λ a. record {
      items = a.waiting.items;
      issues = a.calls;
      starts = a.starts;
      moment = a.moment;
    } };

    ghost invariant = { λ a. IsAdmission a.waiting a.calls a.cells a.starts a.moment };
}

/// A run starts, where it has a throttle's cell.
fn start_at(starts: &mut Starts, start: &Option<Shared<Cell>>, t: u64) -> Result<(), Memory>
    requires start { IsStart start.now }
    requires moment { t ≤ last_moment }
    requires allowed { may_start start.now t starts.old ≡ true }
    ensures ok { OnOk result (starts.new ≡ started_at start.now t starts.old) }
    ensures err { OnErr result (starts.new ≡ starts.old) }
{
    let Some(cell) = start else {
        return Ok(());
    };
    starts.start(cell.get(), t)?;
    Ok(())
}

/// A call is open, and counts in its cells.
fn open(cells: &mut ConcurrencyKeys, calls: &mut Calls, issue: Issue) -> Result<(), Memory>
    requires counted { cells.old ≡ map in_cells calls.old }
    requires free { are_free issue.item.cells cells.old ≡ true }
    requires below { AllByRecursion (λ (i : Issue). i.call < issue.call) calls.old }
    ensures ok { OnOk result (calls.new ≡ calls.old ++ issue ∷ []) }
    ensures counted { cells.new ≡ map in_cells calls.new }
    ensures more { (c : Cell) → open_in c cells.old ≤ open_in c cells.new }
{
    let call = issue.call;
    cells.enter(call, &issue.item.cells)?;
    match calls.push(issue) {
        Ok(()) => Ok(()),
        Err(_) => {
            cells.leave(call);
            Err(Memory)
        }
    }
}

/// The open call that an item's call is, from now on.
fn issued(item: Item, call: u64, limit: u64, moment: u64) -> Issue
    requires { moment ≤ last_moment }
    ensures { result ≡ issued item call limit moment }
{
    let Item {
        number,
        run,
        target,
        attempt,
        due,
        score,
        cells,
        ..
    } = item;
    let item = Item {
        number,
        run,
        target,
        attempt,
        due,
        score,
        cells,
        start: None,
    };
    Issue {
        call,
        item,
        limit,
        due: moment + LONGEST_CALL,
    }
}

impl Admission {
    /// Nothing waits and nothing is open, at the moment 0. Takes no memory.
    pub fn empty(alloc: Global) -> Self
        ensures { result ≡ empty }
    {
        Admission {
            waiting: Waiting::empty(alloc),
            calls: Calls::empty(alloc),
            cells: ConcurrencyKeys::empty(alloc),
            starts: Starts::empty(alloc),
            moment: 0,
        }
    }

    /// Queues an item whose number no queued item has. Without memory everything is as before.
    pub fn add(&mut self, item: Item) -> Result<(), Memory>
        requires fresh { find (has_number item.number) self.old.items ≡ None }
        requires start { IsStart item.start }
        ensures ok { OnOk result
            (self.new ≡ record self.old { items = insert_item item self.old.items }) }
        ensures err { OnErr result (self.new ≡ self.old) }
    {
        self.waiting.add(item)?;
        Ok(())
    }

    /// The cells and the start of a run, in the memory of a queued item that has equal ones and is due, where
    /// there is one.
    pub fn intern(
        &self,
        cells: CellLimits,
        start: Option<Shared<Cell>>,
    ) -> (CellLimits, Option<Shared<Cell>>)
        ensures { result ≡ (cells, start) }
    {
        self.waiting.intern(cells, start)
    }

    /// Drops the items of a run. Looks at these alone.
    pub fn remove_run(&mut self, run: u64)
        ensures { self.new ≡ record self.old { items = without_run run self.old.items } }
    {
        self.waiting.remove_run(run);
    }

    /// Drops the items of a run for a step.
    pub fn remove_step(&mut self, run: u64, hash: &StepHash)
        ensures { self.new ≡ record self.old { items = without_item run hash.now self.old.items } }
    {
        self.waiting.remove(run, hash.as_slice());
    }

    /// Whether an item of the run with this target is queued.
    pub fn has_item(&self, run: u64, target: &[u8]) -> bool
        ensures { result ≡ list_any (is_item_of run target.now) self.now.items }
    {
        self.waiting.has(run, target)
    }

    /// Whether a call of the run with this target is open.
    pub fn has_call(&self, run: u64, target: &[u8]) -> bool
        ensures { result ≡ list_any (is_issue_of run target.now) self.now.issues }
    {
        self.calls.has(run, target)
    }

    /// Whether the run has queued items.
    pub fn has_items_of(&self, run: u64) -> bool
        ensures { result ≡ list_any (has_run run) self.now.items }
    {
        self.waiting.has_run(run)
    }

    /// Whether a call of the run is open.
    pub fn has_open_call(&self, run: u64) -> bool
        ensures { result ≡ has_open_call self.now.issues run }
    {
        self.calls.has_run(run)
    }

    /// The queued item of a number.
    pub fn item(&self, number: u64) -> Option<&Item>
        ensures { option_copied result ≡ find (has_number number) self.now.items }
    {
        self.waiting.get(number)
    }

    /// The open call of a number.
    pub fn open_issue(&self, call: u64) -> Option<&Issue>
        ensures { option_copied result ≡ find (has_call call) self.now.issues }
    {
        self.calls.get(call)
    }

    /// Whether the call of a number is open.
    pub fn is_open(&self, call: u64) -> bool
        ensures { result ≡ list_any (has_call call) self.now.issues }
    {
        let Some(_issue) = self.calls.get(call) else {
            return false;
        };
        true
    }

    /// Closes a call, and gives it where it is open. Without memory everything is as before.
    pub fn close(&mut self, call: u64) -> Result<Option<Issue>, Memory>
        ensures value { IfOk result (λ r. r ≡ find (has_call call) self.old.issues) }
        ensures left { OnOk result
            (self.new ≡ record self.old { issues = without_call call self.old.issues }) }
        ensures err { OnErr result (self.new ≡ self.old) }
    {
        let Some(issue) = self.calls.get(call) else {
            return Ok(None);
        };
        self.waiting.freed(&issue.item.cells)?;
        self.cells.leave(call);
        Ok(self.calls.take(call))
    }

    /// Closes the open call of least number, and gives it. Without memory everything is as before.
    pub fn take_first(&mut self) -> Result<Option<Issue>, Memory>
        ensures value { IfOk result (λ r. r ≡ slice_get self.old.issues 0) }
        ensures left { OnOk result (self.new ≡ record self.old { issues = drop 1 self.old.issues }) }
        ensures err { OnErr result (self.new ≡ self.old) }
    {
        let Some(call) = self.calls.first() else {
            return Ok(None);
        };
        self.close(call)
    }

    /// Lets a moment come, which isn't past. Without memory everything is as before.
    pub fn arrive(&mut self, moment: u64) -> Result<(), Memory>
        requires later { self.old.moment ≤ moment }
        requires near { moment ≤ last_moment }
        ensures ok { OnOk result (self.new
            ≡ record self.old { starts = later_starts moment self.old.starts; moment = moment }) }
        ensures err { OnErr result (self.new ≡ self.old) }
    {
        self.waiting.pass(moment)?;
        self.starts.forget(moment);
        self.moment = moment;
        Ok(())
    }

    /// The item that is issued next: the first by score and number of those that are due, whose cells
    /// are free, and that the throttle lets start. Asks at most once for each group of equal cells and
    /// start.
    pub fn next<L: Ledger>(&mut self, steps: &mut Steps<L>) -> Option<u64>
        ensures next { result ≡ next_issued self.old }
        ensures same { self.new ≡ self.old }
        ensures asked { steps.new ≤ steps.old + groups_of self.old.items }
    {
        self.waiting
            .settle_next(self.moment, &self.cells, &self.starts, steps)
    }

    /// Makes the call of the item that is issued next, with the numbers of the call and of its limit.
    /// Without memory this value isn't to be used again.
    pub fn issue(&mut self, number: u64, call: u64, limit: u64) -> Result<(), Memory>
        requires next { next_issued self.old ≡ Some number }
        requires below { AllByRecursion (λ (i : Issue). i.call < call) self.old.issues }
        ensures { OnOk result (self.new ≡ with_issued number call limit self.old) }
    {
        let Some(item) = self.waiting.take(number) else {
            return Ok(());
        };
        start_at(&mut self.starts, &item.start, self.moment)?;
        let issue = issued(item, call, limit, self.moment);
        open(&mut self.cells, &mut self.calls, issue)
    }

    /// The limit of an open call that is the least by due and number.
    pub fn first_limit(&self) -> Option<CallLimit>
        ensures { result ≡ option_map limit_of (first_due self.now.issues) }
    {
        self.calls.first_limit()
    }

    /// The least of the dues of items that are to come, and of the releases of starts that due items
    /// wait for whose cells are free.
    pub fn next_item(&self) -> Option<u64>
        ensures { result
            ≡ next_item (issue_entries self.now) self.now.starts self.now.moment self.now.items }
    {
        self.waiting.next(self.moment, &self.cells, &self.starts)
    }

    /// The moment, in milliseconds since 1970.
    pub fn moment(&self) -> u64
        ensures value { result ≡ self.now.moment }
        ensures near { result ≤ last_moment }
    {
        self.moment
    }

    /// The queued items by reference, in order of number.
    pub fn items(&self) -> ready_queue::Entries<'_>
        ensures { result ≡ self.now.items }
    {
        self.waiting.entries()
    }

    /// The open calls by reference, in order of number.
    pub fn issues(&self) -> OpenCalls<'_>
        ensures { result ≡ self.now.issues }
    {
        self.calls.entries()
    }

    /// What throttles tell of later starts by reference, in order of cell.
    pub fn starts(&self) -> throttle::Entries<'_>
        ensures { result ≡ self.now.starts }
    {
        self.starts.entries()
    }
}
