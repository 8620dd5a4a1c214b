// Time goes on: what is due happens, the least by moment and number first, each at its own moment.
ghost use Rattle.std.specs.Prelude.{◌≡◌, ◌≤◌, ◌++◌, map, find, IfOk, OnOk};
ghost use Rattle.std.specs.Option.{option_map};
ghost use Rattle.awaited.specs.Entries.{invocation_number, sleep_number, waiting_number};
ghost use Rattle.kinds.specs.Moments.{last_moment};
ghost use Rattle.kinds.specs.Windows.{fired, has_number, number_of};
ghost use Rattle.lists.specs.Entries.{AreApart, has};
ghost use Rattle.machine.specs.Advance.{AreAwaitedApart, Arrives, IsDue, due_at, due_within, hang, hangs_of, invocation_over, limited, moved, next_by, next_from, over_by, sleep_over, sooner, wait_over, window_over};
ghost use Rattle.machine.specs.Held.{Becomes, IsHeld};
ghost use Rattle.machine.specs.View.{state_of};
ghost use Rattle.run_model.specs.Advance.{advance, due_by, least, timed, without_invocation, without_rule, without_sleep, without_window};
ghost use Rattle.run_model.specs.Fit.{HasOwnNumbers};
ghost use Rattle.run_model.specs.Next.{due_next};
ghost use Rattle.run_model.specs.State.{at_moment};

use crate::Parts;
use crate::results::{data_result, error_result};
use admission::CallLimit;
use awaited::{Invocation, Sleep};
use kinds::{Due, Fired, Out, Steps, error_object};
use lists::{Bytes, Items, Memory};
use std::sync::ledger::Ledger;

/// What is due.
#[derive(Clone, Copy)]
enum Timed {
    Sleep,
    Wait,
    Invocation,
    Window,
    Rule,
    /// A call.
    Limit(u64),
}

/// What is due next, by its number, and when.
#[derive(Clone, Copy)]
struct Next {
    due: u64,
    number: u64,
    entry: Timed,
}

impl Parts {
    /// Time goes on to a moment. The numbers of entries end before what is due does, so 2^64 turns count as want of
    /// memory.
    pub(crate) fn advance<L: Ledger>(
        &mut self,
        moment: u64,
        outs: &mut Items<Out>,
        steps: &mut Steps<L>,
    ) -> Result<(), Memory>
        requires held { IsHeld self.old }
        requires apart { HasOwnNumbers (state_of self.old) }
        requires later { self.old.admission.moment ≤ moment }
        requires near { moment ≤ last_moment }
        ensures now { OnOk result (Arrives (advance moment (state_of self.old)).state self.new) }
        ensures outs { OnOk result (outs.new
            ≡ outs.old ++ map hang (advance moment (state_of self.old)).hangs) }
    {
        for _ in 0..=u64::MAX {
            let Some(next) = self.due_by(moment) else {
                return self.arrive(moment);
            };
            self.fire(next, outs, steps)?;
        }
        Err(Memory)
    }

    // The ids run out that no longer tell a repeated event, and the throttles that tell nothing of later starts.
    fn arrive(&mut self, moment: u64) -> Result<(), Memory>
        requires held { IsHeld self.old }
        requires later { self.old.admission.moment ≤ moment }
        requires near { moment ≤ last_moment }
        ensures { OnOk result (Arrives (at_moment moment (state_of self.old)) self.new) }
    {
        self.moment = moment;
        self.seen.forget(moment);
        self.admission.arrive(moment)
    }

    // The next, where it is due by a moment.
    fn due_by(&self, moment: u64) -> Option<Next>
        ensures due { IsDue moment (state_of self.now) result }
        ensures numbers { AreAwaitedApart (state_of self.now) }
    {
        within(self.next(), moment)
    }

    // The least by moment and number of all that is due.
    fn next(&self) -> Option<Next>
        ensures least { result ≡ option_map next_by (least (timed (state_of self.now))) }
        ensures numbers { AreAwaitedApart (state_of self.now) }
    {
        let sleep = next_of(self.sleeps.first(), Timed::Sleep);
        let wait = next_of(self.waits.first(), Timed::Wait);
        let invocation = next_of(self.invocations.first(), Timed::Invocation);
        let window = next_of(self.windows.first(), Timed::Window);
        let rule = next_of(self.rules.first(), Timed::Rule);
        let limit = limit_of(self.admission.first_limit());
        let awaited = earlier(earlier(sleep, wait), invocation);
        earlier(earlier(earlier(awaited, window), rule), limit)
    }

    /// When something is due next.
    pub(crate) fn next_due(&self) -> Option<u64>
        ensures { result ≡ due_next (least (timed (state_of self.now))) }
    {
        due_of(self.next())
    }

    // What is due next happens, at its own moment.
    fn fire<L: Ledger>(
        &mut self,
        next: Next,
        outs: &mut Items<Out>,
        steps: &mut Steps<L>,
    ) -> Result<(), Memory>
        requires held { IsHeld self.old }
        requires apart { HasOwnNumbers (state_of self.old) }
        requires numbers { AreAwaitedApart (state_of self.old) }
        requires near { next.due ≤ last_moment }
        ensures state { OnOk result (Becomes (over_by next.entry next.number
            (moved next.due (state_of self.old))) self.old self.new) }
        ensures outs { OnOk result (outs.new ≡ outs.old ++ hangs_of next.entry) }
    {
        say_hang(next.entry, outs)?;
        self.go_to(next.due);
        self.end(next, steps)
    }

    fn go_to(&mut self, moment: u64)
        requires held { IsHeld self.old }
        requires near { moment ≤ last_moment }
        ensures { Becomes (moved moment (state_of self.old)) self.old self.new }
    {
        self.moment = moment;
    }

    // What is due is over.
    fn end<L: Ledger>(&mut self, next: Next, steps: &mut Steps<L>) -> Result<(), Memory>
        requires held { IsHeld self.old }
        requires apart { HasOwnNumbers (state_of self.old) }
        requires numbers { AreAwaitedApart (state_of self.old) }
        ensures { OnOk result (Becomes
            (over_by next.entry next.number (state_of self.old)) self.old self.new) }
    {
        match next.entry {
            Timed::Sleep => self.end_sleep(next.number),
            Timed::Wait => self.end_wait(next.number),
            Timed::Invocation => self.end_invocation(next.number),
            Timed::Window => self.end_window(next.number),
            Timed::Rule => {
                self.end_rule(next.number);
                Ok(())
            }
            Timed::Limit(call) => self.fail_call(call, b"call limit", steps),
        }
    }

    fn end_sleep(&mut self, number: u64) -> Result<(), Memory>
        requires held { IsHeld self.old }
        ensures { OnOk result (Becomes
            (sleep_over (find (has sleep_number number) self.old.sleeps) (state_of self.old))
            self.old self.new) }
    {
        let Some(sleep) = self.take_sleep(number) else {
            return Ok(());
        };
        let result = Bytes::from_slice(self.alloc, b"null")?;
        self.wake(sleep.run, &sleep.hash, result)?;
        self.discover()
    }

    fn take_sleep(&mut self, number: u64) -> Option<Sleep>
        requires held { IsHeld self.old }
        ensures value { result ≡ find (has sleep_number number) self.old.sleeps }
        ensures now { Becomes (without_sleep number (state_of self.old)) self.old self.new }
    {
        self.sleeps.remove(number)
    }

    fn end_wait(&mut self, number: u64) -> Result<(), Memory>
        requires held { IsHeld self.old }
        ensures { OnOk result (Becomes
            (wait_over (find (has waiting_number number) self.old.waits) (state_of self.old))
            self.old self.new) }
    {
        let Some(waiting) = self.take_wait(number) else {
            return Ok(());
        };
        let result = data_result(self.alloc, b"null")?;
        self.wake(waiting.run, &waiting.hash, result)?;
        self.discover()
    }

    // The child goes on.
    fn end_invocation(&mut self, number: u64) -> Result<(), Memory>
        requires held { IsHeld self.old }
        ensures { OnOk result (Becomes (invocation_over
            (find (has invocation_number number) self.old.invocations) (state_of self.old))
            self.old self.new) }
    {
        let Some(invocation) = self.take_invocation(number) else {
            return Ok(());
        };
        let error = error_object(self.alloc, b"invocation timed out")?;
        let result = error_result(self.alloc, error.as_slice())?;
        self.wake(invocation.run, &invocation.hash, result)?;
        self.discover()
    }

    fn take_invocation(&mut self, number: u64) -> Option<Invocation>
        requires held { IsHeld self.old }
        ensures value { result ≡ find (has invocation_number number) self.old.invocations }
        ensures now { Becomes (without_invocation number (state_of self.old)) self.old self.new }
    {
        self.invocations.remove(number)
    }

    // A window makes its run.
    fn end_window(&mut self, number: u64) -> Result<(), Memory>
        requires held { IsHeld self.old }
        requires numbers { AreApart number_of self.old.windows }
        ensures { OnOk result (Becomes
            (window_over (find (has_number number) self.old.windows) (state_of self.old))
            self.old self.new) }
    {
        let Some(fired) = self.take_window(number)? else {
            return Ok(());
        };
        self.make_run(fired.version, fired.events, None)
    }

    fn take_window(&mut self, number: u64) -> Result<Option<Fired>, Memory>
        requires held { IsHeld self.old }
        requires numbers { AreApart number_of self.old.windows }
        ensures value { IfOk result
            (λ w. w ≡ option_map fired (find (has_number number) self.old.windows)) }
        ensures now { OnOk result
            (Becomes (without_window number (state_of self.old)) self.old self.new) }
    {
        let Some(fired) = self.windows.fire(number) else {
            return Ok(None);
        };
        self.loose.touch(fired.version, fired.events.as_slice())?;
        Ok(Some(fired))
    }

    fn end_rule(&mut self, number: u64)
        requires held { IsHeld self.old }
        ensures { Becomes (without_rule number (state_of self.old)) self.old self.new }
    {
        self.rules.remove(number);
    }
}

// The connection of a call past its limit is hung.
fn say_hang(entry: Timed, outs: &mut Items<Out>) -> Result<(), Memory>
    ensures { OnOk result (outs.new ≡ outs.old ++ hangs_of entry) }
{
    match entry {
        Timed::Limit(call) => outs.push(Out::Hang { call }),
        Timed::Sleep | Timed::Wait | Timed::Invocation | Timed::Window | Timed::Rule => Ok(()),
    }
}

fn next_of(first: Option<Due>, entry: Timed) -> Option<Next>
    ensures { result ≡ option_map (next_from entry) first }
{
    let due = first?;
    Some(Next {
        due: due.due,
        number: due.number,
        entry,
    })
}

fn limit_of(first: Option<CallLimit>) -> Option<Next>
    ensures { result ≡ option_map limited first }
{
    let limit = first?;
    Some(Next {
        due: limit.due,
        number: limit.number,
        entry: Timed::Limit(limit.call),
    })
}

fn within(next: Option<Next>, moment: u64) -> Option<Next>
    ensures { result ≡ due_within moment next }
{
    let next = next?;
    if next.due <= moment { Some(next) } else { None }
}

fn due_of(next: Option<Next>) -> Option<u64>
    ensures { result ≡ option_map due_at next }
{
    Some(next?.due)
}

// The first of two, where the other doesn't come before it.
fn earlier(one: Option<Next>, other: Option<Next>) -> Option<Next>
    ensures { result ≡ sooner one other }
{
    match (one, other) {
        (Some(a), Some(b)) => {
            if (b.due, b.number) < (a.due, a.number) {
                Some(b)
            } else {
                Some(a)
            }
        }
        (Some(a), None) => Some(a),
        (None, b) => b,
    }
}
