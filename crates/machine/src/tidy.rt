// What stays at the end of a step. Looked at is only what the step touched.
ghost use Rattle.std.specs.Prelude.{◌≡◌, ◌+◌, ◌<◌, ◌^◌, [], false, IfOk, OnOk};
ghost use Rattle.machine.specs.Held.{Becomes, IsAtRest, IsHeld, is_event_used, is_version_in_use};
ghost use Rattle.machine.specs.Tidy.{IsEventSettled, IsLooked, IsTidied, forget_run, look_at_event, look_at_run, look_at_version, touched_events, touched_runs, touched_versions};
ghost use Rattle.machine.specs.View.{state_of};
ghost use Rattle.run_model.specs.State.{kept, tidied, without_closed, without_unnamed};

use crate::Parts;
use lists::Memory;

impl Parts {
    pub(crate) fn tidy(&mut self) -> Result<(), Memory>
        requires held { IsHeld self.old }
        requires now { self.old.admission.moment ≡ self.old.moment }
        ensures state { OnOk result (state_of self.new ≡ tidied (state_of self.old)) }
        ensures rest { OnOk result (IsAtRest self.new) }
    {
        self.drop_runs()?;
        self.drop_events()?;
        self.drop_versions();
        self.weigh()
    }

    // An ended run's calls have ended too: then it goes.
    fn drop_runs(&mut self) -> Result<(), Memory>
        requires held { IsHeld self.old }
        ensures now { OnOk result (IsTidied without_closed self.old self.new) }
        ensures none { OnOk result (self.new.loose.runs ≡ []) }
    {
        while self.drop_next_run()? {}
        Ok(())
    }

    // The first of the runs is looked at. Says whether there was one.
    fn drop_next_run(&mut self) -> Result<bool, Memory>
        requires held { IsHeld self.old }
        ensures { IfOk result (λ more. IsLooked touched_runs without_closed more self.old self.new) }
    {
        let Some(run) = self.loose.runs.first() else {
            return Ok(false);
        };
        self.look_at_run(run)?;
        self.loose.runs.pop_first();
        Ok(true)
    }

    fn look_at_run(&mut self, run: u64) -> Result<(), Memory>
        requires held { IsHeld self.old }
        ensures now { OnOk result (Becomes (look_at_run run (state_of self.old)) self.old self.new) }
        ensures runs { OnOk result (self.new.loose.runs ≡ self.old.loose.runs) }
    {
        if self.admission.has_open_call(run) {
            Ok(())
        } else {
            self.forget_run(run)
        }
    }

    fn forget_run(&mut self, run: u64) -> Result<(), Memory>
        requires held { IsHeld self.old }
        ensures now { OnOk result (Becomes (forget_run run (state_of self.old)) self.old self.new) }
        ensures runs { OnOk result (self.new.loose.runs ≡ self.old.loose.runs) }
    {
        self.ended.drop_before_last(run);
        match self.runs.close(run) {
            Some(closed) => self.loose.touch(closed.version(), closed.events()),
            None => Ok(()),
        }
    }

    // An event that nothing names any more goes.
    fn drop_events(&mut self) -> Result<(), Memory>
        requires held { IsHeld self.old }
        ensures now { OnOk result (IsTidied without_unnamed self.old self.new) }
        ensures none { OnOk result (self.new.loose.events ≡ []) }
        ensures runs { OnOk result (self.new.loose.runs ≡ self.old.loose.runs) }
    {
        while self.drop_next_event()? {}
        Ok(())
    }

    fn drop_next_event(&mut self) -> Result<bool, Memory>
        requires held { IsHeld self.old }
        ensures now { IfOk result
            (λ more. IsLooked touched_events without_unnamed more self.old self.new) }
        ensures runs { OnOk result (self.new.loose.runs ≡ self.old.loose.runs) }
    {
        let Some(event) = self.loose.events.first() else {
            return Ok(false);
        };
        self.look_at_event(event)?;
        self.loose.events.pop_first();
        Ok(true)
    }

    // Whether its bytes count, and whether it stays.
    fn look_at_event(&mut self, event: u64) -> Result<(), Memory>
        requires held { IsHeld self.old }
        ensures now { OnOk result (Becomes (look_at_event event (state_of self.old)) self.old self.new) }
        ensures settled { OnOk result (IsEventSettled event self.new) }
        ensures loose { OnOk result (self.new.loose ≡ self.old.loose) }
    {
        if self.is_event_used(event) {
            self.texts.count(event)
        } else {
            self.discount(event);
            Ok(())
        }
    }

    fn is_event_used(&self, event: u64) -> bool
        ensures { result ≡ is_event_used self.now.runs.live self.now.windows event }
    {
        self.runs.is_used(event) || self.windows.names(event)
    }

    // Its bytes count no longer. It stays where a run that has ended names it.
    fn discount(&mut self, event: u64)
        requires held { IsHeld self.old }
        requires unused { is_event_used self.old.runs.live self.old.windows event ≡ false }
        ensures now { Becomes (look_at_event event (state_of self.old)) self.old self.new }
        ensures settled { IsEventSettled event self.new }
        ensures loose { self.new.loose ≡ self.old.loose }
    {
        self.texts.discount(event);
        if self.runs.is_named(event) {
            return;
        }
        self.texts.remove(event);
    }

    // A retired function that nothing names any more goes.
    fn drop_versions(&mut self)
        requires held { IsHeld self.old }
        ensures now { IsTidied without_unnamed self.old self.new }
        ensures none { self.new.loose.versions ≡ [] }
        ensures runs { self.new.loose.runs ≡ self.old.loose.runs }
        ensures events { self.new.loose.events ≡ self.old.loose.events }
    {
        while self.drop_next_version() {}
    }

    fn drop_next_version(&mut self) -> bool
        requires held { IsHeld self.old }
        ensures now { IsLooked touched_versions without_unnamed result self.old self.new }
        ensures runs { self.new.loose.runs ≡ self.old.loose.runs }
        ensures events { self.new.loose.events ≡ self.old.loose.events }
    {
        let Some(version) = self.loose.versions.first() else {
            return false;
        };
        self.look_at_version(version);
        self.loose.versions.pop_first();
        true
    }

    fn look_at_version(&mut self, version: u64)
        requires held { IsHeld self.old }
        ensures now { Becomes (look_at_version version (state_of self.old)) self.old self.new }
        ensures loose { self.new.loose ≡ self.old.loose }
    {
        if self.is_version_named(version) {
            return;
        }
        self.versions.forget(version);
    }

    fn is_version_named(&self, version: u64) -> bool
        ensures { result
            ≡ is_version_in_use self.now.runs.live self.now.runs.closing self.now.windows version }
    {
        self.runs.names_version(version) || self.windows.names_version(version)
    }

    // What is kept takes fewer than 2^64 bytes, or there is no memory for it.
    fn weigh(&self) -> Result<(), Memory>
        requires held { IsHeld self.now }
        requires settled { self.now.loose.events ≡ [] }
        ensures { OnOk result (kept (state_of self.now) < 2 ^ 64) }
    {
        let named = sum(self.texts.bytes(), self.runs.results())?;
        sum(named, self.seen.weight())?;
        Ok(())
    }
}

// One past 2^64 - 1 counts as want of memory.
fn sum(a: u64, b: u64) -> Result<u64, Memory>
    ensures value { IfOk result (λ n. n ≡ a + b) }
    ensures below { OnOk result (a + b < 2 ^ 64) }
{
    match a.checked_add(b) {
        Some(sum) => Ok(sum),
        None => Err(Memory),
    }
}
