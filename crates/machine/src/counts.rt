// The numbers that were given so far.
ghost use Rattle.std.specs.Prelude.{◌≡◌, ◌≤◌, ◌+◌, ◌^◌, max, IfOk, OnErr, OnOk};
ghost use Rattle.machine.specs.Counts.{greatest_of, none};

use lists::Memory;

/// How many inputs were taken, and the numbers that were given so far. Items, limits of calls and all that is awaited
/// share one count. A number past 2^64 - 1 counts as want of memory.
#[derive(Clone, Copy, Debug, PartialEq, Eq)]
pub(crate) struct Counts {
    pub(crate) inputs: u64,
    pub(crate) events: u64,
    pub(crate) runs: u64,
    pub(crate) calls: u64,
    pub(crate) entries: u64,
    pub(crate) versions: u64,
}

impl Counts {
    /// Before the first input.
    pub(crate) fn empty() -> Self
        ensures { result ≡ none }
    {
        Counts {
            inputs: 0,
            events: 0,
            runs: 0,
            calls: 0,
            entries: 0,
            versions: 0,
        }
    }

    pub(crate) fn greatest(&self) -> u64
        ensures { result ≡ greatest_of self.now }
    {
        let given = self.inputs.max(self.events).max(self.runs.max(self.calls));
        given.max(self.entries.max(self.versions))
    }

    /// The next event's number.
    pub(crate) fn next_event(&mut self) -> Result<u64, Memory>
        ensures number { IfOk result (λ n. n ≡ self.old.events + 1) }
        ensures counted { OnOk result (self.new ≡ record self.old { events = self.old.events + 1 }) }
        ensures spent { OnErr result (2 ^ 64 ≤ self.old.events + 1) }
    {
        self.events = next(self.events)?;
        Ok(self.events)
    }

    /// The next call's number.
    pub(crate) fn next_call(&mut self) -> Result<u64, Memory>
        ensures number { IfOk result (λ n. n ≡ self.old.calls + 1) }
        ensures counted { OnOk result (self.new ≡ record self.old { calls = self.old.calls + 1 }) }
        ensures spent { OnErr result (2 ^ 64 ≤ self.old.calls + 1) }
    {
        self.calls = next(self.calls)?;
        Ok(self.calls)
    }

    /// The number that the next call gets.
    pub(crate) fn coming_call(&self) -> Result<u64, Memory>
        ensures { IfOk result (λ n. n ≡ self.now.calls + 1) }
    {
        next(self.calls)
    }

    /// The number of the next entry.
    pub(crate) fn next_entry(&mut self) -> Result<u64, Memory>
        ensures number { IfOk result (λ n. n ≡ self.old.entries + 1) }
        ensures counted { OnOk result (self.new ≡ record self.old { entries = self.old.entries + 1 }) }
        ensures spent { OnErr result (2 ^ 64 ≤ self.old.entries + 1) }
    {
        self.entries = next(self.entries)?;
        Ok(self.entries)
    }
}

// It fails only where the numbers are spent.
fn next(count: u64) -> Result<u64, Memory>
    ensures number { IfOk result (λ n. n ≡ count + 1) }
    ensures spent { OnErr result (2 ^ 64 ≤ count + 1) }
{
    match count.checked_add(1) {
        Some(number) => Ok(number),
        None => Err(Memory),
    }
}
