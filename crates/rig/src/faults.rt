// Calls that are set to fail, and counts of faults.
ghost use Rattle.std.specs.Prelude.{◌≡◌};
ghost use Rattle.rig.specs.Faults.{one_more};

/// How much of a call is done that fails.
#[derive(Clone, Copy, Debug, PartialEq, Eq)]
pub enum FailForm {
    /// Nothing of it.
    Nothing,
    /// The first half of a write's bytes, rounded down. Of any other call nothing.
    Half,
    /// The whole call, and it fails all the same. What a crash may leave stays what it was within the
    /// call, so a sync that fails has brought nothing to the disk that anybody may count on.
    All,
}

/// A call on the disk that is set to fail.
#[derive(Clone, Copy, Debug, PartialEq, Eq)]
pub struct FailedCall {
    /// Its number, counted from 1 over all calls on the disk.
    pub call: u64,
    /// How much of it is done.
    pub form: FailForm,
}

/// A count with one more, which stays at 2^64 - 1.
pub fn next_count(count: u64) -> u64
    ensures { result ≡ one_more count }
{
    count.saturating_add(1)
}
