// How much a server keeps.
ghost use Rattle.std.specs.Prelude.{◌≡◌};
ghost use Rattle.kinds.specs.Limits.{shipped};

/// How much a server keeps before it turns new work away.
#[derive(Clone, Copy, Debug, PartialEq, Eq)]
pub struct Limits {
    /// Bytes of events, results and remembered ids.
    pub kept: u64,
    /// Runs that have not ended.
    pub live: u64,
    /// Functions that are current, of all applications.
    pub functions: u64,
}

impl Limits {
    /// The limits that the shipped programs run with.
    pub fn shipped() -> Self
        ensures { result ≡ shipped }
    {
        Limits {
            kept: 1 << 30,
            live: 1_000_000,
            functions: 1024,
        }
    }
}
