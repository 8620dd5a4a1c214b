/// What became of a name that a run's step was noted under.
#[derive(Clone, Copy, Debug, PartialEq, Eq)]
pub enum Naming {
    /// The name was new, and is noted.
    New,
    /// The name was known, or the run isn't there. Nothing has changed.
    Known,
    /// The name was new, and the run has its 1,000 names. Nothing has changed.
    Full,
}
