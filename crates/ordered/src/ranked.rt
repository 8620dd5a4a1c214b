// What a store asks of its entries.
ghost use Rattle.std.specs.Prelude.{◌≡◌, ℕ};

/// An entry of a store. It stands by its rank, as a moment when it is due, and by its number among
/// those of one rank. Entries that stand by number alone have the rank 0.
pub trait Ranked: Drop {
    ghost rank_of: { Self → ℕ };

    ghost number_of: { Self → ℕ };

    fn rank(&self) -> u64
        ensures { result ≡ rank_of self.now };

    /// No two entries of a store have the same number.
    fn number(&self) -> u64
        ensures { result ≡ number_of self.now };
}

/// An entry that belongs to a run.
pub trait OfRun: Ranked {
    ghost run_of: { Self → ℕ };

    fn run(&self) -> u64
        ensures { result ≡ run_of self.now };
}
