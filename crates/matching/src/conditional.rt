// What an index asks of its entries.
ghost use Rattle.std.specs.Prelude.{◌≡◌, ℕ, Option};
ghost use Rattle.std.specs.Option.{option_copied};
ghost use Rattle.kinds.specs.Stores.{Condition};
ghost use Rattle.matching.specs.Places.{bucket_of, place_of};

use crate::place::Field;
use expr::Expr;
use kinds::Bucket;
use lists::Bytes;
use ordered::OfRun;
use std::alloc::Global;

/// An entry that waits for events of a name, under a condition or none. It stands by number alone.
pub trait Conditional: OfRun {
    ghost condition_of: { Self → Condition };

    /// The name of the events.
    fn name(&self) -> &[u8]
        ensures { result.now ≡ (condition_of self.now).name };

    /// The number of the run's first event.
    fn first(&self) -> u64
        ensures { result ≡ (condition_of self.now).first };

    fn cond(&self) -> Option<&Expr>
        ensures { option_copied result ≡ (condition_of self.now).cond };

    /// The bucket, where there is a condition that it may spare.
    fn bucket(&self) -> Option<&Bucket>
        ensures { option_copied result ≡ bucket_of (condition_of self.now) };

    /// The entry's place, which takes no memory.
    fn into_place(self, alloc: Global) -> (Field, Bytes)
        ensures { result ≡ place_of (condition_of self) };

    ghost by_number: { (e : Self) → Self.rank_of e ≡ 0 };
}
