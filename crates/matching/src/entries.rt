// Waits and cancel rules as entries of an index.
use crate::conditional::Conditional;
use crate::place::{Field, place_from};
use expr::Expr;
use kinds::{Bucket, Rule, Wait};
use lists::Bytes;
use std::alloc::Global;

impl Conditional for Wait {
    ghost use Rattle.std.specs.Prelude.{refl};
    ghost use Rattle.kinds.specs.Stores.{wait_condition};

    ghost condition_of = { wait_condition };

    fn name(&self) -> &[u8] {
        self.name.as_slice()
    }

    fn first(&self) -> u64 {
        self.first
    }

    fn cond(&self) -> Option<&Expr> {
        self.cond.as_ref()
    }

    fn bucket(&self) -> Option<&Bucket> {
        self.cond.as_ref().and(self.bucket.as_ref())
    }

    fn into_place(self, alloc: Global) -> (Field, Bytes) {
        place_from(alloc, self.name, self.cond.and(self.bucket))
    }

    ghost by_number = { λ e. refl };
}

impl Conditional for Rule {
    ghost use Rattle.std.specs.Prelude.{refl};
    ghost use Rattle.kinds.specs.Stores.{rule_condition};

    ghost condition_of = { rule_condition };

    fn name(&self) -> &[u8] {
        self.name.as_slice()
    }

    fn first(&self) -> u64 {
        self.first
    }

    fn cond(&self) -> Option<&Expr> {
        self.cond.as_ref()
    }

    fn bucket(&self) -> Option<&Bucket> {
        self.cond.as_ref().and(self.bucket.as_ref())
    }

    fn into_place(self, alloc: Global) -> (Field, Bytes) {
        place_from(alloc, self.name, self.cond.and(self.bucket))
    }

    ghost by_number = { λ e. refl };
}
