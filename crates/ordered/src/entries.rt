// The entries of timers, waits and cancel rules as entries of a store.
use crate::ranked::{OfRun, Ranked};
use kinds::{Due, Rule, Wait};

/// By due, then by number.
impl Ranked for Due {
    ghost use Rattle.kinds.specs.Stores.{due_moment, due_number};

    ghost rank_of = { due_moment };

    ghost number_of = { due_number };

    fn rank(&self) -> u64 {
        self.due
    }

    fn number(&self) -> u64 {
        self.number
    }
}

impl OfRun for Due {
    ghost use Rattle.kinds.specs.Stores.{due_run};

    ghost run_of = { due_run };

    fn run(&self) -> u64 {
        self.run
    }
}

/// By number alone.
impl Ranked for Wait {
    ghost use Rattle.kinds.specs.Stores.{wait_number};

    ghost rank_of = { λ _. 0 };

    ghost number_of = { wait_number };

    fn rank(&self) -> u64 {
        0
    }

    fn number(&self) -> u64 {
        self.number
    }
}

impl OfRun for Wait {
    ghost use Rattle.kinds.specs.Stores.{wait_run};

    ghost run_of = { wait_run };

    fn run(&self) -> u64 {
        self.run
    }
}

/// By number alone.
impl Ranked for Rule {
    ghost use Rattle.kinds.specs.Stores.{rule_number};

    ghost rank_of = { λ _. 0 };

    ghost number_of = { rule_number };

    fn rank(&self) -> u64 {
        0
    }

    fn number(&self) -> u64 {
        self.number
    }
}

impl OfRun for Rule {
    ghost use Rattle.kinds.specs.Stores.{rule_run};

    ghost run_of = { rule_run };

    fn run(&self) -> u64 {
        self.run
    }
}
