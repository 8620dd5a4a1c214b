// The numbers that users are drawn by.
ghost use Rattle.std.specs.Prelude.{◌≡◌, ◌<◌, ◌^◌};
ghost use Rattle.generator.specs.Inputs.{drawn_next, user_of};

use std::marker::Model;

/// The last number of a linear congruential generator. Contracts see it as this number.
#[derive(Drop)]
pub struct Drawn {
    number: u64,
}

impl Model for Drawn {
    ghost use Rattle.std.specs.Prelude.{ℕ, ◌<◌, ◌^◌};

    ghost Value = { ℕ };

    ghost view = { λ d. d.number };

    ghost invariant = { λ d. d.number < 2 ^ 32 };
}

impl Drawn {
    /// A generator that begins with a number, and has drawn none.
    pub fn from_seed(seed: u32) -> Self
        ensures { result ≡ seed }
    {
        Drawn {
            number: u64::from(seed),
        }
    }

    /// Draws the next number.
    pub fn draw(&mut self)
        ensures { self.new ≡ drawn_next self.old }
    {
        self.number = (1_103_515_245 * self.number + 12_345) % (1 << 31);
    }

    /// The user that the number stands for, from 0 to 6.
    pub fn user(&self) -> u64
        ensures { result ≡ user_of self.now }
    {
        self.number % 7
    }
}
