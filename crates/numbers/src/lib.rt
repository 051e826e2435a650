// Numbers that look random and are the same in every run, for trials: xorshift64 of Marsaglia, by 13, 7 and 17.
#![tactic(auto)]

ghost use Rattle.std.specs.Prelude.{◌≡◌, ℕ};
ghost use Rattle.numbers.specs.Xorshift.{drawn_below, stepped};

use std::marker::Model;

/// Where the sequence stands. It is not `Copy`, so that no two draws are the same by oversight.
#[derive(Clone, PartialEq, Eq, Debug, Drop)]
pub struct Numbers {
    state: u64,
}

impl Model for Numbers {
    ghost Value = { ℕ };

    ghost view = { λ numbers. numbers.state };

    ghost inverse = { λ state. record { state = state } };
}

impl Numbers {
    /// The sequence from this number on. From 0 it is 0 for ever.
    pub fn from_seed(seed: u64) -> Self
        ensures { result ≡ seed }
    {
        Numbers { state: seed }
    }

    // One step of the sequence.
    fn step(&mut self)
        ensures { self.new ≡ stepped self.old }
    {
        let x = self.state;
        let x = x ^ (x << 13);
        let x = x ^ (x >> 7);
        self.state = x ^ (x << 17);
    }

    /// A number below the limit, or 0 where the limit is 0.
    pub fn below(&mut self, limit: u64) -> u64
        ensures value { result ≡ drawn_below self.new limit }
        ensures after { self.new ≡ stepped self.old }
    {
        self.step();
        if limit == 0 {
            0
        } else {
            (self.state >> 16) % limit
        }
    }
}
