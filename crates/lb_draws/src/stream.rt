// The stream.
ghost use Rattle.std.specs.Prelude.{◌≡◌};
ghost use Rattle.lb_draws.specs.Draws.{first_state, next_state};

use lb_word::{mul, slu, sru, xor};
use std::marker::Model;

/// The stream of a seed and a worker: a generator of 32 bits by shifts and exclusive or
/// (Marsaglia's xorshift with 13, 17 and 5). Contracts see the state.
#[derive(Debug, Drop)]
pub struct Draws {
    state: u32,
}

impl Model for Draws {
    ghost use Rattle.std.specs.Prelude.{ℕ};

    ghost Value = { ℕ };

    ghost view = { λ d. d.state };
}

impl Draws {
    /// The stream of this seed for the worker of this number, before its first draw.
    pub fn new(seed: u32, worker: u8) -> Draws
        ensures { result ≡ first_state seed worker }
    {
        let mixed = xor(seed, mul(0x9E37_79B9, u32::from(worker) + 1));
        let state = if mixed == 0 { 1 } else { mixed };
        Draws { state }
    }

    /// The next draw.
    pub fn next(&mut self) -> u32
        ensures draw { result ≡ next_state self.old }
        ensures state { self.new ≡ result }
    {
        let left = xor(self.state, slu(self.state, 13));
        let right = xor(left, sru(left, 17));
        self.state = xor(right, slu(right, 5));
        self.state
    }
}
