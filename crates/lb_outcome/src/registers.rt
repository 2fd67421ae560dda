// The registers.
ghost use Rattle.std.specs.Prelude.{◌≡◌, length};
ghost use Rattle.lb_outcome.specs.Cells.{cells};
ghost use Rattle.lb_outcome.specs.Registers.{boot_registers, with_register};

use std::marker::Model;

/// The 32 registers. Contracts see the list of the words that they hold.
#[derive(Debug, Drop)]
pub struct Registers {
    words: [u32; 32],
}

impl Model for Registers {
    ghost use Rattle.std.specs.Prelude.{List, ℕ, ◌≡◌, length};

    ghost Value = { List ℕ };

    ghost view = { λ r. r.words };

    ghost invariant = { λ r. length r.words ≡ 32 };
}

impl Registers {
    /// The registers at boot: all are 0.
    pub fn boot() -> Registers
        ensures { cells result ≡ boot_registers }
    {
        Registers { words: [0; 32] }
    }

    /// What a register holds; 0 where there is none of this number.
    pub fn get(&self, r: u8) -> u32
        ensures { result ≡ cells self.now r }
    {
        self.words.get(r as usize).copied().unwrap_or(0)
    }

    /// Writes a register. Where it is x0, or there is none of this number, nothing changes.
    pub fn set(&mut self, r: u8, value: u32)
        ensures { cells self.new ≡ with_register r value (cells self.old) }
    {
        if 0 < r && r < 32 {
            self.words[r as usize] = value;
        }
    }
}
