// Compiled code.
ghost use Rattle.std.specs.Prelude.{◌≡◌};

use lb_syntax::Layout;
use std::marker::Model;

/// The words of a program's code, in order. Contracts see the list of them.
#[derive(Debug, Drop)]
pub struct Code {
    words: Vec<u32>,
}

impl Model for Code {
    ghost use Rattle.std.specs.Prelude.{List, ℕ};

    ghost Value = { List ℕ };

    ghost view = { λ c. c.words.items };
}

impl Code {
    /// These words; it takes no memory.
    pub fn from_vec(words: Vec<u32>) -> Code
        ensures { result ≡ words.items }
    {
        Code { words }
    }

    /// The words.
    pub fn as_slice(&self) -> &[u32]
        ensures { result.now ≡ self.now }
    {
        &self.words
    }
}

/// Compiled code, with all that is needed to run it.
#[derive(Debug, Drop)]
pub struct Image {
    /// The words of the code, the first at address 0.
    pub code: Code,
    /// The frame of each function.
    pub layout: Layout,
    /// The byte address of the instruction that runs first.
    pub entry: u32,
}
