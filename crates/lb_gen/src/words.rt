// The names in a large program.
ghost use Rattle.std.specs.Prelude.{◌≡◌, ◌<◌, IfOk};
ghost use Rattle.lb_syntax.specs.Names.{IsName};
ghost use Rattle.lb_gen.specs.Made.{function_name};
ghost use Rattle.lb_gen.specs.InternalParts.{text_of};

use lb_builders::Spelled;
use lb_syntax::Name;
use std::alloc::{AllocError, Global};

/// A name that is no numbered function's, spelled as its bytes below say.
#[derive(Clone, Copy, Debug, PartialEq, Eq)]
pub enum Word {
    A,
    B,
    I,
    R,
    Init,
    Loop,
}

// Its bytes.
fn bytes_of(word: Word) -> &'static [u8]
    ensures text { result.now ≡ text_of word }
{
    match word {
        Word::A => b"a",
        Word::B => b"b",
        Word::I => b"i",
        Word::R => b"r",
        Word::Init => b"init",
        Word::Loop => b"loop",
    }
}

// Its bytes, which are a name.
#[tactic(auto, using(crate::proofs::NameLemmas::word_is_name))]
fn name_bytes(word: Word) -> &'static [u8]
    ensures text { result.now ≡ text_of word }
    ensures is_name { IsName result.now }
{
    bytes_of(word)
}

impl Spelled for Word {
    ghost use Rattle.lb_gen.specs.InternalParts.{text_of};

    ghost text = { text_of };

    fn name(self, alloc: Global) -> Result<Name, AllocError> {
        Name::of_spelling(alloc, name_bytes(self))
    }
}

/// The name of the function of a number.
#[tactic(auto, using(crate::proofs::NameLemmas::bytes_are_named))]
pub fn function_name(alloc: Global, number: u32) -> Result<Name, AllocError>
    requires { number < 64 }
    ensures { IfOk result (λ n. n ≡ function_name number) }
{
    let text = format!(in alloc; "f{number}")?;
    Name::of_spelling(alloc, text.as_bytes())
}
