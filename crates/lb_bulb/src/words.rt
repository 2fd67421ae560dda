// The names in the supplied program.
ghost use Rattle.std.specs.Prelude.{◌≡◌};
ghost use Rattle.lb_syntax.specs.Names.{IsName};
ghost use Rattle.lb_bulb.specs.InternalWords.{text_of};

use lb_builders::Spelled;
use lb_syntax::Name;
use std::alloc::{AllocError, Global};

/// A name in the supplied program, spelled as its bytes below say.
#[derive(Clone, Copy, Debug, PartialEq, Eq)]
pub enum Word {
    A,
    B,
    C,
    E,
    I,
    N,
    R,
    S,
    V,
    X,
    Bad,
    Buf,
    Len,
    Fine,
    SpiXchg,
    LanRead,
    LanWrite,
    Init,
    Loop,
}

// Its bytes.
fn bytes_of(word: Word) -> &'static [u8]
    ensures text { result.now ≡ text_of word }
{
    match word {
        Word::A => b"a",
        Word::B => b"b",
        Word::C => b"c",
        Word::E => b"e",
        Word::I => b"i",
        Word::N => b"n",
        Word::R => b"r",
        Word::S => b"s",
        Word::V => b"v",
        Word::X => b"x",
        Word::Bad => b"bad",
        Word::Buf => b"buf",
        Word::Len => b"len",
        Word::Fine => b"ok",
        Word::SpiXchg => b"spi_xchg",
        Word::LanRead => b"lan_read",
        Word::LanWrite => b"lan_write",
        Word::Init => b"init",
        Word::Loop => b"loop",
    }
}

// Its bytes, which are a name.
#[tactic(auto, using(crate::proofs::WordLemmas::word_is_name))]
fn name_bytes(word: Word) -> &'static [u8]
    ensures text { result.now ≡ text_of word }
    ensures is_name { IsName result.now }
{
    bytes_of(word)
}

impl Spelled for Word {
    ghost use Rattle.lb_bulb.specs.InternalWords.{text_of};

    ghost text = { text_of };

    fn name(self, alloc: Global) -> Result<Name, AllocError> {
        Name::of_spelling(alloc, name_bytes(self))
    }
}
