// Names of variables and functions.
ghost use Rattle.std.specs.Prelude.{◌≡◌, ◌↔◌, IfOk, IsErrOf, IsTrue};
ghost use Rattle.std.specs.List.{list_all, list_any};
ghost use Rattle.std.specs.Str.{bytes_eq};
ghost use Rattle.lb_syntax.specs.Names.{IsName, is_name, is_name_start, starts_name, is_name_byte, is_reserved};

use std::alloc::{AllocError, Global};
use std::marker::Model;

/// Why there is no name.
#[derive(Clone, Copy, Debug, PartialEq, Eq)]
pub enum NameFault {
    /// The bytes aren't a name.
    NotAName,
    /// No memory is left.
    Memory,
}

impl From<AllocError> for NameFault {
    ghost use Rattle.std.specs.Prelude.{◌≡◌};
    ghost use Rattle.lb_syntax.specs.declared.name.NameFault.TheVariants.{Memory};

    ghost from_gives = { λ _ e. e ≡ Memory };

    fn from(_: AllocError) -> Self {
        NameFault::Memory
    }
}

/// The name of a variable or a function: 1 to 32 letters, digits and underscores,
/// of which the first is no digit, and which together are no reserved word.
#[derive(Drop, Debug)]
pub struct Name {
    bytes: Vec<u8>,
}

impl Model for Name {
    ghost use Rattle.std.specs.Prelude.{List, ℕ};
    ghost use Rattle.lb_syntax.specs.Names.{IsName};

    ghost Value = { List ℕ };

    ghost view = { λ n. n.bytes.items };

    ghost invariant = { λ n. IsName n.bytes.items };
}

impl Name {
    /// The name that these bytes spell.
    pub fn new(alloc: Global, bytes: &[u8]) -> Result<Name, NameFault>
        ensures ok { IfOk result (λ name. name ≡ bytes.now) }
        ensures is_name { IfOk result (λ name. IsName bytes.now) }
        ensures not_a_name { IsErrOf result NameFault.NotAName → ¬ (IsName bytes.now) }
    {
        if !is_name(bytes) {
            return Err(NameFault::NotAName);
        }
        Ok(Name::of_spelling(alloc, bytes)?)
    }

    /// The name of bytes that are known to spell one, as those of a token are. `AllocError` comes where no memory is left.
    pub fn of_spelling(alloc: Global, bytes: &[u8]) -> Result<Name, AllocError>
        requires { IsName bytes.now }
        ensures { IfOk result (λ name. name ≡ bytes.now) }
    {
        let bytes = Vec::from_slice(alloc, bytes)?;
        Ok(Name { bytes })
    }

    /// The bytes that spell it.
    pub fn as_bytes(&self) -> &[u8]
        ensures value { result.now ≡ self.now }
        ensures is_name { IsName self.now }
    {
        self.bytes.as_slice()
    }

    /// Another one of the same bytes.
    pub fn copy(&self, alloc: Global) -> Result<Name, AllocError>
        ensures { IfOk result (λ name. name ≡ self.now) }
    {
        let bytes = Vec::from_slice(alloc, self.bytes.as_slice())?;
        Ok(Name { bytes })
    }
}

impl PartialEq for Name {
    ghost use Rattle.std.specs.Str.{bytes_eq};
    ghost use Rattle.std.proofs.Common.{rules};

    ghost eq = { bytes_eq };

    fn eq(&self, other: &Name) -> bool {
        self.bytes.as_slice() == other.bytes.as_slice()
    }

    ghost laws = { Prim.search rules };
}

impl Eq for Name {
    ghost use Rattle.std.proofs.Common.{rules};

    ghost laws = { Prim.search rules };
}

// Whether these bytes are a name.
fn is_name(bytes: &[u8]) -> bool
    ensures { result ≡ is_name bytes.now }
{
    if bytes.len() > 32 {
        return false;
    }
    if is_reserved(bytes) {
        return false;
    }
    starts_name(bytes) && are_name_bytes(bytes)
}

/// Whether they are letters, digits and underscores.
pub fn are_name_bytes(bytes: &[u8]) -> bool
    ensures { result ≡ list_all is_name_byte bytes.now }
{
    bytes.iter().all(|b| is_name_byte(*b))
}

/// Whether the first of them is a letter or an underscore.
pub fn starts_name(bytes: &[u8]) -> bool
    ensures { result ≡ starts_name bytes.now }
{
    match bytes {
        [] => false,
        [first, ..] => is_name_start(*first),
    }
}

fn is_name_start(b: u8) -> bool
    ensures { result ≡ is_name_start b }
{
    b.is_ascii_alphabetic() || b == b'_'
}

/// Whether it is a letter, a digit or an underscore.
pub fn is_name_byte(b: u8) -> bool
    ensures { result ≡ is_name_byte b }
{
    b.is_ascii_alphanumeric() || b == b'_'
}

// The words that are no names.
const RESERVED: [&[u8]; 16] = [
    b"fn",
    b"if",
    b"else",
    b"while",
    b"skip",
    b"unset",
    b"stackalloc",
    b"as",
    b"load1",
    b"load2",
    b"load4",
    b"store1",
    b"store2",
    b"store4",
    b"MMIOREAD",
    b"MMIOWRITE",
];

#[tactic(auto, unfolding(crate::specs::Names::is_reserved))]
fn is_reserved(bytes: &[u8]) -> bool
    ensures { result ≡ is_reserved bytes.now }
{
    is_among(&RESERVED, bytes)
}

// Whether one of these words has these bytes.
fn is_among(words: &[&[u8]], bytes: &[u8]) -> bool
    ensures { result ≡ list_any (λ word. bytes_eq word.now bytes.now) words.now }
{
    words.iter().any(|word| *word == bytes)
}
