// The numbers of a function's variables.
ghost use Rattle.std.specs.Prelude.{◌≡◌, ◌<◌, ◌^◌, length};
ghost use Rattle.lb_syntax.specs.Names.{IsName};
ghost use Rattle.lb_flat.specs.Flattened.{place_in};

use lb_syntax::Name;
use std::alloc::{AllocError, Global};
use std::collections::BTreeMap;
use std::marker::Model;

/// Names, each once, in the order in which they come first. The number of each is its place.
#[derive(Drop)]
pub struct VariableNumbers<'a> {
    names: Vec<&'a [u8]>,
    numbers: BTreeMap<&'a [u8], usize>,
}

impl<'a> Model for VariableNumbers<'a> {
    ghost use Rattle.std.specs.Prelude.{List, map};
    ghost use Rattle.lb_syntax.specs.Names.{Text};
    ghost use Rattle.lb_flat.specs.InternalFlatten.{texts_of, AreTheirNumbers};

    ghost Value = { List Text };

    ghost view = { λ v. texts_of v.names.items };

    ghost invariant = { λ v. AreTheirNumbers v.numbers (texts_of v.names.items) };
}

impl<'a> VariableNumbers<'a> {
    ghost use Rattle.std.specs.Prelude.{◌≡◌, ◌<◌, ◌^◌, length, IfOk};
    ghost use Rattle.lb_syntax.specs.Names.{IsName, Text, is_among, AreDistinct};
    ghost use Rattle.lb_flat.specs.Flattened.{place_in};

    /// The numbers of these names.
    #[tactic(auto, using(crate::proofs::NumberLemmas::just_more, crate::proofs::NumberLemmas::just_same, crate::proofs::NumberLemmas::numbers_more))]
    pub fn new(alloc: Global, names: &'a [Name]) -> Result<VariableNumbers<'a>, AllocError>
        ensures distinct { IfOk result (λ made. AreDistinct made) }
        ensures same { IfOk result (λ made.
            (x : Text) → is_among made x ≡ is_among names.entry.now x) }
    {
        let mut made = Vec::new(alloc);
        let mut numbers = BTreeMap::new(alloc);
        for name in names {
            let bytes = name.as_bytes();
            if !numbers.contains_key(bytes) {
                numbers.insert(bytes, made.len())?;
                made.push(bytes)?;
            }
        }
        Ok(VariableNumbers {
            names: made,
            numbers,
        })
    }

    /// How many names there are.
    pub fn len(&self) -> usize
        ensures { result ≡ length self.now }
    {
        self.names.len()
    }

    /// The number of a name; how many there are for one that isn't there.
    pub fn number(&self, name: &Name) -> u32
        requires { length self.now < 2 ^ 32 }
        ensures value { result ≡ place_in self.now name.now }
        ensures is_name { IsName name.now }
    {
        match self.numbers.get(name.as_bytes()) {
            Some(number) => *number as u32,
            None => self.names.len() as u32,
        }
    }
}
