// Sets of a function's variables.
ghost use Rattle.std.specs.Prelude.{◌≡◌, ℕ, false, ◌<◌, ◌||◌, ◌&&◌, not, [], ◌∷◌, length, replicate, All, IfOk};
ghost use Rattle.lb_flat.specs.Order.{IsVariable};
ghost use Rattle.lb_flat.specs.Walks.{among};
ghost use Rattle.lb_alloc.specs.InternalSets.{has, IsLiveBeforeStep};

use std::alloc::{AllocError, Global};
use std::marker::Model;

/// A set of variables: for each variable of the function whether it is in.
#[derive(Drop)]
pub struct VariableSet {
    bits: Vec<bool>,
}

impl Model for VariableSet {
    ghost use Rattle.std.specs.Prelude.{List, Bool};

    ghost Value = { List Bool };

    ghost view = { λ s. s.bits.items };
}

impl VariableSet {
    /// The empty set, among so many variables.
    pub fn none(alloc: Global, variables: usize) -> Result<VariableSet, AllocError>
        ensures { IfOk result (λ set. set ≡ replicate variables false) }
    {
        let bits = vec![in alloc; false; variables]?;
        Ok(VariableSet { bits })
    }

    /// The same set.
    pub fn copy(&self, alloc: Global) -> Result<VariableSet, AllocError>
        ensures { IfOk result (λ set. set ≡ self.now) }
    {
        let bits = Vec::from_slice(alloc, self.bits.as_slice())?;
        Ok(VariableSet { bits })
    }

    /// How many variables there are, in or out.
    pub fn len(&self) -> usize
        ensures { result ≡ length self.now }
    {
        self.bits.len()
    }

    /// Whether the variable is in.
    pub fn contains(&self, variable: usize) -> bool
        ensures { result ≡ has self.now variable }
    {
        match self.bits.get(variable) {
            Some(bit) => *bit,
            None => false,
        }
    }

    /// Puts the variable in, if it is there.
    pub fn insert(&mut self, variable: usize) {
        if let Some(bit) = self.bits.get_mut(variable) {
            *bit = true;
        }
    }

    /// Puts in what another set of the same variables has.
    pub fn join(&mut self, other: &VariableSet)
        requires { length other.now ≡ length self.old }
        ensures bits { (x : ℕ) → has self.new x ≡ (has other.now x || has self.old x) }
        ensures len { length self.new ≡ length self.old }
    {
        join_bits(self.bits.as_mut_slice(), other.bits.as_slice());
    }

    /// From the variables that are live behind a test of this one to those before it.
    pub fn step_back_test(&mut self, condition: u32)
        requires { IsVariable (length self.old) condition }
        ensures bits { IsLiveBeforeStep (condition ∷ []) [] self.old self.new }
        ensures len { length self.new ≡ length self.old }
    {
        add_all(self.bits.as_mut_slice(), &[condition]);
    }

    /// From the variables that are live behind a step that reads and sets these to those before it.
    pub fn step_back(&mut self, reads: &[u32], sets: &[u32])
        requires reads { All (IsVariable (length self.old)) reads.now }
        requires sets { All (IsVariable (length self.old)) sets.now }
        ensures bits { IsLiveBeforeStep reads.now sets.now self.old self.new }
        ensures len { length self.new ≡ length self.old }
    {
        let bits = self.bits.as_mut_slice();
        remove_all(bits, sets);
        add_all(bits, reads);
    }
}

fn remove_all(set: &mut [bool], variables: &[u32])
    requires { All (IsVariable (length set.old)) variables.now }
    ensures { (x : ℕ) → has set.new x ≡ (not (among variables.now x) && has set.old x) }
{
    for x in variables {
        set[*x as usize] = false;
    }
}

fn add_all(set: &mut [bool], variables: &[u32])
    requires { All (IsVariable (length set.old)) variables.now }
    ensures { (x : ℕ) → has set.new x ≡ (among variables.now x || has set.old x) }
{
    for x in variables {
        set[*x as usize] = true;
    }
}

fn join_bits(set: &mut [bool], other: &[bool])
    requires { length other.now ≡ length set.old }
    ensures { (x : ℕ) → has set.new x ≡ (has other.now x || has set.old x) }
{
    for i in 0..set.len() {
        if other[i] {
            set[i] = true;
        }
    }
}
