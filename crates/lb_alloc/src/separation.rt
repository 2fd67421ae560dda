// Whether places are apart wherever a variable is set, backwards over the tree.
ghost use Rattle.std.specs.Prelude.{◌≡◌, ◌↔◌, ℕ, ◌<◌, length, All, IfOk, OnOk, IsTrue};
ghost use Rattle.lb_flat.specs.Flat.{flat_command, flat_block};
ghost use Rattle.lb_flat.specs.Located.{place_of};
ghost use Rattle.lb_flat.specs.Order.{IsVariable};
ghost use Rattle.lb_alloc.specs.InternalSets.{IsLiveBeforeStep, IsLiveBefore, IsAlone, AreAllApart, TellsAllApart, NamesVariables};

use crate::liveness::{live_command, names_in_command};
use crate::step::step_of;
use crate::variables::VariableSet;
use lb_flat::{FlatBlock, FlatCmd, Place};
use std::alloc::{AllocError, Global};

// Whether no other variable of the set has this one's place.
fn is_alone(places: &[Place], behind: &VariableSet, variable: usize) -> bool
    requires variable { variable < length places.now }
    requires each { length places.now ≡ length behind.now }
    ensures { IsTrue result ↔ IsAlone (place_of places.now) behind.now variable }
{
    for x in 0..behind.len() {
        if behind.contains(x) && x != variable && places[x] == places[variable] {
            return false;
        }
    }
    true
}

/// Whether each of these variables, which are set at once, is alone in its place among those that
/// are live behind this.
pub fn are_apart(places: &[Place], sets: &[u32], behind: &VariableSet) -> bool
    requires sets { All (IsVariable (length behind.now)) sets.now }
    requires each { length places.now ≡ length behind.now }
    ensures { IsTrue result ↔ AreAllApart (place_of places.now) sets.now behind.now }
{
    for variable in sets {
        if !is_alone(places, behind, *variable as usize) {
            return false;
        }
    }
    true
}

// Whether places are apart at a step that reads and sets these; the set of live variables goes from
// behind the step to before it.
fn is_step_apart(places: &[Place], reads: &[u32], sets: &[u32], set: &mut VariableSet) -> bool
    requires reads { All (IsVariable (length set.old)) reads.now }
    requires sets { All (IsVariable (length set.old)) sets.now }
    requires each { length places.now ≡ length set.old }
    ensures apart { IsTrue result ↔ AreAllApart (place_of places.now) sets.now set.old }
    ensures live { IsLiveBeforeStep reads.now sets.now set.old set.new }
    ensures len { length set.new ≡ length set.old }
{
    let apart = are_apart(places, sets, set);
    set.step_back(reads, sets);
    apart
}

/// Whether places are apart at each setting of a command. The set goes from the variables that are
/// live behind the command to those before it.
#[cycle(apart)]
pub fn is_command_apart(
    alloc: Global,
    c: &FlatCmd,
    places: &[Place],
    set: &mut VariableSet,
) -> Result<bool, AllocError>
    requires names { NamesVariables (length set.old) (flat_command c.now) }
    requires each { length places.now ≡ length set.old }
    ensures apart { IfOk result (TellsAllApart places.now (flat_command c.now) set.old) }
    ensures live { OnOk result (IsLiveBefore (flat_command c.now) set.old set.new) }
    ensures len { length set.new ≡ length set.old }
{
    match c {
        FlatCmd::StackAlloc { target, body, .. } => {
            let inside = is_block_apart(alloc, body, places, set)?;
            let start = is_step_apart(places, &[], &[*target], set);
            Ok(start && inside)
        }
        FlatCmd::If { condition, yes, no } => {
            let mut first = set.copy(alloc)?;
            let in_yes = is_block_apart(alloc, yes, places, &mut first)?;
            let in_no = is_block_apart(alloc, no, places, set)?;
            set.join(&first);
            set.step_back_test(*condition);
            Ok(in_yes && in_no)
        }
        FlatCmd::While {
            before,
            condition,
            body,
        } => {
            let mut head = set.copy(alloc)?;
            live_command(alloc, c, &mut head)?;
            let mut round = head.copy(alloc)?;
            let in_body = is_block_apart(alloc, body, places, &mut round)?;
            set.join(&round);
            set.step_back_test(*condition);
            let in_head = is_block_apart(alloc, before, places, set)?;
            *set = head;
            Ok(in_head && in_body)
        }
        _ => {
            let step = step_of(c);
            Ok(is_step_apart(places, step.reads(), step.sets(), set))
        }
    }
}

/// The same of a block.
#[cycle(apart)]
pub fn is_block_apart(
    alloc: Global,
    block: &FlatBlock,
    places: &[Place],
    set: &mut VariableSet,
) -> Result<bool, AllocError>
    requires names { NamesVariables (length set.old) (flat_block block.now) }
    requires each { length places.now ≡ length set.old }
    ensures apart { IfOk result (TellsAllApart places.now (flat_block block.now) set.old) }
    ensures live { OnOk result (IsLiveBefore (flat_block block.now) set.old set.new) }
    ensures len { length set.new ≡ length set.old }
{
    let commands = block.commands.as_slice();
    let mut apart = true;
    let mut i = commands.len();
    while i > 0 {
        i -= 1;
        let Some(c) = commands.get(i) else {
            unreachable!()
        };
        names_in_command(commands, i, c, set.len());
        let here = is_command_apart(alloc, c, places, set)?;
        apart = here && apart;
    }
    Ok(apart)
}
