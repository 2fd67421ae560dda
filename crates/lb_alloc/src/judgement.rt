// Whether places are accepted.
ghost use Rattle.std.specs.Prelude.{◌≡◌, ◌↔◌, ℕ, length, map, All, IfOk, IsTrue};
ghost use Rattle.lb_flat.specs.Flat.{flat_routine, flat_executable};
ghost use Rattle.lb_flat.specs.Accepted.{MayHold, AreAccepted};
ghost use Rattle.lb_flat.specs.Order.{IsFlatInOrder};
ghost use Rattle.lb_alloc.specs.Keeping.{IsAccepted, KeepsRuns, KeepsAcrossCalls};
ghost use Rattle.lb_alloc.specs.InternalSets.{TellsApartIn, NamesItsOwn};

use crate::separation::{are_apart, is_block_apart};
use crate::variables::VariableSet;
use lb_flat::{
    FIRST_VARIABLE_REGISTER, FlatFunction, FlatProgram, LAST_VARIABLE_REGISTER, Place, Places,
};
use std::alloc::{AllocError, Global};

// Whether this may be the place of a variable of a function with so many.
fn may_hold(place: Place, variables: u32) -> bool
    ensures { IsTrue result ↔ MayHold variables place }
{
    match place {
        Place::Register(r) => FIRST_VARIABLE_REGISTER <= r && r <= LAST_VARIABLE_REGISTER,
        Place::Slot(s) => s < variables,
    }
}

fn may_all_hold(places: &[Place], variables: u32) -> bool
    ensures { IsTrue result ↔ All (MayHold variables) places.now }
{
    places.iter().all(|place| may_hold(*place, variables))
}

// Whether places are apart in a function.
fn is_function_apart(alloc: Global, f: &FlatFunction, places: &[Place]) -> Result<bool, AllocError>
    requires names { NamesItsOwn (flat_routine f.now) }
    requires each { length places.now ≡ f.now.variables }
    ensures { IfOk result (TellsApartIn places.now (flat_routine f.now)) }
{
    let mut set = VariableSet::none(alloc, places.len())?;
    set.step_back(f.results.as_slice(), &[]);
    let inside = is_block_apart(alloc, &f.body, places, &mut set)?;
    let start = are_apart(places, f.params.as_slice(), &set);
    Ok(start && inside)
}

/// Whether places are accepted for a function.
pub fn accepts_function(
    alloc: Global,
    f: &FlatFunction,
    places: &[Place],
) -> Result<bool, AllocError>
    requires { NamesItsOwn (flat_routine f.now) }
    ensures { IfOk result (λ yes. IsTrue yes ↔ AreAccepted (flat_routine f.now) places.now) }
{
    if places.len() != f.variables as usize {
        return Ok(false);
    }
    if !may_all_hold(places, f.variables) {
        return Ok(false);
    }
    is_function_apart(alloc, f, places)
}

// Whether places are accepted for each function, and are there for no more.
fn accepts_functions(alloc: Global, flat: &FlatProgram, places: &Places) -> Result<bool, AllocError>
    requires { IsFlatInOrder (flat_executable flat.now) }
    ensures { IfOk result (λ yes. IsTrue yes ↔ IsAccepted flat.now places.now) }
{
    let functions = flat.functions.as_slice();
    let lists = places.functions.as_slice();
    if functions.len() != lists.len() {
        return Ok(false);
    }
    for (i, f) in functions.iter().enumerate() {
        let Some(list) = lists.get(i) else {
            unreachable!()
        };
        if !accepts_function(alloc, f, list.places.as_slice())? {
            return Ok(false);
        }
    }
    Ok(true)
}

/// Whether the places are accepted for the program, which is in order: each variable of each function
/// has one place, a register for variables or a slot numbered below the function's number of
/// variables; and whenever a command or the start of a function sets a variable, no other one that is
/// live after this has its place. With accepted places the program keeps its trace and its end if it
/// does nothing undefined, and a variable that lives across a call keeps its value. The only error is
/// want of memory.
pub fn accepts(alloc: Global, flat: &FlatProgram, places: &Places) -> Result<bool, AllocError>
    requires { IsFlatInOrder (flat_executable flat.now) }
    ensures accepted { IfOk result (λ yes. IsTrue yes ↔ IsAccepted flat.now places.now) }
    ensures keeps { IfOk result (λ yes. IsTrue yes → KeepsRuns flat.now places.now) }
    ensures across { IfOk result (λ yes. IsTrue yes → KeepsAcrossCalls flat.now places.now) }
{
    accepts_functions(alloc, flat, places)
}
