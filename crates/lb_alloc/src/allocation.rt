// Accepted places for the variables of a program.
ghost use Rattle.std.specs.Prelude.{◌≡◌, ◌↔◌, length, All, IfOk, IsTrue};
ghost use Rattle.lb_flat.specs.Flat.{flat_routine, flat_executable};
ghost use Rattle.lb_flat.specs.Order.{IsFlatInOrder, IsInRegister};
ghost use Rattle.lb_alloc.specs.Keeping.{IsAccepted};
ghost use Rattle.lb_alloc.specs.Registers.{FewHaveRegisters};
ghost use Rattle.lb_alloc.specs.InternalSets.{NamesItsOwn};
ghost use Rattle.lb_alloc.specs.InternalOwn.{own_place, AreOwnPlaces, IsServed, AreServed};

use crate::judgement::accepts_function;
use crate::proposal::propose;
use lb_flat::{
    FIRST_VARIABLE_REGISTER, FlatFunction, FlatProgram, FunctionPlaces, LAST_VARIABLE_REGISTER,
    Place, Places,
};
use sqlite_items::Items;
use std::alloc::{AllocError, Global};

/// How many registers there are for variables.
pub const VARIABLE_REGISTERS: u32 = (LAST_VARIABLE_REGISTER - FIRST_VARIABLE_REGISTER + 1) as u32;

// How many variables a function has at most for which better places are proposed than places of
// their own: an interference graph takes a truth value for each pair.
const MOST_PROPOSED: u32 = 2_000;

// How many variables a function has at most each of which is sure to have a register.
const FEW_VARIABLES: u32 = 8;

/// The place of this number, the registers before the slots; each number has another one.
pub fn own_place(number: u32) -> Place
    ensures { result ≡ own_place number }
{
    if number < VARIABLE_REGISTERS {
        Place::Register(FIRST_VARIABLE_REGISTER + number as u8)
    } else {
        Place::Slot(number - VARIABLE_REGISTERS)
    }
}

// A place of its own for each variable.
fn own_places(alloc: Global, variables: u32) -> Result<Vec<Place>, AllocError>
    ensures len { IfOk result (λ places. length places.items ≡ variables) }
    ensures own { IfOk result (λ places. AreOwnPlaces variables places.items) }
{
    let mut places = Vec::new(alloc);
    for x in 0..variables {
        places.push(own_place(x))?;
    }
    Ok(places)
}

fn is_register(place: Place) -> bool
    ensures { IsTrue result ↔ IsInRegister place }
{
    match place {
        Place::Register(_) => true,
        Place::Slot(_) => false,
    }
}

fn are_registers(places: &[Place]) -> bool
    ensures { IsTrue result ↔ All IsInRegister places.now }
{
    places.iter().all(|place| is_register(*place))
}

// Whether these places serve a function: they are accepted, and registers if there are few.
fn serves(alloc: Global, f: &FlatFunction, places: &[Place]) -> Result<bool, AllocError>
    requires { NamesItsOwn (flat_routine f.now) }
    ensures { IfOk result (λ yes. IsTrue yes ↔ IsServed f.now places.now) }
{
    if f.variables <= FEW_VARIABLES && !are_registers(places) {
        return Ok(false);
    }
    accepts_function(alloc, f, places)
}

// Places for a function.
fn allocate_function(alloc: Global, f: &FlatFunction) -> Result<FunctionPlaces, AllocError>
    requires { NamesItsOwn (flat_routine f.now) }
    ensures { IfOk result (λ p. IsServed f.now p.places) }
{
    if f.variables <= MOST_PROPOSED {
        let proposed = propose(alloc, f)?;
        if serves(alloc, f, proposed.as_slice())? {
            let places = Items::from_vec(proposed);
            return Ok(FunctionPlaces { places });
        }
    }
    let places = Items::from_vec(own_places(alloc, f.variables)?);
    Ok(FunctionPlaces { places })
}

// Places for each function.
fn allocate_functions(
    alloc: Global,
    flat: &FlatProgram,
) -> Result<Items<FunctionPlaces>, AllocError>
    requires { IsFlatInOrder (flat_executable flat.now) }
    ensures { IfOk result (λ lists. AreServed flat.now.functions lists) }
{
    let mut lists = Vec::new(alloc);
    for f in flat.functions.as_slice() {
        lists.push(allocate_function(alloc, f)?)?;
    }
    Ok(Items::from_vec(lists))
}

/// Accepted places for the variables of the program, which is in order. In a function of at most 8
/// variables each has a register. The only error is want of memory.
pub fn allocate(alloc: Global, flat: &FlatProgram) -> Result<Places, AllocError>
    requires { IsFlatInOrder (flat_executable flat.now) }
    ensures accepted { IfOk result (λ places. IsAccepted flat.now places) }
    ensures registers { IfOk result (λ places. FewHaveRegisters flat.now places) }
{
    let functions = allocate_functions(alloc, flat)?;
    Ok(Places { functions })
}
