// Places for the variables of a flat program, which tell them all apart.
ghost use Rattle.std.specs.Prelude.{◌≡◌, ◌≤◌, map, IfOk};
ghost use Rattle.lb_flat.specs.Flat.{flat_routine, flat_executable};
ghost use Rattle.lb_flat.specs.Located.{lists_of};
ghost use Rattle.lb_flat.specs.Accepted.{AreAllAccepted};
ghost use Rattle.lb_flat.specs.Order.{IsFlatInOrder};
ghost use Rattle.lb_program_testkit.specs.Chosen.{chosen, first_chosen, all_chosen};

use lb_flat::{FlatFunction, FlatProgram, FunctionPlaces, Place, Places};
use sqlite_items::Items;
use std::alloc::{AllocError, Global};

/// Places for the variables of a program: those from `from` on and below `to` have registers, the
/// others have slots of their own numbers. Fails only for want of memory.
pub fn chosen_places(
    alloc: Global,
    flat: &FlatProgram,
    from: u32,
    to: u32,
) -> Result<Places, AllocError>
    requires in_order { IsFlatInOrder (flat_executable flat.now) }
    requires few { to ≤ 12 }
    ensures { IfOk result (λ places.
        AreAllAccepted (flat_executable flat.now).routines (lists_of places)) }
{
    let places = choose_all(alloc, flat.functions.as_slice(), from, to)?;
    Ok(places)
}

fn choose_all(
    alloc: Global,
    functions: &[FlatFunction],
    from: u32,
    to: u32,
) -> Result<Places, AllocError>
    requires { to ≤ 12 }
    ensures { IfOk result (λ places.
        lists_of places ≡ all_chosen from to (map flat_routine functions.now)) }
{
    let mut lists = Items::new(alloc);
    for f in functions {
        let places = choose_first(alloc, f.variables, from, to)?;
        lists.push(FunctionPlaces { places })?;
    }
    Ok(Places { functions: lists })
}

// The places of the first so many variables.
fn choose_first(alloc: Global, count: u32, from: u32, to: u32) -> Result<Items<Place>, AllocError>
    requires { to ≤ 12 }
    ensures { IfOk result (λ places. places ≡ first_chosen from to count) }
{
    let mut places = Items::new(alloc);
    for variable in 0..count {
        places.push(choose(from, to, variable))?;
    }
    Ok(places)
}

// The place of a variable.
fn choose(from: u32, to: u32, variable: u32) -> Place
    requires { to ≤ 12 }
    ensures { result ≡ chosen from to variable }
{
    if from <= variable && variable < to {
        Place::Register(18 + variable as u8)
    } else {
        Place::Slot(variable)
    }
}
