// From flat to placed programs.
ghost use Rattle.std.specs.Prelude.{◌≡◌, map, IfOk};
ghost use Rattle.std.specs.List.{AllByRecursion};
ghost use Rattle.lb_flat.specs.Flat.{flat_routine, flat_executable};
ghost use Rattle.lb_flat.specs.Placed.{placed_routine, placed_executable};
ghost use Rattle.lb_flat.specs.Located.{lists_of};
ghost use Rattle.lb_flat.specs.Accepted.{AreAccepted, AreAllAccepted};
ghost use Rattle.lb_flat.specs.Order.{IsFlatInOrder, IsPlacedInOrder};
ghost use Rattle.lb_spill.specs.InternalSpill.{spilled, all_spilled, spilled_executable, NamesOwn};
ghost use Rattle.lb_spill.specs.Placing.{HasLocatedRuns, HasFlatRuns, AllAskNoMore};
ghost use Rattle.lb_spill.specs.Placing.{AllUseFewSlots, IsLeanInRegisters};

use crate::code::place_block;
use crate::slots::{places_of, slots_of};
use lb_flat::{
    FlatFunction, FlatProgram, FunctionPlaces, Place, PlacedFunction, PlacedProgram, Places,
};
use sqlite_items::Items;
use std::alloc::{AllocError, Global};

/// The placed form of a flat program that is in order, with accepted places for its variables.
///
/// For every layout of the stack, every number of turns and all replies, it has the same trace and
/// end as the flat program, with its variables in these places and without, wherever that does
/// nothing undefined. It is in order. Function by function it asks for no more slots, words and
/// bytes of a frame than the flat program, has the same stack blocks, calls the same functions in
/// the same order, and has as many parameters, results, loads, stores, accesses, arguments and
/// targets. It has as few slots as its places allow. A function whose variables all have registers
/// has no slot, and moves nothing from or to one. `init` and `loop` keep their numbers. Fails only
/// for want of memory.
pub fn place(
    alloc: Global,
    flat: &FlatProgram,
    places: &Places,
) -> Result<PlacedProgram, AllocError>
    requires in_order { IsFlatInOrder (flat_executable flat.now) }
    requires accepted { AreAllAccepted (flat_executable flat.now).routines (lists_of places.now) }
    ensures located { IfOk result (λ placed.
        HasLocatedRuns (lists_of places.now) (flat_executable flat.now)
        (placed_executable placed)) }
    ensures keeps { IfOk result (λ placed.
        HasFlatRuns (flat_executable flat.now) (placed_executable placed)) }
    ensures in_order { IfOk result (λ placed. IsPlacedInOrder (placed_executable placed)) }
    ensures asks_no_more { IfOk result (λ placed.
        AllAskNoMore (flat_executable flat.now).routines (placed_executable placed).routines) }
    ensures registers { IfOk result (λ placed.
        AllUseFewSlots (lists_of places.now) (placed_executable placed).routines) }
    ensures lean { IfOk result (λ placed.
        IsLeanInRegisters (lists_of places.now) (flat_executable flat.now).routines
        (placed_executable placed).routines) }
    ensures init { IfOk result (λ placed. placed.init ≡ flat.now.init) }
    ensures again { IfOk result (λ placed. placed.again ≡ flat.now.again) }
{
    let placed = place_program(alloc, flat, places)?;
    Ok(placed)
}

// The placed form of a program whose functions name their own variables.
fn place_program(
    alloc: Global,
    flat: &FlatProgram,
    places: &Places,
) -> Result<PlacedProgram, AllocError>
    requires names { AllByRecursion NamesOwn (flat_executable flat.now).routines }
    requires accepted { AreAllAccepted (flat_executable flat.now).routines (lists_of places.now) }
    ensures { IfOk result (λ placed. placed_executable placed
        ≡ spilled_executable (flat_executable flat.now) (lists_of places.now)) }
{
    let functions = place_functions(
        alloc,
        flat.functions.as_slice(),
        places.functions.as_slice(),
    )?;
    Ok(PlacedProgram {
        functions,
        init: flat.init,
        again: flat.again,
    })
}

// The placed forms of these functions, in order.
fn place_functions(
    alloc: Global,
    functions: &[FlatFunction],
    lists: &[FunctionPlaces],
) -> Result<Items<PlacedFunction>, AllocError>
    requires names { AllByRecursion NamesOwn (map flat_routine functions.now) }
    requires accepted { AreAllAccepted (map flat_routine functions.now)
        (map (λ (f : FunctionPlaces). f.places) lists.now) }
    ensures { let places = map (λ (f : FunctionPlaces). f.places) lists.now in
        IfOk result (λ made.
        map placed_routine made ≡ all_spilled (map flat_routine functions.now) places) }
{
    let mut made = Items::new(alloc);
    for (i, f) in functions.iter().enumerate() {
        let Some(list) = lists.get(i) else {
            unreachable!()
        };
        made.push(place_function(alloc, f, list.places.as_slice())?)?;
    }
    Ok(made)
}

// The placed form of a function, for these places of its variables.
fn place_function(
    alloc: Global,
    f: &FlatFunction,
    places: &[Place],
) -> Result<PlacedFunction, AllocError>
    requires names { NamesOwn (flat_routine f.now) }
    requires accepted { AreAccepted (flat_routine f.now) places.now }
    ensures { IfOk result (λ made. placed_routine made ≡ spilled (flat_routine f.now) places.now) }
{
    Ok(PlacedFunction {
        slots: slots_of(places, f.variables),
        params: places_of(alloc, places, f.params.as_slice())?,
        results: places_of(alloc, places, f.results.as_slice())?,
        body: place_block(&f.body, alloc, places)?,
    })
}
