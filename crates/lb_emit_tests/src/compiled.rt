// The machine code of a text's program.
ghost use Rattle.std.specs.Prelude.{map, IfOk};
ghost use Rattle.lb_isa.specs.Runs.{IsBootable};
ghost use Rattle.lb_flat.specs.Accepted.{AreAllAccepted};
ghost use Rattle.lb_flat.specs.Flat.{flat_executable};
ghost use Rattle.lb_flat.specs.Located.{lists_of};
ghost use Rattle.lb_flat.specs.Order.{IsFlatInOrder};

use lb_alloc::allocate;
use lb_emit::{Emitted, emit};
use lb_flat::{FlatProgram, Places};
use lb_program_testkit::{NoProgram, chosen_places, flat_program};
use lb_spill::place;
use std::alloc::{AllocError, Global};

/// The code of the text's program, with places that are made for its variables.
pub fn compile(alloc: Global, text: &str) -> Result<Emitted, NoProgram>
    ensures { IfOk result (λ emitted. IsBootable emitted.code.items emitted.entry) }
{
    let flat = flat_program(alloc, text.as_bytes())?;
    let places = allocate(alloc, &flat)?;
    Ok(emit_placed(alloc, &flat, &places)?)
}

/// The code of the text's program, with a slot for each of its variables.
pub fn compile_in_slots(alloc: Global, text: &str) -> Result<Emitted, NoProgram>
    ensures { IfOk result (λ emitted. IsBootable emitted.code.items emitted.entry) }
{
    let flat = flat_program(alloc, text.as_bytes())?;
    let places = chosen_places(alloc, &flat, 0, 0)?;
    Ok(emit_placed(alloc, &flat, &places)?)
}

// The code of a flat program with its variables in these places.
#[tactic(auto, using(crate::proofs::Bootable::bootable))]
fn emit_placed(alloc: Global, flat: &FlatProgram, places: &Places) -> Result<Emitted, AllocError>
    requires in_order { IsFlatInOrder (flat_executable flat.now) }
    requires accepted { AreAllAccepted (flat_executable flat.now).routines (lists_of places.now) }
    ensures { IfOk result (λ emitted. IsBootable emitted.code.items emitted.entry) }
{
    let placed = place(alloc, flat, places)?;
    let emitted = emit(alloc, &placed)?;
    Ok(emitted)
}
