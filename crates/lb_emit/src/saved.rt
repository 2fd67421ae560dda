// The registers that a function saves.
ghost use Rattle.std.specs.Prelude.{◌≡◌, ◌++◌, IfOk, OnOk};
ghost use Rattle.lb_flat.specs.Placed.{placed_routine};
ghost use Rattle.lb_emit_laws.specs.Frames as laws;
ghost use Rattle.lb_emit.specs.InternalFrame.{one_if};

use crate::registers::LINK;
use crate::sets::{block_calls, function_sets};
use lb_flat::{FIRST_VARIABLE_REGISTER, PlacedFunction, SECOND_SCRATCH_REGISTER};
use sqlite_items::Items;
use std::alloc::{AllocError, Global};

/// The register with the address to return to, where the function calls, and each register of placed
/// code that it may set.
pub fn saved_registers(alloc: Global, f: &PlacedFunction) -> Result<Items<u8>, AllocError>
    ensures { IfOk result (λ saved. saved ≡ laws.saved_registers (placed_routine f.now)) }
{
    let mut saved = Items::new(alloc);
    push_if(&mut saved, LINK, block_calls(&f.body))?;
    for register in FIRST_VARIABLE_REGISTER..SECOND_SCRATCH_REGISTER + 1 {
        push_if(&mut saved, register, function_sets(f, register))?;
    }
    Ok(saved)
}

// One register more, if it is to be saved.
fn push_if(saved: &mut Items<u8>, register: u8, is_saved: bool) -> Result<(), AllocError>
    ensures { OnOk result (saved.new ≡ saved.old ++ one_if is_saved register) }
{
    if is_saved {
        saved.push(register)?;
    }
    Ok(())
}
