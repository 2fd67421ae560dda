// Which registers a function sets, and whether it calls.
ghost use Rattle.std.specs.Prelude.{◌≡◌};
ghost use Rattle.lb_flat.specs.Calls.{callees};
ghost use Rattle.lb_flat.specs.Placed.{placed_block, placed_command, placed_routine};
ghost use Rattle.lb_emit_laws.specs.Frames.{sets_in, sets_in_places, sets_in_routine};
ghost use Rattle.lb_emit.specs.InternalFrame.{is_any};

use lb_flat::{Place, PlacedBlock, PlacedCmd, PlacedFunction};

/// Whether a function may set the register.
pub fn function_sets(f: &PlacedFunction, register: u8) -> bool
    ensures { result ≡ sets_in_routine (placed_routine f.now) register }
{
    places_have(f.params.as_slice(), register) || block_sets(&f.body, register)
}

// Whether one of the places is the register.
fn places_have(places: &[Place], register: u8) -> bool
    ensures { result ≡ sets_in_places places.now register }
{
    for place in places {
        if let Place::Register(other) = *place {
            if other == register {
                return true;
            }
        }
    }
    false
}

// Whether a block may set the register.
#[cycle(sets)]
fn block_sets(block: &PlacedBlock, register: u8) -> bool
    ensures { result ≡ sets_in (placed_block block.now) register }
{
    for c in block.commands.as_slice() {
        if command_sets(c, register) {
            return true;
        }
    }
    false
}

// Whether a command may.
#[cycle(sets)]
fn command_sets(c: &PlacedCmd, register: u8) -> bool
    ensures { result ≡ sets_in (placed_command c.now) register }
{
    match c {
        PlacedCmd::Literal { target, .. } => *target == register,
        PlacedCmd::Assign { target, .. } => *target == register,
        PlacedCmd::Binary { target, .. } => *target == register,
        PlacedCmd::Load { target, .. } => *target == register,
        PlacedCmd::GetSlot { register: set, .. } => *set == register,
        PlacedCmd::Store { .. } | PlacedCmd::PutSlot { .. } => false,
        PlacedCmd::StackAlloc { target, body, .. } => {
            *target == register || block_sets(body, register)
        }
        PlacedCmd::If { yes, no, .. } => block_sets(yes, register) || block_sets(no, register),
        PlacedCmd::While { before, body, .. } => {
            block_sets(before, register) || block_sets(body, register)
        }
        PlacedCmd::Call { targets, .. } => places_have(targets.as_slice(), register),
        PlacedCmd::Interact { targets, .. } => places_have(targets.as_slice(), register),
    }
}

/// Whether a block calls a function.
#[cycle(calls)]
#[tactic(auto, using(crate::proofs::CallLemmas::any_both))]
pub fn block_calls(block: &PlacedBlock) -> bool
    ensures { result ≡ is_any (callees (placed_block block.now)) }
{
    for c in block.commands.as_slice() {
        if command_calls(c) {
            return true;
        }
    }
    false
}

// Whether a command does.
#[cycle(calls)]
#[tactic(auto, using(crate::proofs::CallLemmas::any_both))]
fn command_calls(c: &PlacedCmd) -> bool
    ensures { result ≡ is_any (callees (placed_command c.now)) }
{
    match c {
        PlacedCmd::Call { .. } => true,
        PlacedCmd::StackAlloc { body, .. } => block_calls(body),
        PlacedCmd::If { yes, no, .. } => block_calls(yes) || block_calls(no),
        PlacedCmd::While { before, body, .. } => block_calls(before) || block_calls(body),
        _ => false,
    }
}
