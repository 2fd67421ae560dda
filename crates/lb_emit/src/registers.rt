// The registers that the code has for itself, by their numbers. Those of placed code are lb_flat's.
ghost use Rattle.std.specs.Prelude.{◌≡◌};
ghost use Rattle.lb_emit_laws.specs.Code as laws;

use lb_flat::Place;

/// The register that is 0.
pub const ZERO: u8 = 0;

/// The address to return to.
pub const LINK: u8 = 1;

/// The stack pointer.
pub const STACK: u8 = 2;

/// A part of an address or a size, for an instruction or two.
pub const TEMPORARY: u8 = 5;

/// The first of the registers in which arguments and results pass, in order.
pub const FIRST_PASSED: u8 = 10;

/// The second of them.
pub const SECOND_PASSED: u8 = 11;

/// The register that has the value of a place: its own, or this one where the place is a slot.
pub fn value_register(spare: u8, place: Place) -> u8
    ensures { result ≡ laws.value_register spare place }
{
    match place {
        Place::Register(register) => register,
        Place::Slot(_) => spare,
    }
}
