// The placed form of a text's program, as lines to compare.
ghost use Rattle.lb_flat.specs.Flat.{flat_executable};
ghost use Rattle.lb_flat.specs.Order.{IsFlatInOrder};

use crate::doubling::doubled_variable;
use crate::print::print;
use lb_flat::FlatProgram;
use lb_program_testkit::{NoProgram, chosen_places, flat_program};
use lb_spill::place;
use std::alloc::{AllocError, Global};
use std::process::Abort;

/// Why there is no answer.
#[derive(Clone, Copy, Debug, PartialEq, Eq)]
pub enum NoAnswer {
    /// There is no program.
    Program(NoProgram),
    /// There are not so many registers.
    Registers,
    /// No memory is left.
    Memory,
}

impl From<NoProgram> for NoAnswer {
    fn from(reason: NoProgram) -> Self {
        NoAnswer::Program(reason)
    }
}

impl From<AllocError> for NoAnswer {
    fn from(_: AllocError) -> Self {
        NoAnswer::Memory
    }
}

// The most registers.
const MOST_REGISTERS: u32 = 12;

/// Asserts that the text's program becomes this, where in each function the variables from `from`
/// on and below `to` have registers, and the others slots.
pub fn expect(
    rt: &impl Abort,
    alloc: Global,
    text: &str,
    (from, to): (u32, u32),
    want: &str,
) -> Result<(), NoAnswer> {
    let flat = flat_program(alloc, text.as_bytes())?;
    let lines = placed_lines(alloc, &flat, from, to)?;
    assert_eq!(rt; lines.as_str(), want, "of {text} with {from} to {to}");
    Ok(())
}

/// The same of a program whose `init` doubles a variable in one command.
pub fn expect_doubled(
    rt: &impl Abort,
    alloc: Global,
    (from, to): (u32, u32),
    want: &str,
) -> Result<(), NoAnswer> {
    let flat = doubled_variable(alloc)?;
    let lines = placed_lines(alloc, &flat, from, to)?;
    assert_eq!(rt; lines.as_str(), want, "with {from} to {to}");
    Ok(())
}

// The placed form of a program.
fn placed_lines(alloc: Global, flat: &FlatProgram, from: u32, to: u32) -> Result<String, NoAnswer>
    requires { IsFlatInOrder (flat_executable flat.now) }
{
    if to > MOST_REGISTERS {
        return Err(NoAnswer::Registers);
    }
    let places = chosen_places(alloc, flat, from, to)?;
    Ok(print(alloc, &place(alloc, flat, &places)?)?)
}
