// The program of a seed.
ghost use Rattle.std.specs.Prelude.{◌≡◌, IfOk, map};
ghost use Rattle.lb_syntax.specs.Tree.{procedure_of, program_of};
ghost use Rattle.lb_draws.specs.Draws.{draw};
ghost use Rattle.lb_gen.specs.Made.{init_function, loop_function, made};
ghost use Rattle.lb_gen.specs.InternalDraws.{AreDrawn};

use crate::drawn::draw_function;
use crate::function::{call, numbered_function};
use crate::words::Word;
use lb_builders::{Spelled, number, one};
use lb_check::{CheckError, Checked, check};
use lb_draws::Draws;
use lb_syntax::{Cmd, Function, Program};
use sqlite_items::Items;
use std::alloc::{AllocError, Global};

// How many functions have numbers.
const NUMBERED: u32 = 64;

// The functions of the numbers 0 to 63, behind whose draws the stream stands then.
fn numbered_functions(alloc: Global, draws: &mut Draws) -> Result<Items<Function>, AllocError>
    ensures { IfOk result (λ fs. AreDrawn draws.old draws.new 64 (map procedure_of fs)) }
{
    let mut functions = Items::new(alloc);
    for number in 0..NUMBERED {
        let drawn = draw_function(draws);
        functions.push(numbered_function(alloc, number, &drawn)?)?;
    }
    Ok(functions)
}

// `fn init() { r = f63(first, second); }`.
fn init_function(alloc: Global, first: u32, second: u32) -> Result<Function, AllocError>
    ensures { IfOk result (λ f. procedure_of f ≡ init_function first second) }
{
    let name = Word::Init.name(alloc)?;
    let body = one(alloc, call(alloc, NUMBERED - 1, number(first), second)?)?;
    Ok(Function {
        name,
        params: Items::new(alloc),
        results: Items::new(alloc),
        body,
    })
}

// `fn loop() { skip; }`.
fn loop_function(alloc: Global) -> Result<Function, AllocError>
    ensures { IfOk result (λ f. procedure_of f ≡ loop_function) }
{
    let name = Word::Loop.name(alloc)?;
    let body = one(alloc, Cmd::Skip)?;
    Ok(Function {
        name,
        params: Items::new(alloc),
        results: Items::new(alloc),
        body,
    })
}

/// The large program that a seed makes, of the draws of its stream for worker 0. `AllocError` comes
/// where no memory is left.
pub fn large_program(alloc: Global, seed: u32) -> Result<Program, AllocError>
    ensures tree { IfOk result (λ p. program_of p ≡ made (draw seed 0)) }
{
    let mut draws = Draws::new(seed, 0);
    let mut functions = numbered_functions(alloc, &mut draws)?;
    let first = draws.next();
    let second = draws.next();
    functions.push(init_function(alloc, first, second)?)?;
    functions.push(loop_function(alloc)?)?;
    Ok(Program { functions })
}

/// The same program, checked: it keeps the rules, whatever the seed is. `AllocError` comes where no
/// memory is left.
pub fn checked_program(alloc: Global, seed: u32) -> Result<Checked, AllocError>
    ensures tree { IfOk result (λ p. program_of p ≡ made (draw seed 0)) }
{
    let program = large_program(alloc, seed)?;
    match check(alloc, program) {
        Ok(checked) => Ok(checked),
        Err(CheckError::Memory) => Err(AllocError),
        Err(CheckError::Fault(_)) => unreachable!(),
    }
}
