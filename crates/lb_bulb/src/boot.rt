// The function `init`: the pins are set, and the network chip is waited for and told to receive.
ghost use Rattle.std.specs.Prelude.{◌≡◌, IfOk, OnOk};
ghost use Rattle.lb_syntax.specs.Tree.{Number, Sets, term_of, command_of, block_of, procedure_of};
ghost use Rattle.lb_builders.specs.Added.{AreAdded};
ghost use Rattle.lb_bulb.specs.InternalParts.{waiting};
ghost use Rattle.lb_bulb.specs.Supplied.{bad_, is_vain, until, until_turn};
ghost use Rattle.lb_bulb.specs.Supplied.{init_body, init_procedure};

use crate::term::shifted;
use crate::transaction::{read_in, write_out};
use crate::waits::{all_turns, count_down, goes_on, stands_still};
use crate::words::Word;
use lb_builders::{Spelled, add, block, number, operation, repeats, set, variable, write_register};
use lb_syntax::{Block, Cmd, Expr, Function, Op};
use sqlite_items::Items;
use std::alloc::{AllocError, Global};

/// `bad = 1;`.
pub fn now_bad(alloc: Global) -> Result<Cmd, AllocError>
    ensures { IfOk result (λ c. command_of c ≡ Sets bad_ (Number 1)) }
{
    set(alloc, Word::Bad, number(1))
}

// `((v == 0x87654321) == 0)`.
fn vain(alloc: Global) -> Result<Expr, AllocError>
    ensures { IfOk result (λ e. term_of e ≡ is_vain) }
{
    let found = operation(
        alloc,
        Op::Eq,
        variable(alloc, Word::V)?,
        number(0x8765_4321),
    )?;
    operation(alloc, Op::Eq, found, number(0))
}

// A register is read, and this value says whether in vain.
fn until_turn(alloc: Global, address: u32, flag: Expr) -> Result<Block, AllocError>
    ensures { IfOk result (λ b. block_of b ≡ until_turn address (term_of flag)) }
{
    let mut commands = Items::new(alloc);
    add(&mut commands, read_in(alloc, Word::V, address)?)?;
    add(&mut commands, set(alloc, Word::Bad, flag)?)?;
    add(&mut commands, count_down(alloc)?)?;
    Ok(block(commands))
}

// The register is read until it wasn't in vain.
fn until(alloc: Global, address: u32, flag: Expr) -> Result<Cmd, AllocError>
    ensures { IfOk result (λ c. command_of c ≡ until address (term_of flag)) }
{
    let body = until_turn(alloc, address, flag)?;
    let condition = goes_on(alloc, variable(alloc, Word::Bad)?)?;
    Ok(repeats(condition, body))
}

// A register is waited for, at most 1,000 times; after that nothing more happens.
fn wait(
    alloc: Global,
    commands: &mut Items<Cmd>,
    address: u32,
    flag: Expr,
) -> Result<(), AllocError>
    ensures { OnOk result (AreAdded commands.old commands.new (waiting address (term_of flag))) }
{
    add(commands, all_turns(alloc)?)?;
    add(commands, now_bad(alloc)?)?;
    add(commands, until(alloc, address, flag)?)?;
    add(commands, stands_still(alloc, Word::Bad)?)
}

// The body of `init`.
fn init_body(alloc: Global) -> Result<Block, AllocError>
    ensures { IfOk result (λ b. block_of b ≡ init_body) }
{
    let mut commands = Items::new(alloc);
    add(
        &mut commands,
        write_register(alloc, 0x1001_2038, number(0x3C))?,
    )?;
    add(
        &mut commands,
        write_register(alloc, 0x1001_2008, number(0x80_0000))?,
    )?;
    wait(alloc, &mut commands, 0x64, vain(alloc)?)?;
    add(&mut commands, write_out(alloc, 0x74, 0x10_0000)?)?;
    add(&mut commands, write_out(alloc, 0xA8, 12)?)?;
    add(&mut commands, write_out(alloc, 0xA4, 0x8000_0001)?)?;
    wait(alloc, &mut commands, 0xA4, shifted(alloc, Word::V, 31)?)?;
    Ok(block(commands))
}

/// The function.
pub fn init_function(alloc: Global) -> Result<Function, AllocError>
    ensures { IfOk result (λ f. procedure_of f ≡ init_procedure) }
{
    let name = Word::Init.name(alloc)?;
    let body = init_body(alloc)?;
    Ok(Function {
        name,
        params: Items::new(alloc),
        results: Items::new(alloc),
        body,
    })
}
