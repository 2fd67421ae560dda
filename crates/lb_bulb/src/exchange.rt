// The function `spi_xchg`: a byte is exchanged on the serial bus.
ghost use Rattle.std.specs.Prelude.{◌≡◌, IfOk};
ghost use Rattle.lb_syntax.specs.Tree.{Number, Variable, Sets, Chooses, Ends};
ghost use Rattle.lb_syntax.specs.Tree.{command_of, block_of, procedure_of};
ghost use Rattle.lb_builders.specs.Registers.{writes};
ghost use Rattle.lb_bulb.specs.Supplied.{b_, e_, r_, is_zero, shifted, low_byte};
ghost use Rattle.lb_bulb.specs.Supplied.{poll_turn, poll, after_sending, exchanging, xchg_body, xchg_procedure};

use crate::term::{is_zero, low_byte, shifted};
use crate::waits::{all_turns, count_down, goes_on};
use crate::words::Word;
use lb_builders::{
    Spelled, add, block, number, read_register, repeats, set, two, two_names, variable, when,
    write_register,
};
use lb_syntax::{Block, Cmd, Function};
use sqlite_items::Items;
use std::alloc::{AllocError, Global};

// One turn of a poll.
fn poll_turn(alloc: Global, address: u32) -> Result<Block, AllocError>
    ensures { IfOk result (λ b. block_of b ≡ poll_turn address) }
{
    let load = read_register(alloc, Word::R, address)?;
    let count = count_down(alloc)?;
    two(alloc, load, count)
}

// A register is polled.
fn poll(alloc: Global, address: u32) -> Result<Cmd, AllocError>
    ensures { IfOk result (λ c. command_of c ≡ poll address) }
{
    let condition = goes_on(alloc, shifted(alloc, Word::R, 31)?)?;
    let body = poll_turn(alloc, address)?;
    Ok(repeats(condition, body))
}

// `r = 0x80000000;`: the register counts as busy.
fn no_answer(alloc: Global) -> Result<Cmd, AllocError>
    ensures { IfOk result (λ c. command_of c ≡ Sets r_ (Number 0x8000_0000)) }
{
    set(alloc, Word::R, number(0x8000_0000))
}

// `MMIOWRITE(0x10024048, b);`.
fn send(alloc: Global) -> Result<Cmd, AllocError>
    ensures { IfOk result (λ c. command_of c ≡ writes 0x1002_4048 (Variable b_)) }
{
    write_register(alloc, 0x1002_4048, variable(alloc, Word::B)?)
}

// `e = (r >> 31);`.
fn flag(alloc: Global) -> Result<Cmd, AllocError>
    ensures { IfOk result (λ c. command_of c ≡ Sets e_ (shifted r_ 31)) }
{
    set(alloc, Word::E, shifted(alloc, Word::R, 31)?)
}

// `r = (r & 255);`.
fn answer(alloc: Global) -> Result<Cmd, AllocError>
    ensures { IfOk result (λ c. command_of c ≡ Sets r_ (low_byte (Variable r_))) }
{
    set(alloc, Word::R, low_byte(alloc, variable(alloc, Word::R)?)?)
}

// What follows once there is room for the byte.
fn after_sending(alloc: Global) -> Result<Block, AllocError>
    ensures { IfOk result (λ b. block_of b ≡ after_sending) }
{
    let mut commands = Items::new(alloc);
    add(&mut commands, send(alloc)?)?;
    add(&mut commands, all_turns(alloc)?)?;
    add(&mut commands, no_answer(alloc)?)?;
    add(&mut commands, poll(alloc, 0x1002_404C)?)?;
    add(&mut commands, flag(alloc)?)?;
    add(&mut commands, answer(alloc)?)?;
    Ok(block(commands))
}

// `if (e == 0) { .. }`, of what follows once there is room.
fn go_on(alloc: Global) -> Result<Cmd, AllocError>
    ensures { IfOk result (λ c. command_of c ≡ Chooses (is_zero e_) after_sending Ends) }
{
    let condition = is_zero(alloc, Word::E)?;
    let yes = after_sending(alloc)?;
    Ok(when(alloc, condition, yes))
}

// The wait for room, and what follows.
fn exchanging(alloc: Global) -> Result<Block, AllocError>
    ensures { IfOk result (λ b. block_of b ≡ exchanging) }
{
    let mut commands = Items::new(alloc);
    add(&mut commands, all_turns(alloc)?)?;
    add(&mut commands, no_answer(alloc)?)?;
    add(&mut commands, poll(alloc, 0x1002_4048)?)?;
    add(&mut commands, flag(alloc)?)?;
    add(&mut commands, go_on(alloc)?)?;
    Ok(block(commands))
}

// All of it, unless an exchange was in vain before.
fn xchg_body(alloc: Global) -> Result<Block, AllocError>
    ensures { IfOk result (λ b. block_of b ≡ xchg_body) }
{
    let clear = set(alloc, Word::R, number(0))?;
    let condition = is_zero(alloc, Word::E)?;
    let rest = when(alloc, condition, exchanging(alloc)?);
    two(alloc, clear, rest)
}

/// The function.
pub fn exchange_function(alloc: Global) -> Result<Function, AllocError>
    ensures { IfOk result (λ f. procedure_of f ≡ xchg_procedure) }
{
    let name = Word::SpiXchg.name(alloc)?;
    let params = two_names(alloc, Word::B, Word::E)?;
    let results = two_names(alloc, Word::R, Word::E)?;
    let body = xchg_body(alloc)?;
    Ok(Function {
        name,
        params,
        results,
        body,
    })
}
