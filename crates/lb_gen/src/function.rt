// The function of a number.
ghost use Rattle.std.specs.Prelude.{◌≡◌, ◌<◌, IfOk, OnOk, [], ◌∷◌, map};
ghost use Rattle.lb_syntax.specs.Tree.{term_of, command_of, block_of, chain, procedure_of};
ghost use Rattle.lb_builders.specs.Added.{AreAdded};
ghost use Rattle.lb_gen.specs.Made.{first_value, no_turns, next_value, count_turn, turns};
ghost use Rattle.lb_gen.specs.Made.{call_of, calls_before, shows, function_body, made_function};

use crate::drawn::DrawnFunction;
use crate::words::{Word, function_name};
use lb_builders::{
    add, block, number, one_name, operation, repeats, set, two_names, two_terms, variable,
    write_register,
};
use lb_syntax::{Block, Cmd, Expr, Function, Op};
use sqlite_items::Items;
use std::alloc::{AllocError, Global};

// The address that the pins' values are written to.
const OUTPUT_VALUE: u32 = 0x1001_200C;

// `r = (a OP1 K1);`.
fn first_value(alloc: Global, drawn: &DrawnFunction) -> Result<Cmd, AllocError>
    ensures { IfOk result (λ c. command_of c ≡ first_value drawn.now) }
{
    let a = variable(alloc, Word::A)?;
    let value = operation(alloc, drawn.first_operation, a, number(drawn.first_number))?;
    set(alloc, Word::R, value)
}

// `i = 0;`.
fn no_turns(alloc: Global) -> Result<Cmd, AllocError>
    ensures { IfOk result (λ c. command_of c ≡ no_turns) }
{
    set(alloc, Word::I, number(0))
}

// `r = ((r OP2 b) OP3 K2);`.
fn next_value(alloc: Global, drawn: &DrawnFunction) -> Result<Cmd, AllocError>
    ensures { IfOk result (λ c. command_of c ≡ next_value drawn.now) }
{
    let r = variable(alloc, Word::R)?;
    let b = variable(alloc, Word::B)?;
    let inner = operation(alloc, drawn.second_operation, r, b)?;
    let outer = operation(
        alloc,
        drawn.third_operation,
        inner,
        number(drawn.second_number),
    )?;
    set(alloc, Word::R, outer)
}

// `i = (i + 1);`.
fn count_turn(alloc: Global) -> Result<Cmd, AllocError>
    ensures { IfOk result (λ c. command_of c ≡ count_turn) }
{
    let more = operation(alloc, Op::Add, variable(alloc, Word::I)?, number(1))?;
    set(alloc, Word::I, more)
}

// `while (i < N) { .. }`.
fn turns(alloc: Global, drawn: &DrawnFunction) -> Result<Cmd, AllocError>
    ensures { IfOk result (λ c. command_of c ≡ turns drawn.now) }
{
    let i = variable(alloc, Word::I)?;
    let condition = operation(alloc, Op::Ltu, i, number(drawn.turns))?;
    let mut commands = Items::new(alloc);
    add(&mut commands, next_value(alloc, drawn)?)?;
    add(&mut commands, count_turn(alloc)?)?;
    Ok(repeats(condition, block(commands)))
}

// `r = fI(r, K3);` of the function before, where there is one.
fn add_call_before(
    alloc: Global,
    commands: &mut Items<Cmd>,
    number: u32,
    drawn: &DrawnFunction,
) -> Result<(), AllocError>
    requires { number < 64 }
    ensures { OnOk result (AreAdded commands.old commands.new (calls_before number drawn.now)) }
{
    if number == 0 {
        return Ok(());
    }
    let r = variable(alloc, Word::R)?;
    add(commands, call(alloc, number - 1, r, drawn.third_number)?)
}

/// `r = fI(first, second);`, where I is the number.
pub fn call(alloc: Global, callee: u32, first: Expr, second: u32) -> Result<Cmd, AllocError>
    requires { callee < 64 }
    ensures { IfOk result (λ c. command_of c ≡ call_of callee (term_of first) second) }
{
    Ok(Cmd::Call {
        targets: one_name(alloc, Word::R)?,
        function: function_name(alloc, callee)?,
        arguments: two_terms(alloc, first, number(second))?,
    })
}

// `MMIOWRITE(0x1001200C, r);`.
fn shows(alloc: Global) -> Result<Cmd, AllocError>
    ensures { IfOk result (λ c. command_of c ≡ shows) }
{
    let r = variable(alloc, Word::R)?;
    write_register(alloc, OUTPUT_VALUE, r)
}

// The body of the function of this number.
fn function_body(alloc: Global, number: u32, drawn: &DrawnFunction) -> Result<Block, AllocError>
    requires { number < 64 }
    ensures { IfOk result (λ b. block_of b ≡ chain (function_body number drawn.now)) }
{
    let mut commands = Items::new(alloc);
    add(&mut commands, first_value(alloc, drawn)?)?;
    add(&mut commands, no_turns(alloc)?)?;
    add(&mut commands, turns(alloc, drawn)?)?;
    add_call_before(alloc, &mut commands, number, drawn)?;
    add(&mut commands, shows(alloc)?)?;
    Ok(block(commands))
}

/// `fn fJ(a, b) -> (r) { .. }`, where J is the number.
pub fn numbered_function(
    alloc: Global,
    number: u32,
    drawn: &DrawnFunction,
) -> Result<Function, AllocError>
    requires { number < 64 }
    ensures { IfOk result (λ f. procedure_of f ≡ made_function number drawn.now) }
{
    let name = function_name(alloc, number)?;
    let params = two_names(alloc, Word::A, Word::B)?;
    let results = one_name(alloc, Word::R)?;
    let body = function_body(alloc, number, drawn)?;
    Ok(Function {
        name,
        params,
        results,
        body,
    })
}
