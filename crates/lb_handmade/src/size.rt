// How large a program is.
ghost use Rattle.std.specs.Prelude.{◌<◌, ◌^◌, ◌↔◌, map, sum, IsTrue};
ghost use Rattle.lb_syntax.specs.Tree.{term_of, command_of, block_of, procedure_of, program_of};
ghost use Rattle.lb_syntax.specs.Needs.{nodes};
ghost use Rattle.lb_check.specs.Parts.{body_parts, function_parts, parts};
ghost use Rattle.lb_handmade.specs.InternalSize.{Leaves};

use lb_syntax::{Block, Cmd, Expr, Function, Program};

// The most parts that a program may have to be checked.
const MOST_PARTS: usize = (1 << 30) - 1;

/// Whether a program has fewer than 2^30 functions, parameters, results, targets, commands and expression nodes together.
pub fn has_few_parts(program: &Program) -> bool
    ensures { IsTrue result ↔ (parts (program_of program.now) < 2 ^ 30) }
{
    after_functions(program.functions.as_slice(), MOST_PARTS).is_some()
}

// What is left of the room behind these functions; None where they have more parts.
fn after_functions(functions: &[Function], room: usize) -> Option<usize>
    ensures { Leaves room (parts (map procedure_of functions.now)) result }
{
    let mut left = room;
    for function in functions {
        left = after_function(function, left)?;
    }
    Some(left)
}

// What is left of the room behind a function, its parameters and results and what stands in it.
fn after_function(f: &Function, room: usize) -> Option<usize>
    ensures { Leaves room (function_parts (procedure_of f.now)) result }
{
    let room = room
        .checked_sub(1)?
        .checked_sub(f.params.len())?
        .checked_sub(f.results.len())?;
    after_block(&f.body, room)
}

// What is left of the room behind a block.
#[cycle(parts)]
fn after_block(block: &Block, room: usize) -> Option<usize>
    ensures { Leaves room (body_parts (block_of block.now)) result }
{
    let mut left = room;
    for c in block.commands.as_slice() {
        left = after_command(c, left)?;
    }
    Some(left)
}

// What is left of the room behind a command and what stands in it.
#[cycle(parts)]
fn after_command(c: &Cmd, room: usize) -> Option<usize>
    ensures { Leaves room (body_parts (command_of c.now)) result }
{
    let room = room.checked_sub(1)?;
    match c {
        Cmd::Skip | Cmd::Unset { .. } => Some(room),
        Cmd::Set { value, .. } => after_term(value, room),
        Cmd::Store { address, value, .. } => after_term(value, after_term(address, room)?),
        Cmd::StackAlloc { body, .. } => after_block(body, room),
        Cmd::If { condition, yes, no } => {
            let room = after_block(yes, after_term(condition, room)?)?;
            after_block(no, room)
        }
        Cmd::While { condition, body } => after_block(body, after_term(condition, room)?),
        Cmd::Call {
            targets,
            arguments,
            ..
        }
        | Cmd::Interact {
            targets,
            arguments,
            ..
        } => after_terms(arguments.as_slice(), room.checked_sub(targets.len())?),
    }
}

// What is left of the room behind the nodes of these expressions.
fn after_terms(es: &[Expr], room: usize) -> Option<usize>
    ensures { Leaves room (sum (map nodes (map term_of es.now))) result }
{
    let mut left = room;
    for e in es {
        left = after_term(e, left)?;
    }
    Some(left)
}

// What is left of the room behind the nodes of an expression.
fn after_term(e: &Expr, room: usize) -> Option<usize>
    ensures { Leaves room (nodes (term_of e.now)) result }
{
    let room = room.checked_sub(1)?;
    match e {
        Expr::Literal(_) | Expr::Var(_) => Some(room),
        Expr::Load { address, .. } => after_term(address.get(), room),
        Expr::Binary { left, right, .. } => after_term(right.get(), after_term(left.get(), room)?),
    }
}
