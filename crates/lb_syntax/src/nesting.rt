// The brackets that are open at once in the printing of a program.
ghost use Rattle.std.specs.Prelude.{◌≡◌, ◌≤◌, ◌<◌, ◌^◌, map, sum, All};
ghost use Rattle.lb_syntax.specs.Names.{IsName};
ghost use Rattle.lb_syntax.specs.Tree.{term_of, command_of, block_of, procedure_of, program_of};
ghost use Rattle.lb_syntax.specs.WellFormed.{IsWord, IsTerm, IsCommand, IsBlock, IsProcedure};
ghost use Rattle.lb_syntax.specs.Needs.{nodes};
ghost use Rattle.lb_syntax.specs.Parts.{command_parts, procedure_parts, program_parts};
ghost use Rattle.lb_syntax.specs.InternalNesting.{term_nest, terms_nest, command_nest, procedure_nest, program_nest};
ghost use Rattle.lb_syntax.specs.Brackets.{brackets};

use crate::name::Name;
use crate::tree::{Block, Cmd, Expr, Function, Program};

/// The most brackets `(` and `{` that are open at once in the printing of the program,
/// which has fewer than 2^32 functions, commands and expression nodes together.
pub fn brackets(program: &Program) -> u32
    requires { program_parts (program_of program.now) < 2 ^ 32 }
    ensures { result ≡ brackets (program_of program.now) }
{
    of_functions(program.functions.as_slice())
}

fn of_functions(functions: &[Function]) -> u32
    requires { program_parts (map procedure_of functions.now) < 2 ^ 32 }
    ensures value { result ≡ program_nest (map procedure_of functions.now) }
    ensures well_formed { All IsProcedure (map procedure_of functions.now) }
{
    let mut most = 0;
    for function in functions {
        most = most.max(of_function(function));
    }
    most
}

// The brackets of the body and the one that opens it; those of the head close before it.
// The names are read for what their type says of them.
fn of_function(function: &Function) -> u32
    requires { procedure_parts (procedure_of function.now) < 2 ^ 32 }
    ensures value { result ≡ procedure_nest (procedure_of function.now) }
    ensures well_formed { IsProcedure (procedure_of function.now) }
{
    of_name(&function.name);
    of_names(function.params.as_slice());
    of_names(function.results.as_slice());
    of_block(&function.body) + 1
}

#[cycle(of_command)]
fn of_block(block: &Block) -> u32
    requires { command_parts (block_of block.now) < 2 ^ 32 }
    ensures value { result ≡ command_nest (block_of block.now) }
    ensures few { result ≤ command_parts (block_of block.now) }
    ensures well_formed { IsBlock (block_of block.now) }
{
    let mut most = 0;
    for c in block.commands.as_slice() {
        most = most.max(of_command(c));
    }
    most
}

#[cycle(of_command)]
fn of_command(c: &Cmd) -> u32
    requires { command_parts (command_of c.now) < 2 ^ 32 }
    ensures value { result ≡ command_nest (command_of c.now) }
    ensures few { result ≤ command_parts (command_of c.now) }
    ensures well_formed { IsCommand (command_of c.now) }
{
    match c {
        Cmd::Skip => 0,
        Cmd::Set { target, value } => of_name(target).max(of_expr(value)),
        Cmd::Unset { target } => of_name(target),
        Cmd::Store { address, value, .. } => of_expr(address).max(of_expr(value)) + 1,
        Cmd::StackAlloc {
            bytes,
            target,
            body,
        } => of_number(*bytes)
            .max(of_name(target))
            .max(of_block(body) + 1),
        Cmd::If { condition, yes, no } => {
            of_expr(condition).max(of_block(yes).max(of_block(no)) + 1)
        }
        Cmd::While { condition, body } => of_expr(condition).max(of_block(body) + 1),
        Cmd::Call {
            targets,
            function,
            arguments,
        } => {
            of_names(targets.as_slice())
                .max(of_name(function))
                .max(of_exprs(arguments.as_slice()) + 1)
        }
        Cmd::Interact {
            targets,
            arguments,
            ..
        } => of_names(targets.as_slice()).max(of_exprs(arguments.as_slice()) + 1),
    }
}

fn of_exprs(exprs: &[Expr]) -> u32
    requires { sum (map nodes (map term_of exprs.now)) < 2 ^ 32 }
    ensures value { result ≡ terms_nest (map term_of exprs.now) }
    ensures few { result ≤ sum (map nodes (map term_of exprs.now)) }
    ensures well_formed { All IsTerm (map term_of exprs.now) }
{
    let mut most = 0;
    for expr in exprs {
        most = most.max(of_expr(expr));
    }
    most
}

fn of_expr(expr: &Expr) -> u32
    requires { nodes (term_of expr.now) < 2 ^ 32 }
    ensures value { result ≡ term_nest (term_of expr.now) }
    ensures few { result ≤ nodes (term_of expr.now) }
    ensures well_formed { IsTerm (term_of expr.now) }
{
    match expr {
        Expr::Literal(value) => of_number(*value),
        Expr::Var(name) => of_name(name),
        Expr::Load { address, .. } => of_expr(address.get()) + 1,
        Expr::Binary { left, right, .. } => of_expr(left.get()).max(of_expr(right.get())) + 1,
    }
}

fn of_names(names: &[Name]) -> u32
    ensures value { result ≡ 0 }
    ensures well_formed { All IsName names.now }
{
    let mut most = 0;
    for name in names {
        most = most.max(of_name(name));
    }
    most
}

// A name has no brackets, by what its type says of it.
fn of_name(name: &Name) -> u32
    ensures value { result ≡ 0 }
    ensures well_formed { IsName name.now }
{
    name.as_bytes();
    0
}

// A number has no brackets.
fn of_number(_number: u32) -> u32
    ensures value { result ≡ 0 }
    ensures well_formed { IsWord _number }
{
    0
}
