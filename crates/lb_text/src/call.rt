// Calls of functions and accesses of devices.
ghost use Rattle.std.specs.Prelude.{◌≤◌, ◌∷◌, []};
ghost use Rattle.lb_syntax.specs.Brackets.{most_brackets};
ghost use Rattle.lb_spelling.specs.declared.symbol.Symbol.TheVariants as symbols;
ghost use Rattle.lb_text.specs.InternalFindings.{rest_of_arguments, rest_of_call, ClosedArguments, ArgumentsBehind, OpenCall, FindsClosing, Refuses};

use crate::parse_error::ParseError;
use crate::term::{term, term_from};
use crate::token::{expect_token, sign};
use lb_scan::Token;
use lb_spelling::Symbol;
use lb_syntax::{Action, Cmd, Expr, Name};
use sqlite_items::Items;
use std::alloc::Global;

/// What a call calls.
#[derive(Drop)]
pub enum Callee {
    /// A function of the program.
    Function(Name),
    /// A device.
    Device(Action),
}

/// The call of `callee` from behind its first bracket, the innermost that is open, on, and what follows it.
pub fn call(
    alloc: Global,
    depth: u32,
    targets: Items<Name>,
    callee: Callee,
    bytes: &[u8],
) -> Result<(Cmd, &[u8]), ParseError>
    requires some { 1 ≤ depth }
    requires few { depth ≤ most_brackets }
    ensures found { FindsClosing depth rest_of_call (OpenCall targets callee) bytes.now result }
    ensures fault { Refuses depth rest_of_call bytes.now result }
{
    let (arguments, rest) = arguments(alloc, depth, bytes)?;
    let rest = sign(Symbol::Semicolon, depth - 1, rest)?;
    let command = match callee {
        Callee::Function(function) => Cmd::Call {
            targets,
            function,
            arguments,
        },
        Callee::Device(action) => Cmd::Interact {
            targets,
            action,
            arguments,
        },
    };
    Ok((command, rest))
}

// The arguments from behind the bracket before them on, and what follows the bracket behind them.
fn arguments(alloc: Global, depth: u32, bytes: &[u8]) -> Result<(Items<Expr>, &[u8]), ParseError>
    requires { depth ≤ most_brackets }
    ensures found { FindsClosing depth (symbols.Arguments ∷ []) ClosedArguments bytes.now result }
    ensures fault { Refuses depth (symbols.Arguments ∷ []) bytes.now result }
{
    let (token, rest) = expect_token(Symbol::Arguments, depth, bytes)?;
    if let Token::CloseParen = token {
        return Ok((Items::new(alloc), rest));
    }
    let (first, rest) = term_from(alloc, depth, token, rest)?;
    more_arguments(alloc, depth, first, rest)
}

// The arguments from the first on, which was read, and what follows the bracket behind them.
fn more_arguments(
    alloc: Global,
    depth: u32,
    first: Expr,
    bytes: &[u8],
) -> Result<(Items<Expr>, &[u8]), ParseError>
    requires { depth ≤ most_brackets }
    ensures found { FindsClosing depth rest_of_arguments (ArgumentsBehind first) bytes.now result }
    ensures fault { Refuses depth rest_of_arguments bytes.now result }
{
    let mut arguments = Items::new(alloc);
    arguments.push(first)?;
    let mut rest = bytes;
    loop {
        let (token, after) = expect_token(Symbol::MoreArguments, depth, rest)?;
        if let Token::CloseParen = token {
            return Ok((arguments, after));
        }
        let (argument, after) = term(alloc, depth, after)?;
        arguments.push(argument)?;
        rest = after;
    }
}
