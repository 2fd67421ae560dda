// Commands and blocks.
ghost use Rattle.std.specs.Prelude.{◌≡◌, ◌≤◌, ◌∷◌, [], true};
ghost use Rattle.lb_syntax.specs.Brackets.{most_brackets};
ghost use Rattle.lb_spelling.specs.declared.symbol.Symbol.TheVariants as symbols;
ghost use Rattle.lb_spelling.specs.Tokens.{If, While, StackAlloc};
ghost use Rattle.lb_scan.specs.Tokens.{token_of};
ghost use Rattle.lb_text.specs.InternalReading.{Took, begins_plain, begins_command};
ghost use Rattle.lb_text.specs.InternalFindings.{rest_of_commands, rest_of_if, rest_of_while, rest_of_allocation, BracedAt, BlockFrom, CommandFrom, CommandsFrom, ElseAndCommands, Finds, FindsClosing, FindsCommand, FindsUpTo, FindsCommandUpTo, Refuses};

use crate::call::Callee;
use crate::names::name;
use crate::parse_error::ParseError;
use crate::simple::{call_of, named, store, unset};
use crate::term::term;
use crate::token::{expect_token, number, sign};
use lb_scan::Token;
use lb_spelling::Symbol;
use lb_syntax::{Block, Cmd, Name};
use sqlite_items::Items;
use std::alloc::Global;

/// The block at the front, and what follows it.
#[cycle(block)]
pub fn block(alloc: Global, depth: u32, bytes: &[u8]) -> Result<(Block, &[u8]), ParseError>
    requires { depth ≤ most_brackets }
    ensures found { Finds depth (symbols.Block ∷ []) BracedAt bytes.now result }
    ensures fault { Refuses depth (symbols.Block ∷ []) bytes.now result }
{
    let (_, rest) = expect_token(Symbol::Block, depth, bytes)?;
    commands(alloc, depth + 1, rest)
}

/// The block from behind its first bracket, the innermost that is open, on, and what follows it.
#[cycle(block)]
pub fn commands(alloc: Global, depth: u32, bytes: &[u8]) -> Result<(Block, &[u8]), ParseError>
    requires { depth ≤ most_brackets }
    ensures found { FindsClosing depth (symbols.Commands ∷ []) BlockFrom bytes.now result }
    ensures fault { Refuses depth (symbols.Commands ∷ []) bytes.now result }
{
    let mut commands = Items::new(alloc);
    let (mut token, mut rest) = expect_token(Symbol::Commands, depth, bytes)?;
    loop {
        if let Token::CloseBrace = token {
            return Ok((Block { commands }, rest));
        }
        let (command, next, after) = command(alloc, depth, token, rest)?;
        commands.push(command)?;
        token = next;
        rest = after;
    }
}

// The command whose first token was read, the token behind it, and what follows that.
#[cycle(block)]
fn command<'a>(
    alloc: Global,
    depth: u32,
    token: Token<'a>,
    bytes: &'a [u8],
) -> Result<(Cmd, Token<'a>, &'a [u8]), ParseError>
    requires depth { depth ≤ most_brackets }
    requires took { Took depth symbols.Commands (token_of token) bytes.now }
    requires begins { begins_command (token_of token) ≡ true }
    ensures found { FindsCommandUpTo depth (token_of token.entry) bytes.now result }
    ensures fault { Refuses depth (rest_of_commands (token_of token.entry)) bytes.now result }
{
    if let Token::If = token {
        return choice(alloc, depth, bytes);
    }
    let (command, rest) = plain_command(alloc, depth, token, bytes)?;
    let (next, rest) = expect_token(Symbol::Commands, depth, rest)?;
    Ok((command, next, rest))
}

// The `if` whose keyword was read, the token behind it, and what follows that.
#[cycle(block)]
fn choice(alloc: Global, depth: u32, bytes: &[u8]) -> Result<(Cmd, Token, &[u8]), ParseError>
    requires { depth ≤ most_brackets }
    ensures found { FindsUpTo depth rest_of_if (CommandsFrom If) bytes.now result }
    ensures fault { Refuses depth rest_of_if bytes.now result }
{
    let (condition, rest) = term(alloc, depth, bytes)?;
    let (yes, rest) = block(alloc, depth, rest)?;
    let (no, next, rest) = otherwise(alloc, depth, rest)?;
    Ok((Cmd::If { condition, yes, no }, next, rest))
}

// The second block of an `if`, empty where no `else` stands here, the token behind it, and what follows that.
#[cycle(block)]
fn otherwise(alloc: Global, depth: u32, bytes: &[u8]) -> Result<(Block, Token, &[u8]), ParseError>
    requires { depth ≤ most_brackets }
    ensures found { FindsUpTo depth (symbols.AfterIf ∷ []) ElseAndCommands bytes.now result }
    ensures fault { Refuses depth (symbols.AfterIf ∷ []) bytes.now result }
{
    let (token, rest) = expect_token(Symbol::AfterIf, depth, bytes)?;
    let Token::Else = token else {
        let commands = Items::new(alloc);
        return Ok((Block { commands }, token, rest));
    };
    let (no, rest) = block(alloc, depth, rest)?;
    let (next, rest) = expect_token(Symbol::Commands, depth, rest)?;
    Ok((no, next, rest))
}

// The command, no `if`, whose first token was read, and what follows it.
#[cycle(block)]
fn plain_command<'a>(
    alloc: Global,
    depth: u32,
    token: Token<'a>,
    bytes: &'a [u8],
) -> Result<(Cmd, &'a [u8]), ParseError>
    requires depth { depth ≤ most_brackets }
    requires took { Took depth symbols.Commands (token_of token) bytes.now }
    requires begins { begins_plain (token_of token) ≡ true }
    ensures found { FindsCommand depth (token_of token.entry) bytes.now result }
    ensures fault { Refuses depth (rest_of_commands (token_of token.entry)) bytes.now result }
{
    match token {
        Token::Skip => Ok((Cmd::Skip, sign(Symbol::Semicolon, depth, bytes)?)),
        Token::Unset => unset(alloc, depth, bytes),
        Token::Store(width) => store(alloc, depth, width, bytes),
        Token::StackAlloc => allocation(alloc, depth, bytes),
        Token::While => repetition(alloc, depth, bytes),
        Token::Name(spelling) => named(alloc, depth, Name::of_spelling(alloc, spelling)?, bytes),
        Token::Device(action) => call_of(
            alloc,
            depth,
            Items::new(alloc),
            Callee::Device(action),
            bytes,
        ),
        _ => unreachable!(),
    }
}

// The `while` whose keyword was read, and what follows it.
#[cycle(block)]
fn repetition(alloc: Global, depth: u32, bytes: &[u8]) -> Result<(Cmd, &[u8]), ParseError>
    requires { depth ≤ most_brackets }
    ensures found { Finds depth rest_of_while (CommandFrom While) bytes.now result }
    ensures fault { Refuses depth rest_of_while bytes.now result }
{
    let (condition, rest) = term(alloc, depth, bytes)?;
    let (body, rest) = block(alloc, depth, rest)?;
    Ok((Cmd::While { condition, body }, rest))
}

// The `stackalloc` whose keyword was read, and what follows it.
#[cycle(block)]
fn allocation(alloc: Global, depth: u32, bytes: &[u8]) -> Result<(Cmd, &[u8]), ParseError>
    requires { depth ≤ most_brackets }
    ensures found { Finds depth rest_of_allocation (CommandFrom StackAlloc) bytes.now result }
    ensures fault { Refuses depth rest_of_allocation bytes.now result }
{
    let (size, rest) = number(depth, bytes)?;
    let rest = sign(Symbol::As, depth, rest)?;
    let (target, rest) = name(alloc, depth, rest)?;
    let (body, rest) = block(alloc, depth, rest)?;
    let command = Cmd::StackAlloc {
        bytes: size,
        target,
        body,
    };
    Ok((command, rest))
}
