// Commands without blocks.
ghost use Rattle.std.specs.Prelude.{◌≤◌, ◌∷◌, []};
ghost use Rattle.lb_syntax.specs.Brackets.{most_brackets};
ghost use Rattle.lb_spelling.specs.declared.symbol.Symbol.TheVariants as symbols;
ghost use Rattle.lb_spelling.specs.Tokens.{Named, Unset, Store};
ghost use Rattle.lb_spelling.specs.InternalMachine.{call};
ghost use Rattle.lb_scan.specs.Tokens.{token_of};
ghost use Rattle.lb_text.specs.InternalReading.{Took};
ghost use Rattle.lb_text.specs.InternalFindings.{rest_of_unset, rest_of_store, rest_of_named, rest_of_targets, rest_of_source, rest_of_value, CalleeAt, CommandFrom, CallOfTargets, CallFrom, AssignmentTo, AssignmentOf, Finds, FindsLeaving, FindsAssignment, Refuses, RefusesFrom};

use crate::call::{Callee, call};
use crate::names::{more_names, name, one};
use crate::parse_error::ParseError;
use crate::term::{term, term_from};
use crate::token::{expect_token, sign};
use lb_scan::Token;
use lb_spelling::Symbol;
use lb_syntax::{Cmd, Expr, Name, Width};
use sqlite_items::Items;
use std::alloc::Global;

/// The `unset` whose keyword was read, and what follows it.
pub fn unset(alloc: Global, depth: u32, bytes: &[u8]) -> Result<(Cmd, &[u8]), ParseError>
    requires { depth ≤ most_brackets }
    ensures found { Finds depth rest_of_unset (CommandFrom Unset) bytes.now result }
    ensures fault { Refuses depth rest_of_unset bytes.now result }
{
    let (target, rest) = name(alloc, depth, bytes)?;
    let rest = sign(Symbol::Semicolon, depth, rest)?;
    Ok((Cmd::Unset { target }, rest))
}

/// The store whose keyword was read, and what follows it.
pub fn store(
    alloc: Global,
    depth: u32,
    width: Width,
    bytes: &[u8],
) -> Result<(Cmd, &[u8]), ParseError>
    requires { depth ≤ most_brackets }
    ensures found { Finds depth rest_of_store (CommandFrom (Store width)) bytes.now result }
    ensures fault { Refuses depth rest_of_store bytes.now result }
{
    let rest = sign(Symbol::OpenParen, depth, bytes)?;
    let (address, rest) = term(alloc, depth + 1, rest)?;
    let rest = sign(Symbol::Comma, depth + 1, rest)?;
    let (value, rest) = term(alloc, depth + 1, rest)?;
    let rest = sign(Symbol::CloseParen, depth + 1, rest)?;
    let rest = sign(Symbol::Semicolon, depth, rest)?;
    Ok((
        Cmd::Store {
            width,
            address,
            value,
        },
        rest,
    ))
}

/// The call of `callee`, which was read, and what follows it.
pub fn call_of(
    alloc: Global,
    depth: u32,
    targets: Items<Name>,
    callee: Callee,
    bytes: &[u8],
) -> Result<(Cmd, &[u8]), ParseError>
    requires { depth ≤ most_brackets }
    ensures found { Finds depth call (CallFrom targets callee) bytes.now result }
    ensures fault { Refuses depth call bytes.now result }
{
    let rest = sign(Symbol::OpenParen, depth, bytes)?;
    call(alloc, depth + 1, targets, callee, rest)
}

/// The command whose first name was read, and what follows it.
pub fn named(
    alloc: Global,
    depth: u32,
    first: Name,
    bytes: &[u8],
) -> Result<(Cmd, &[u8]), ParseError>
    requires { depth ≤ most_brackets }
    ensures found { Finds depth rest_of_named (CommandFrom (Named first)) bytes.now result }
    ensures fault { Refuses depth rest_of_named bytes.now result }
{
    let (token, rest) = expect_token(Symbol::AfterName, depth, bytes)?;
    match token {
        Token::Becomes => assignment(alloc, depth, first, rest),
        Token::Comma => call_of_targets(alloc, depth, first, rest),
        Token::OpenParen => call(
            alloc,
            depth + 1,
            Items::new(alloc),
            Callee::Function(first),
            rest,
        ),
        _ => unreachable!(),
    }
}

// The call of several targets, of which the first was read, and the comma behind it.
fn call_of_targets(
    alloc: Global,
    depth: u32,
    first: Name,
    bytes: &[u8],
) -> Result<(Cmd, &[u8]), ParseError>
    requires { depth ≤ most_brackets }
    ensures found { Finds depth rest_of_targets (CallOfTargets first) bytes.now result }
    ensures fault { Refuses depth rest_of_targets bytes.now result }
{
    let mut targets = one(alloc, first)?;
    let (second, rest) = name(alloc, depth, bytes)?;
    targets.push(second)?;
    let (targets, rest) = more_names(alloc, Symbol::MoreTargets, depth, targets, rest)?;
    let (callee, rest) = callee(alloc, depth, rest)?;
    call_of(alloc, depth, targets, callee, rest)
}

// What is called, and what follows it.
fn callee(alloc: Global, depth: u32, bytes: &[u8]) -> Result<(Callee, &[u8]), ParseError>
    requires { depth ≤ most_brackets }
    ensures found { FindsLeaving depth (symbols.Callee ∷ []) CalleeAt call bytes.now result }
    ensures fault { Refuses depth (symbols.Callee ∷ []) bytes.now result }
{
    let (token, rest) = expect_token(Symbol::Callee, depth, bytes)?;
    match token {
        Token::Name(spelling) => Ok((Callee::Function(Name::of_spelling(alloc, spelling)?), rest)),
        Token::Device(action) => Ok((Callee::Device(action), rest)),
        _ => unreachable!(),
    }
}

// The command that sets one variable, from behind its `=` on.
fn assignment(
    alloc: Global,
    depth: u32,
    target: Name,
    bytes: &[u8],
) -> Result<(Cmd, &[u8]), ParseError>
    requires { depth ≤ most_brackets }
    ensures found { Finds depth (symbols.Source ∷ []) (AssignmentTo target) bytes.now result }
    ensures fault { Refuses depth (symbols.Source ∷ []) bytes.now result }
{
    let (token, rest) = expect_token(Symbol::Source, depth, bytes)?;
    match token {
        Token::Device(action) => call_of(
            alloc,
            depth,
            one(alloc, target)?,
            Callee::Device(action),
            rest,
        ),
        Token::Name(spelling) => from_name(
            alloc,
            depth,
            target,
            Name::of_spelling(alloc, spelling)?,
            rest,
        ),
        _ => from_term(alloc, depth, target, token, rest),
    }
}

// The command that sets one variable to another, whose name was read, or to what the function of that name gives.
fn from_name(
    alloc: Global,
    depth: u32,
    target: Name,
    source: Name,
    bytes: &[u8],
) -> Result<(Cmd, &[u8]), ParseError>
    requires { depth ≤ most_brackets }
    ensures found { Finds depth rest_of_source (AssignmentOf target source) bytes.now result }
    ensures fault { Refuses depth rest_of_source bytes.now result }
{
    let (token, rest) = expect_token(Symbol::AfterSource, depth, bytes)?;
    match token {
        Token::Semicolon => Ok((
            Cmd::Set {
                target,
                value: Expr::Var(source),
            },
            rest,
        )),
        Token::OpenParen => call(
            alloc,
            depth + 1,
            one(alloc, target)?,
            Callee::Function(source),
            rest,
        ),
        _ => unreachable!(),
    }
}

// The command that sets one variable to an expression, whose first token was read.
fn from_term<'a>(
    alloc: Global,
    depth: u32,
    target: Name,
    token: Token<'a>,
    bytes: &'a [u8],
) -> Result<(Cmd, &'a [u8]), ParseError>
    requires depth { depth ≤ most_brackets }
    requires took { Took depth symbols.Expr (token_of token) bytes.now }
    ensures found { FindsAssignment depth target (token_of token.entry) bytes.now result }
    ensures fault { RefusesFrom depth (token_of token.entry) rest_of_value bytes.now result }
{
    let (value, rest) = term_from(alloc, depth, token, bytes)?;
    let rest = sign(Symbol::Semicolon, depth, rest)?;
    Ok((Cmd::Set { target, value }, rest))
}
