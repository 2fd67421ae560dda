// Expressions.
ghost use Rattle.std.specs.Prelude.{◌≤◌, ◌∷◌, []};
ghost use Rattle.lb_syntax.specs.Brackets.{most_brackets};
ghost use Rattle.lb_spelling.specs.declared.symbol.Symbol.TheVariants as symbols;
ghost use Rattle.lb_spelling.specs.Tokens.{OpenParen, Load};
ghost use Rattle.lb_scan.specs.Tokens.{token_of};
ghost use Rattle.lb_text.specs.InternalReading.{Took};
ghost use Rattle.lb_text.specs.InternalFindings.{rest_of_expr, rest_of_load, rest_of_operation, SignAt, ExprAt, ExprFrom, Finds, FindsClosing, FindsFrom, Refuses, RefusesFrom};

use crate::parse_error::ParseError;
use crate::token::{expect_token, sign};
use lb_scan::Token;
use lb_spelling::Symbol;
use lb_syntax::{Expr, Name, Op, Width};
use sqlite_items::Boxed;
use std::alloc::Global;

/// The expression at the front, and what follows it.
#[cycle(term)]
pub fn term(alloc: Global, depth: u32, bytes: &[u8]) -> Result<(Expr, &[u8]), ParseError>
    requires { depth ≤ most_brackets }
    ensures found { Finds depth (symbols.Expr ∷ []) ExprAt bytes.now result }
    ensures fault { Refuses depth (symbols.Expr ∷ []) bytes.now result }
{
    let (token, rest) = expect_token(Symbol::Expr, depth, bytes)?;
    term_from(alloc, depth, token, rest)
}

/// The expression whose first token is `token`, which was read, and what follows it.
#[cycle(term)]
pub fn term_from<'a>(
    alloc: Global,
    depth: u32,
    token: Token<'a>,
    bytes: &'a [u8],
) -> Result<(Expr, &'a [u8]), ParseError>
    requires depth { depth ≤ most_brackets }
    requires took { Took depth symbols.Expr (token_of token) bytes.now }
    ensures found { FindsFrom depth (token_of token.entry) rest_of_expr ExprFrom bytes.now result }
    ensures fault { RefusesFrom depth (token_of token.entry) rest_of_expr bytes.now result }
{
    match token {
        Token::Number(value) => Ok((Expr::Literal(value), bytes)),
        Token::Name(spelling) => Ok((Expr::Var(Name::of_spelling(alloc, spelling)?), bytes)),
        Token::Load(width) => load(alloc, depth, width, bytes),
        Token::OpenParen => operation(alloc, depth + 1, bytes),
        _ => unreachable!(),
    }
}

// The load whose keyword was read.
#[cycle(term)]
fn load(alloc: Global, depth: u32, width: Width, bytes: &[u8]) -> Result<(Expr, &[u8]), ParseError>
    requires { depth ≤ most_brackets }
    ensures found { Finds depth rest_of_load (ExprFrom (Load width)) bytes.now result }
    ensures fault { Refuses depth rest_of_load bytes.now result }
{
    let rest = sign(Symbol::OpenParen, depth, bytes)?;
    let (address, rest) = term(alloc, depth + 1, rest)?;
    let rest = sign(Symbol::CloseParen, depth + 1, rest)?;
    let address = Boxed::new(alloc, address)?;
    Ok((Expr::Load { width, address }, rest))
}

// The operation whose first bracket, the innermost that is open, was read.
#[cycle(term)]
fn operation(alloc: Global, depth: u32, bytes: &[u8]) -> Result<(Expr, &[u8]), ParseError>
    requires some { 1 ≤ depth }
    requires few { depth ≤ most_brackets }
    ensures found { FindsClosing depth rest_of_operation (ExprFrom OpenParen) bytes.now result }
    ensures fault { Refuses depth rest_of_operation bytes.now result }
{
    let (left, rest) = term(alloc, depth, bytes)?;
    let (op, rest) = operator(depth, rest)?;
    let (right, rest) = term(alloc, depth, rest)?;
    let rest = sign(Symbol::CloseParen, depth, rest)?;
    let left = Boxed::new(alloc, left)?;
    let right = Boxed::new(alloc, right)?;
    Ok((Expr::Binary { op, left, right }, rest))
}

// The sign of an operation at the front, and what follows it.
fn operator(depth: u32, bytes: &[u8]) -> Result<(Op, &[u8]), ParseError>
    requires { depth ≤ most_brackets }
    ensures found { Finds depth (symbols.Sign ∷ []) SignAt bytes.now result }
    ensures fault { Refuses depth (symbols.Sign ∷ []) bytes.now result }
{
    let (token, rest) = expect_token(Symbol::Sign, depth, bytes)?;
    let Token::Sign(op) = token else {
        unreachable!()
    };
    Ok((op, rest))
}
