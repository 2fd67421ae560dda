// Functions.
ghost use Rattle.std.specs.Prelude.{◌∷◌, []};
ghost use Rattle.lb_spelling.specs.declared.symbol.Symbol.TheVariants as symbols;
ghost use Rattle.lb_spelling.specs.Tokens.{Fn, Arrow};
ghost use Rattle.lb_text.specs.InternalFindings.{rest_of_results, rest_of_function, ResultsFrom, ResultsAndBody, FunctionFrom, Finds, FindsBoth, Refuses};

use crate::command::{block, commands};
use crate::names::{more_names, name, one, params};
use crate::parse_error::ParseError;
use crate::token::{expect_token, sign};
use lb_scan::Token;
use lb_spelling::Symbol;
use lb_syntax::{Block, Function, Name};
use sqlite_items::Items;
use std::alloc::Global;

/// The function whose keyword `fn` was read, and what follows it.
pub fn function(alloc: Global, bytes: &[u8]) -> Result<(Function, &[u8]), ParseError>
    ensures found { Finds 0 rest_of_function (FunctionFrom Fn) bytes.now result }
    ensures fault { Refuses 0 rest_of_function bytes.now result }
{
    let (name, rest) = name(alloc, 0, bytes)?;
    let rest = sign(Symbol::OpenParen, 0, rest)?;
    let (params, rest) = params(alloc, 1, rest)?;
    let (results, body, rest) = results_and_body(alloc, rest)?;
    let function = Function {
        name,
        params,
        results,
        body,
    };
    Ok((function, rest))
}

// The results and the body, and what follows them.
fn results_and_body(alloc: Global, bytes: &[u8]) -> Result<(Items<Name>, Block, &[u8]), ParseError>
    ensures found { FindsBoth 0 (symbols.Results ∷ []) ResultsAndBody bytes.now result }
    ensures fault { Refuses 0 (symbols.Results ∷ []) bytes.now result }
{
    let (token, rest) = expect_token(Symbol::Results, 0, bytes)?;
    let Token::Arrow = token else {
        let (body, rest) = commands(alloc, 1, rest)?;
        return Ok((Items::new(alloc), body, rest));
    };
    let (results, rest) = results(alloc, rest)?;
    let (body, rest) = block(alloc, 0, rest)?;
    Ok((results, body, rest))
}

// The results whose arrow was read, and what follows them.
fn results(alloc: Global, bytes: &[u8]) -> Result<(Items<Name>, &[u8]), ParseError>
    ensures found { Finds 0 rest_of_results (ResultsFrom Arrow) bytes.now result }
    ensures fault { Refuses 0 rest_of_results bytes.now result }
{
    let rest = sign(Symbol::OpenParen, 0, bytes)?;
    let (first, rest) = name(alloc, 1, rest)?;
    more_names(alloc, Symbol::MoreNames, 1, one(alloc, first)?, rest)
}
