// Names and lists of names.
ghost use Rattle.std.specs.Prelude.{◌≡◌, ◌≤◌, ◌∷◌, [], true, IfOk};
ghost use Rattle.lb_syntax.specs.Brackets.{most_brackets};
ghost use Rattle.lb_spelling.specs.declared.symbol.Symbol.TheVariants as symbols;
ghost use Rattle.lb_spelling.specs.Grammar.{NameAt};
ghost use Rattle.lb_text.specs.InternalReading.{ends_names};
ghost use Rattle.lb_text.specs.InternalFindings.{ClosedNames, Finds, FindsClosing, FindsMoreNames, Refuses};

use crate::parse_error::ParseError;
use crate::token::expect_token;
use lb_scan::Token;
use lb_spelling::Symbol;
use lb_syntax::Name;
use sqlite_items::Items;
use std::alloc::{AllocError, Global};

/// The name at the front, and what follows it.
pub fn name(alloc: Global, depth: u32, bytes: &[u8]) -> Result<(Name, &[u8]), ParseError>
    requires { depth ≤ most_brackets }
    ensures found { Finds depth (symbols.Name ∷ []) NameAt bytes.now result }
    ensures fault { Refuses depth (symbols.Name ∷ []) bytes.now result }
{
    let (token, rest) = expect_token(Symbol::Name, depth, bytes)?;
    let Token::Name(spelling) = token else {
        unreachable!()
    };
    Ok((Name::of_spelling(alloc, spelling)?, rest))
}

/// A list of one name.
pub fn one(alloc: Global, name: Name) -> Result<Items<Name>, AllocError>
    ensures { IfOk result (λ names. names ≡ name ∷ []) }
{
    let mut names = Items::new(alloc);
    names.push(name)?;
    Ok(names)
}

/// The parameters from behind the bracket before them on, and what follows the bracket behind them.
pub fn params(alloc: Global, depth: u32, bytes: &[u8]) -> Result<(Items<Name>, &[u8]), ParseError>
    requires { depth ≤ most_brackets }
    ensures found { FindsClosing depth (symbols.Names ∷ []) ClosedNames bytes.now result }
    ensures fault { Refuses depth (symbols.Names ∷ []) bytes.now result }
{
    let (token, rest) = expect_token(Symbol::Names, depth, bytes)?;
    match token {
        Token::CloseParen => Ok((Items::new(alloc), rest)),
        Token::Name(spelling) => {
            let names = one(alloc, Name::of_spelling(alloc, spelling)?)?;
            more_names(alloc, Symbol::MoreNames, depth, names, rest)
        }
        _ => unreachable!(),
    }
}

/// These names and more of them, each behind a comma, and what follows the bracket or the `=` that ends them,
/// as `more` says.
pub fn more_names(
    alloc: Global,
    more: Symbol,
    depth: u32,
    names: Items<Name>,
    bytes: &[u8],
) -> Result<(Items<Name>, &[u8]), ParseError>
    requires depth { depth ≤ most_brackets }
    requires more { ends_names more ≡ true }
    ensures found { FindsMoreNames depth more names bytes.now result }
    ensures fault { Refuses depth (more ∷ []) bytes.now result }
{
    let mut names = names;
    let mut rest = bytes;
    loop {
        let (token, after) = expect_token(more, depth, rest)?;
        let Token::Comma = token else {
            return Ok((names, after));
        };
        let (next, after) = name(alloc, depth, after)?;
        names.push(next)?;
        rest = after;
    }
}
