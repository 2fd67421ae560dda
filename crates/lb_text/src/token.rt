// Single tokens.
ghost use Rattle.std.specs.Prelude.{◌≡◌, ◌≤◌, ◌∷◌, [], true, false};
ghost use Rattle.lb_syntax.specs.Brackets.{most_brackets};
ghost use Rattle.lb_spelling.specs.declared.symbol.Symbol.TheVariants as symbols;
ghost use Rattle.lb_spelling.specs.InternalMachine.{Stack, ends};
ghost use Rattle.lb_text.specs.InternalReading.{is_sign};
ghost use Rattle.lb_text.specs.InternalFindings.{NumeralAt, Finds, FindsToken, FindsSign, Refuses};

use crate::parse_error::ParseError;
use lb_scan::{Token, scan};
use lb_spelling::Symbol;

/// The next token, which has to be one that `expected` takes, and what follows it.
pub fn expect_token(
    expected: Symbol,
    depth: u32,
    bytes: &[u8],
) -> Result<(Token, &[u8]), ParseError>
    requires depth { depth ≤ most_brackets }
    requires more { (k : Stack) → ends (expected ∷ k) ≡ false }
    ensures found { FindsToken depth expected bytes.now result }
    ensures fault { Refuses depth (expected ∷ []) bytes.now result }
{
    Ok(scan(expected, depth, bytes)?)
}

/// What follows the one token that `expected` takes.
pub fn sign(expected: Symbol, depth: u32, bytes: &[u8]) -> Result<&[u8], ParseError>
    requires depth { depth ≤ most_brackets }
    requires sign { is_sign expected ≡ true }
    ensures found { FindsSign depth expected bytes.now result }
    ensures fault { Refuses depth (expected ∷ []) bytes.now result }
{
    let (_, rest) = expect_token(expected, depth, bytes)?;
    Ok(rest)
}

/// The number at the front, and what follows it.
pub fn number(depth: u32, bytes: &[u8]) -> Result<(u32, &[u8]), ParseError>
    requires { depth ≤ most_brackets }
    ensures found { Finds depth (symbols.Number ∷ []) NumeralAt bytes.now result }
    ensures fault { Refuses depth (symbols.Number ∷ []) bytes.now result }
{
    let (token, rest) = expect_token(Symbol::Number, depth, bytes)?;
    let Token::Number(value) = token else {
        unreachable!()
    };
    Ok((value, rest))
}
