// One token.
ghost use Rattle.std.specs.Prelude.{◌≡◌, ◌≤◌, ◌<◌, ◌↔◌, ◌∷◌, [], true, false, IfOk, IfErr, IsTrue, length, take};
ghost use Rattle.lb_spelling.specs.InternalMachine.{Stack, ends, begins};
ghost use Rattle.lb_spelling.specs.InternalParsing.{Takes, Faults};
ghost use Rattle.lb_syntax.specs.Brackets.{most_brackets, open_after};
ghost use Rattle.lb_scan.specs.Tokens.{token_of};
ghost use Rattle.lb_scan.specs.Scanned.{TakesOrEnds, TakesNone, IsMoreLeft};
ghost use Rattle.lb_scan.specs.InternalScanning.{BeginsToken, begins_with_digit, IsStuckIn, IsTokenFor, ReadsWord, ReadsNoWord};

use crate::bytes::{is_digit, unexpected};
use crate::gap::{first, skip};
use crate::number::number;
use crate::spelling::{begins, lexeme, spelling_len, syntax_error_in};
use crate::syntax_error::SyntaxError;
use crate::token::{Token, takes};
use lb_spelling::{Symbol, TextKind};

/// The next token, which has to be one that `expected` takes, and the bytes behind it.
/// `depth` brackets are open before it.
pub fn scan(expected: Symbol, depth: u32, bytes: &[u8]) -> Result<(Token, &[u8]), SyntaxError>
    requires depth { depth ≤ most_brackets }
    // Something has to come: all but the functions of a program.
    requires more { (k : Stack) → ends (expected ∷ k) ≡ false }
    // The token stands at the front, `expected` takes it, and at most 64 brackets are open behind it.
    ensures found { IfOk result (λ r. Takes depth expected (token_of r.0) bytes.now r.1.now) }
    // The kind and the place of the fault, whatever has to come behind `expected`.
    ensures fault { IfErr result (λ error. Faults depth expected bytes.now error.kind error.left) }
    // No such token stands there.
    ensures refused { IfErr result (λ _. TakesNone depth expected bytes.now) }
{
    match scan_or_end(expected, depth, bytes)? {
        Some(found) => Ok(found),
        None => Err(SyntaxError {
            kind: TextKind::Ended,
            left: 0,
        }),
    }
}

/// The same where the text may end: none, where nothing but blanks and comments is left.
pub fn scan_or_end(
    expected: Symbol,
    depth: u32,
    bytes: &[u8],
) -> Result<Option<(Token, &[u8])>, SyntaxError>
    requires { depth ≤ most_brackets }
    ensures found { IfOk result (λ o. TakesOrEnds depth expected bytes.now o) }
    ensures fault { IfErr result (λ error. Faults depth expected bytes.now error.kind error.left) }
    ensures refused { IfErr result (λ _. TakesNone depth expected bytes.now) }
    ensures more { IfErr result (λ _. IsMoreLeft bytes.now) }
{
    let start = skip(bytes);
    if start.is_empty() {
        return Ok(None);
    }
    let found = scan_token(expected, depth, start)?;
    Ok(Some(found))
}

// Whether a token that `expected` takes begins with this byte, or a comment does.
fn may_begin(expected: Symbol, b: u8) -> bool
    ensures { result ≡ begins (expected ∷ []) (b ∷ []) }
{
    if is_digit(b) {
        takes(expected, &Token::Number(0))
    } else {
        begins(expected, &[b])
    }
}

// Whether at most 64 brackets are open behind this byte.
fn has_room(depth: u32, b: u8) -> bool
    requires { depth ≤ most_brackets }
    ensures { IsTrue result ↔ (open_after depth b ≤ most_brackets) }
{
    depth < 64 || (b != b'(' && b != b'{')
}

// The word or sign at the front, which begins as `expected` may.
fn word_or_sign(expected: Symbol, bytes: &[u8]) -> Result<(Token, &[u8]), SyntaxError>
    requires some { 0 < length bytes.now }
    requires token { BeginsToken bytes.now }
    requires no_digit { begins_with_digit 10 bytes.now ≡ false }
    requires begun { begins (expected ∷ []) (take 1 bytes.now) ≡ true }
    ensures found { IfOk result (λ r. ReadsWord expected bytes.now (token_of r.0) r.1.now) }
    ensures fault { IfErr result (λ error. IsStuckIn expected bytes.now error) }
    ensures refused { IfErr result (λ _. ReadsNoWord expected bytes.now) }
{
    let len = spelling_len(bytes);
    let (spelling, rest) = bytes.split_at(len);
    match token_for(expected, spelling) {
        Some(token) => Ok((token, rest)),
        None => Err(syntax_error_in(expected, bytes, len)),
    }
}

// The word or sign of this spelling, if `expected` takes it.
fn token_for(expected: Symbol, spelling: &[u8]) -> Option<Token>
    requires { begins_with_digit 10 spelling.now ≡ false }
    ensures { IsTokenFor expected spelling.now result }
{
    let token = lexeme(spelling)?;
    if takes(expected, &token) {
        Some(token)
    } else {
        None
    }
}

// The token at the front, where no blank and no comment stands.
fn scan_token(expected: Symbol, depth: u32, bytes: &[u8]) -> Result<(Token, &[u8]), SyntaxError>
    requires depth { depth ≤ most_brackets }
    requires some { 0 < length bytes.now }
    requires token { BeginsToken bytes.now }
    ensures found { IfOk result (λ r. Takes depth expected (token_of r.0) bytes.now r.1.now) }
    ensures fault { IfErr result (λ error. Faults depth expected bytes.now error.kind error.left) }
    ensures refused { IfErr result (λ _. TakesNone depth expected bytes.now) }
{
    let Some((b, _)) = first(bytes) else {
        unreachable!()
    };
    if !may_begin(expected, b) {
        return Err(SyntaxError {
            kind: unexpected(b),
            left: bytes.len(),
        });
    }
    if !has_room(depth, b) {
        return Err(SyntaxError {
            kind: TextKind::TooDeep,
            left: bytes.len(),
        });
    }
    if is_digit(b) {
        let (value, rest) = number(bytes)?;
        Ok((Token::Number(value), rest))
    } else {
        word_or_sign(expected, bytes)
    }
}
