// Words and signs, and what their beginnings may become.
ghost use Rattle.std.specs.Prelude.{◌≡◌, ◌<◌, ◌&&◌, ◌∷◌, [], true, false, None, length, take, slice_index};
ghost use Rattle.lb_spelling.specs.Tokens as tokens;
ghost use Rattle.lb_spelling.specs.InternalMachine as machine;
ghost use Rattle.lb_scan.specs.Tokens.{token_of_option};
ghost use Rattle.lb_scan.specs.InternalScanning.{IsSpelled, begins_with_digit, begins_name, BeginsToken, IsStuckIn};

use crate::bytes::{begins_with, unexpected};
use crate::gap::first;
use crate::syntax_error::SyntaxError;
use crate::token::{Token, begins_fixed, begins_taken, fixed, takes};
use lb_spelling::{Symbol, TextKind};
use lb_syntax::{are_name_bytes, is_name_byte, starts_name};

/// The length of the spelling at the front; 33 for one that is too long for a name.
pub fn spelling_len(bytes: &[u8]) -> usize
    requires { 0 < length bytes.now }
    ensures { IsSpelled bytes.now result }
{
    let end = bytes.len().min(33);
    let mut len = 1;
    while len < end {
        if !joins(bytes, len) {
            return len;
        }
        len += 1;
    }
    len
}

// Whether the byte at `len` makes the spelling before it longer.
fn joins(bytes: &[u8], len: usize) -> bool
    requires some { 0 < len }
    requires within { len < length bytes.now }
    ensures { result ≡ tokens.joins (take len bytes.now) (slice_index bytes.now len) }
{
    if are_in_run(bytes[0], bytes[len]) {
        return true;
    }
    let longer = &bytes[..len + 1];
    if begins_fixed(longer) {
        return true;
    }
    begins_with(longer, b"//")
}

#[tactic(auto, unfolding(lb_spelling::specs::Tokens::is_word_byte))]
fn are_in_run(first: u8, b: u8) -> bool
    ensures { result ≡ (tokens.is_word_byte first && tokens.is_word_byte b) }
{
    is_name_byte(first) && is_name_byte(b)
}

/// The word or sign of this spelling.
pub fn lexeme(spelling: &[u8]) -> Option<Token>
    requires { begins_with_digit 10 spelling.now ≡ false }
    ensures { token_of_option result ≡ tokens.lexeme spelling.now }
{
    match fixed(spelling) {
        Some(token) => Some(token),
        None => if is_word(spelling) {
            Some(Token::Name(spelling))
        } else {
            None
        },
    }
}

// Whether it has the form of a name or a reserved word.
#[tactic(auto, unfolding(lb_spelling::specs::Tokens::is_word, lb_spelling::specs::Tokens::is_word_byte))]
fn is_word(bytes: &[u8]) -> bool
    ensures { result ≡ tokens.is_word bytes.now }
{
    if bytes.len() > 32 {
        return false;
    }
    starts_name(bytes) && are_name_bytes(bytes)
}

/// Whether a word or sign that `expected` takes begins so, or a comment does.
pub fn begins(expected: Symbol, bytes: &[u8]) -> bool
    requires { begins_with_digit 10 bytes.now ≡ false }
    ensures { result ≡ machine.begins (expected ∷ []) bytes.now }
{
    if begins_name(expected, bytes) {
        return true;
    }
    if begins_taken(expected, bytes) {
        return true;
    }
    begins_with(bytes, b"//")
}

// Whether `expected` takes names, and these bytes begin one.
fn begins_name(expected: Symbol, bytes: &[u8]) -> bool
    ensures { result ≡ begins_name expected bytes.now }
{
    takes(expected, &Token::Name(b"")) && is_word(bytes)
}

/// Where a spelling of this length goes wrong, with which no token that `expected` takes stands at the front.
pub fn syntax_error_in(expected: Symbol, bytes: &[u8], len: usize) -> SyntaxError
    requires spelled { IsSpelled bytes.now len }
    requires token { BeginsToken bytes.now }
    requires no_digit { begins_with_digit 10 bytes.now ≡ false }
    requires begun { machine.begins (expected ∷ []) (take 1 bytes.now) ≡ true }
    requires untaken { machine.next_of expected (tokens.lexeme (take len bytes.now)) ≡ None }
    ensures { IsStuckIn expected bytes.now result }
{
    for i in 1..len {
        if !begins(expected, &bytes[..i + 1]) {
            return SyntaxError {
                kind: kind_in(&bytes[..i], bytes[i]),
                left: bytes.len() - i,
            };
        }
    }
    match first(&bytes[len..]) {
        None => SyntaxError {
            kind: TextKind::Ended,
            left: 0,
        },
        Some((b, _)) => SyntaxError {
            kind: unexpected(b),
            left: bytes.len() - len,
        },
    }
}

// The kind of the fault at a byte that would make a word or a sign longer.
fn kind_in(spelling: &[u8], b: u8) -> TextKind
    requires { begins_with_digit 10 spelling.now ≡ false }
    ensures { result ≡ machine.kind_in spelling.now b }
{
    if spelling.len() != 32 {
        return unexpected(b);
    }
    if !is_word(spelling) {
        return unexpected(b);
    }
    if is_name_byte(b) {
        TextKind::NameTooLong
    } else {
        unexpected(b)
    }
}
