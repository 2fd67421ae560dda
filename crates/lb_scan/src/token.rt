// Tokens, and where they are taken.
ghost use Rattle.std.specs.Prelude.{◌≡◌, map, is_some};
ghost use Rattle.lb_spelling.specs.Tokens as tokens;
ghost use Rattle.lb_spelling.specs.InternalMachine.{next};
ghost use Rattle.lb_scan.specs.Tokens.{token_of, token_of_option};
ghost use Rattle.lb_scan.specs.InternalScanning.{first_spelled, begins_some, begins_taken, first_scanned, begins_scanned, begins_scanned_taken};

use crate::bytes::{begins_with, same};
use lb_spelling::{Symbol, sign_of};
use lb_syntax::{Action, Op, Width};

/// A token of a source text.
#[derive(Clone, Copy)]
pub enum Token<'a> {
    /// A number, by its value.
    Number(u32),
    /// A name, by its bytes.
    Name(&'a [u8]),
    /// `fn`.
    Fn,
    /// `if`.
    If,
    /// `else`.
    Else,
    /// `while`.
    While,
    /// `skip`.
    Skip,
    /// `unset`.
    Unset,
    /// `stackalloc`.
    StackAlloc,
    /// `as`.
    As,
    /// `load1`, `load2` or `load4`.
    Load(Width),
    /// `store1`, `store2` or `store4`.
    Store(Width),
    /// `MMIOREAD` or `MMIOWRITE`.
    Device(Action),
    /// `(`.
    OpenParen,
    /// `)`.
    CloseParen,
    /// `{`.
    OpenBrace,
    /// `}`.
    CloseBrace,
    /// `,`.
    Comma,
    /// `;`.
    Semicolon,
    /// `=`.
    Becomes,
    /// `->`.
    Arrow,
    /// The sign of an operation.
    Sign(Op),
}

// The tokens that have one spelling.
const FIXED: [Token<'static>; 39] = [
    Token::Fn,
    Token::If,
    Token::Else,
    Token::While,
    Token::Skip,
    Token::Unset,
    Token::StackAlloc,
    Token::As,
    Token::Load(Width::One),
    Token::Load(Width::Two),
    Token::Load(Width::Four),
    Token::Store(Width::One),
    Token::Store(Width::Two),
    Token::Store(Width::Four),
    Token::Device(Action::Read),
    Token::Device(Action::Write),
    Token::OpenParen,
    Token::CloseParen,
    Token::OpenBrace,
    Token::CloseBrace,
    Token::Comma,
    Token::Semicolon,
    Token::Becomes,
    Token::Arrow,
    Token::Sign(Op::Add),
    Token::Sign(Op::Sub),
    Token::Sign(Op::Mul),
    Token::Sign(Op::Mulhuu),
    Token::Sign(Op::Divu),
    Token::Sign(Op::Remu),
    Token::Sign(Op::And),
    Token::Sign(Op::Or),
    Token::Sign(Op::Xor),
    Token::Sign(Op::Sru),
    Token::Sign(Op::Slu),
    Token::Sign(Op::Srs),
    Token::Sign(Op::Lts),
    Token::Sign(Op::Ltu),
    Token::Sign(Op::Eq),
];

/// The one spelling of a token, or a name's bytes.
pub fn spelling<'a>(token: &Token<'a>) -> &'a [u8]
    ensures { result.now ≡ tokens.spelling (token_of token.now) }
{
    match token {
        Token::Number(_) => b"",
        Token::Name(bytes) => bytes,
        Token::Fn => b"fn",
        Token::If => b"if",
        Token::Else => b"else",
        Token::While => b"while",
        Token::Skip => b"skip",
        Token::Unset => b"unset",
        Token::StackAlloc => b"stackalloc",
        Token::As => b"as",
        Token::Load(Width::One) => b"load1",
        Token::Load(Width::Two) => b"load2",
        Token::Load(Width::Four) => b"load4",
        Token::Store(Width::One) => b"store1",
        Token::Store(Width::Two) => b"store2",
        Token::Store(Width::Four) => b"store4",
        Token::Device(Action::Read) => b"MMIOREAD",
        Token::Device(Action::Write) => b"MMIOWRITE",
        Token::OpenParen => b"(",
        Token::CloseParen => b")",
        Token::OpenBrace => b"{",
        Token::CloseBrace => b"}",
        Token::Comma => b",",
        Token::Semicolon => b";",
        Token::Becomes => b"=",
        Token::Arrow => b"->",
        Token::Sign(op) => sign_of(*op),
    }
}

/// The token of which these bytes are the one spelling.
pub fn fixed(bytes: &[u8]) -> Option<Token<'static>>
    ensures { token_of_option result ≡ first_spelled tokens.fixed bytes.now }
{
    token_among(&FIXED, bytes)
}

// The token among these that is spelled so.
fn token_among(table: &[Token<'static>], bytes: &[u8]) -> Option<Token<'static>>
    ensures { token_of_option result ≡ first_spelled (map token_of table.now) bytes.now }
{
    first_spelled(table, bytes)
}

fn first_spelled(table: &[Token<'static>], bytes: &[u8]) -> Option<Token<'static>>
    ensures { result ≡ first_scanned table.now bytes.now }
{
    table
        .iter()
        .copied()
        .find(|token| same(spelling(token), bytes))
}

/// Whether these bytes begin one of the fixed spellings.
pub fn begins_fixed(bytes: &[u8]) -> bool
    ensures { result ≡ begins_some tokens.fixed bytes.now }
{
    begins_some(&FIXED, bytes)
}

// Whether these bytes begin one of these tokens.
fn begins_some(table: &[Token], bytes: &[u8]) -> bool
    ensures { result ≡ begins_scanned table.now bytes.now }
{
    table
        .iter()
        .any(|token| begins_with(bytes, spelling(token)))
}

/// Whether these bytes begin one of the fixed spellings that `expected` takes.
pub fn begins_taken(expected: Symbol, bytes: &[u8]) -> bool
    ensures { result ≡ begins_taken expected tokens.fixed bytes.now }
{
    begins_some_taken(expected, &FIXED, bytes)
}

// Whether these bytes begin one of these tokens that `expected` takes.
fn begins_some_taken(expected: Symbol, table: &[Token], bytes: &[u8]) -> bool
    ensures { result ≡ begins_scanned_taken expected table.now bytes.now }
{
    table.iter().any(|token| takes(expected, token) && begins_with(bytes, spelling(token)))
}

/// Whether `expected` takes the token.
pub fn takes(expected: Symbol, token: &Token) -> bool
    ensures { result ≡ is_some (next expected (token_of token.now)) }
{
    match expected {
        Symbol::Functions => matches!(token, Token::Fn),
        Symbol::Names => matches!(token, Token::Name(_) | Token::CloseParen),
        Symbol::MoreNames | Symbol::MoreArguments => matches!(
            token,
            Token::Comma | Token::CloseParen
        ),
        Symbol::Results => matches!(token, Token::Arrow | Token::OpenBrace),
        Symbol::Block => matches!(token, Token::OpenBrace),
        Symbol::Commands => starts_command(token),
        Symbol::AfterIf => matches!(token, Token::Else) || starts_command(token),
        Symbol::AfterName => matches!(token, Token::Becomes | Token::Comma | Token::OpenParen),
        Symbol::MoreTargets => matches!(token, Token::Becomes | Token::Comma),
        Symbol::Source => starts_expression(token) || matches!(token, Token::Device(_)),
        Symbol::AfterSource => matches!(token, Token::Semicolon | Token::OpenParen),
        Symbol::Callee => matches!(token, Token::Name(_) | Token::Device(_)),
        Symbol::Arguments => starts_expression(token) || matches!(token, Token::CloseParen),
        Symbol::Expr => starts_expression(token),
        Symbol::Sign => matches!(token, Token::Sign(_)),
        Symbol::Name => matches!(token, Token::Name(_)),
        Symbol::Number => matches!(token, Token::Number(_)),
        Symbol::As => matches!(token, Token::As),
        Symbol::OpenParen => matches!(token, Token::OpenParen),
        Symbol::CloseParen => matches!(token, Token::CloseParen),
        Symbol::Comma => matches!(token, Token::Comma),
        Symbol::Semicolon => matches!(token, Token::Semicolon),
    }
}

fn starts_command(token: &Token) -> bool
    ensures { result ≡ is_some (next Symbol.Commands (token_of token.now)) }
{
    match token {
        Token::Skip | Token::Name(_) | Token::Unset | Token::Store(_) | Token::StackAlloc => true,
        Token::If | Token::While | Token::Device(_) | Token::CloseBrace => true,
        _ => false,
    }
}

fn starts_expression(token: &Token) -> bool
    ensures { result ≡ is_some (next Symbol.Expr (token_of token.now)) }
{
    matches!(
        token,
        Token::Number(_) | Token::Name(_) | Token::Load(_) | Token::OpenParen
    )
}
