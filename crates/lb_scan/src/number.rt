// Numbers.
ghost use Rattle.std.specs.Prelude.{◌≡◌, ◌≤◌, ◌+◌, ◌*◌, true, IfOk, IfErr};
ghost use Rattle.lb_scan.specs.InternalScanning.{begins_with_digit, ReadsDigits, DigitsFault, HexadecimalFault, IsBehindMark, IsWordOrNone, ReadsNumber, ReadsNoNumber, NumberFault};

use crate::bytes::unexpected;
use crate::gap::first;
use crate::syntax_error::SyntaxError;
use lb_spelling::TextKind;
use lb_syntax::is_name_byte;

/// The number at the front, which begins with a digit, and the bytes behind it.
pub fn number(bytes: &[u8]) -> Result<(u32, &[u8]), SyntaxError>
    requires { begins_with_digit 10 bytes.now ≡ true }
    ensures found { IfOk result (λ r. ReadsNumber bytes.now r.0 r.1.now) }
    ensures fault { IfErr result (λ error. NumberFault bytes.now error) }
    ensures refused { IfErr result (λ _. ReadsNoNumber bytes.now) }
{
    match behind_mark(bytes) {
        None => digits(10, bytes),
        Some(rest) => hexadecimal(rest),
    }
}

// The bytes behind the mark of a hexadecimal number.
fn behind_mark(bytes: &[u8]) -> Option<&[u8]>
    ensures { IsBehindMark bytes.now result }
{
    bytes.strip_prefix(b"0x")
}

// The number behind its mark, which has one digit or more.
fn hexadecimal(bytes: &[u8]) -> Result<(u32, &[u8]), SyntaxError>
    ensures found { IfOk result (λ r. ReadsDigits 16 bytes.now r.0 r.1.now) }
    ensures fault { IfErr result (λ error. HexadecimalFault bytes.now error) }
{
    let Some((b, _)) = first(bytes) else {
        return Err(SyntaxError {
            kind: TextKind::Ended,
            left: 0,
        });
    };
    if !(b as char).is_digit(16) {
        return Err(SyntaxError {
            kind: unexpected(b),
            left: bytes.len(),
        });
    }
    digits(16, bytes)
}

// The number of these digits, as many as there are, and the bytes behind them.
fn digits(radix: u32, bytes: &[u8]) -> Result<(u32, &[u8]), SyntaxError>
    requires low { 2 ≤ radix }
    requires high { radix ≤ 16 }
    requires some { begins_with_digit radix bytes.now ≡ true }
    ensures found { IfOk result (λ r. ReadsDigits radix bytes.now r.0 r.1.now) }
    ensures fault { IfErr result (λ error. DigitsFault radix bytes.now error) }
{
    let mut value: u32 = 0;
    let mut rest = bytes;
    while let Some((b, after)) = first(rest) {
        if !is_name_byte(b) {
            return Ok((value, rest));
        }
        let Some(digit) = (b as char).to_digit(radix) else {
            return Err(SyntaxError {
                kind: unexpected(b),
                left: rest.len(),
            });
        };
        let Some(longer) = with_digit(value, radix, digit) else {
            return Err(SyntaxError {
                kind: TextKind::NumberTooWide,
                left: rest.len(),
            });
        };
        value = longer;
        rest = after;
    }
    Ok((value, rest))
}

// The number with one digit more, if it is below 2^32.
fn with_digit(value: u32, radix: u32, digit: u32) -> Option<u32>
    ensures { IsWordOrNone (value * radix + digit) result }
{
    value.checked_mul(radix)?.checked_add(digit)
}
