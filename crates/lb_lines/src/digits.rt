// Numbers in hexadecimal, with digits of either case.
ghost use Rattle.std.specs.Prelude.{◌≡◌, ◌/◌, ◌%◌, ℕ, IfSome, IfNone, IfOk, IfErr};
ghost use Rattle.lb_lines.specs.Digits.{SpellsWord, SpellsBytes};
ghost use Rattle.lb_lines.specs.InternalReading.{IsDigit, RefusesBytes};

use crate::fault::LineKind;
use crate::form::Refusal;
use std::alloc::Global;

/// The word that these eight digits are.
pub fn word(digits: &[u8]) -> Option<u32>
    ensures found { IfSome result (SpellsWord digits.now) }
    ensures none { IfNone result ((w : ℕ) → SpellsWord digits.now w → ⊥) }
{
    if digits.len() != 8 {
        return None;
    }
    let mut word = 0;
    for c in digits {
        word = word * 16 + u32::from(digit(*c)?);
    }
    Some(word)
}

/// The bytes that these digits are, two for each; there may be none.
pub fn bytes(alloc: Global, digits: &[u8]) -> Result<Vec<u8>, Refusal>
    ensures read { IfOk result (λ bytes. SpellsBytes digits.now bytes.items) }
    ensures refused { IfErr result (RefusesBytes digits.now) }
{
    let mut bytes = Vec::new(alloc);
    let mut rest = digits;
    while let Some((pair, behind)) = rest.split_first_chunk::<2>() {
        let Some(byte) = byte(pair[0], pair[1]) else {
            return Err(Refusal::Outside(LineKind::Malformed));
        };
        bytes.push(byte)?;
        rest = behind;
    }
    if rest.is_empty() {
        Ok(bytes)
    } else {
        Err(Refusal::Outside(LineKind::Malformed))
    }
}

// The byte that two digits are.
fn byte(high: u8, low: u8) -> Option<u8>
    ensures high { IfSome result (λ b. IsDigit high (b / 16)) }
    ensures low { IfSome result (λ b. IsDigit low (b % 16)) }
    ensures none { IfNone result ((h l : ℕ) → IsDigit high h → IsDigit low l → ⊥) }
{
    Some(digit(high)? * 16 + digit(low)?)
}

// The digit that a character is.
fn digit(c: u8) -> Option<u8>
    ensures found { IfSome result (IsDigit c) }
    ensures none { IfNone result ((d : ℕ) → IsDigit c d → ⊥) }
{
    match c {
        b'0'..=b'9' => Some(c - b'0'),
        b'a'..=b'f' => Some(c - b'a' + 10),
        b'A'..=b'F' => Some(c - b'A' + 10),
        _ => None,
    }
}
