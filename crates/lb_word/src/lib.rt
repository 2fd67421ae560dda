//! Arithmetic on words of 32 bits: the operations of the source language, and the M extension's signed ones.
//!
//! A word is a `u32`. All results are modulo 2^32. A signed operation reads its words in two's complement.
//! The results are those of the RISC-V unprivileged manual, RV32I and the M extension, for the instructions that
//! stand in brackets.
#![tactic(auto)]

ghost use Rattle.std.specs.Prelude.{◌≡◌, ◌^◌, ◌-◌};
ghost use Rattle.lb_word.specs.Bytes.{bytes_of_word, word_of_bytes};
ghost use Rattle.lb_word.specs.Signed.{floor_quotient, residue};
ghost use Rattle.lb_word.specs.Word.{add_of, and_of, div_of, divu_of, eq_of, lts_of, ltu_of, mul_of, mulh_of, mulhsu_of, mulhuu_of, or_of, rem_of, remu_of, slu_of, srs_of, sru_of, sub_of, xor_of};

/// The sum (ADD).
pub fn add(a: u32, b: u32) -> u32
    ensures { result ≡ add_of a b }
{
    a.wrapping_add(b)
}

/// The difference `a - b` (SUB).
pub fn sub(a: u32, b: u32) -> u32
    ensures { result ≡ sub_of a b }
{
    a.wrapping_sub(b)
}

/// The lower half of the product (MUL).
pub fn mul(a: u32, b: u32) -> u32
    ensures { result ≡ mul_of a b }
{
    a.wrapping_mul(b)
}

/// The upper half of the product, both unsigned (MULHU).
pub fn mulhuu(a: u32, b: u32) -> u32
    ensures { result ≡ mulhuu_of a b }
{
    ((u64::from(a) * u64::from(b)) >> 32) as u32
}

/// The unsigned quotient; by zero 0xFFFFFFFF (DIVU).
pub fn divu(a: u32, b: u32) -> u32
    ensures { result ≡ divu_of a b }
{
    a.checked_div(b).unwrap_or(u32::MAX)
}

/// The unsigned remainder; by zero the dividend (REMU).
pub fn remu(a: u32, b: u32) -> u32
    ensures { result ≡ remu_of a b }
{
    a.checked_rem(b).unwrap_or(a)
}

/// The bits that are set in both (AND).
pub fn and_(a: u32, b: u32) -> u32
    ensures { result ≡ and_of a b }
{
    a & b
}

/// The bits that are set in one at least (OR).
pub fn or_(a: u32, b: u32) -> u32
    ensures { result ≡ or_of a b }
{
    a | b
}

/// The bits that are set in exactly one (XOR).
pub fn xor(a: u32, b: u32) -> u32
    ensures { result ≡ xor_of a b }
{
    a ^ b
}

/// Shifts `a` right by the low five bits of `b`; zeros come in (SRL).
pub fn sru(a: u32, b: u32) -> u32
    ensures { result ≡ sru_of a b }
{
    a.wrapping_shr(b)
}

/// Shifts `a` left by the low five bits of `b` (SLL).
pub fn slu(a: u32, b: u32) -> u32
    ensures { result ≡ slu_of a b }
{
    a.wrapping_shl(b)
}

/// Shifts `a` right by the low five bits of `b`; the sign comes in (SRA).
#[tactic(auto, using(crate::proofs::ResultLemmas::shifts))]
pub fn srs(a: u32, b: u32) -> u32
    ensures { result ≡ srs_of a b }
{
    a.cast_signed().wrapping_shr(b).cast_unsigned()
}

/// 1 where `a` is below `b`, both signed, else 0 (SLT).
#[tactic(auto, using(crate::proofs::ResultLemmas::comparisons))]
pub fn lts(a: u32, b: u32) -> u32
    ensures { result ≡ lts_of a b }
{
    u32::from(a.cast_signed() < b.cast_signed())
}

/// 1 where `a` is below `b`, both unsigned, else 0 (SLTU).
pub fn ltu(a: u32, b: u32) -> u32
    ensures { result ≡ ltu_of a b }
{
    u32::from(a < b)
}

/// 1 where the words are equal, else 0.
pub fn eq(a: u32, b: u32) -> u32
    ensures { result ≡ eq_of a b }
{
    u32::from(a == b)
}

// The upper half of a product of 64 bits.
#[tactic(auto, using(crate::proofs::ResultLemmas::upper_half_cast))]
fn upper_half(product: i64) -> u32
    ensures { result ≡ residue (floor_quotient product (2 ^ 32)) }
{
    ((product >> 32) as i32).cast_unsigned()
}

/// The upper half of the product, both signed (MULH).
#[tactic(auto, using(crate::proofs::ResultLemmas::products))]
pub fn mulh(a: u32, b: u32) -> u32
    ensures { result ≡ mulh_of a b }
{
    upper_half(i64::from(a.cast_signed()) * i64::from(b.cast_signed()))
}

/// The upper half of the product, `a` signed and `b` unsigned (MULHSU).
#[tactic(auto, using(crate::proofs::ResultLemmas::products))]
pub fn mulhsu(a: u32, b: u32) -> u32
    ensures { result ≡ mulhsu_of a b }
{
    upper_half(i64::from(a.cast_signed()) * i64::from(b))
}

/// The signed quotient, rounded toward zero; by zero 0xFFFFFFFF. It wraps at -2^31 by -1, to -2^31 (DIV).
pub fn div(a: u32, b: u32) -> u32
    ensures value { result ≡ div_of a b }
    ensures overflow { a ≡ 2 ^ 31 → b ≡ 2 ^ 32 - 1 → result ≡ 2 ^ 31 }
{
    if b == 0 {
        return u32::MAX;
    }
    let quotient = a.cast_signed().wrapping_div(b.cast_signed());
    quotient.cast_unsigned()
}

/// The signed remainder, with the dividend's sign; by zero the dividend. At -2^31 by -1 it is 0 (REM).
#[tactic(auto, using(crate::proofs::ResultLemmas::remainders))]
pub fn rem(a: u32, b: u32) -> u32
    ensures value { result ≡ rem_of a b }
    ensures overflow { a ≡ 2 ^ 31 → b ≡ 2 ^ 32 - 1 → result ≡ 0 }
{
    if b == 0 {
        return a;
    }
    let remainder = a.cast_signed().wrapping_rem(b.cast_signed());
    remainder.cast_unsigned()
}

/// The word of four bytes, the least significant first.
pub fn word_of(b: [u8; 4]) -> u32
    ensures value { result ≡ word_of_bytes b }
    ensures inverse { bytes_of_word result ≡ b }
{
    u32::from_le_bytes(b)
}

/// The four bytes of a word, the least significant first.
pub fn bytes_of(w: u32) -> [u8; 4]
    ensures value { result ≡ bytes_of_word w }
    ensures inverse { word_of_bytes result ≡ w }
{
    w.to_le_bytes()
}
