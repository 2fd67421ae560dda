// Single instructions, and how many a small thing takes.
ghost use Rattle.std.specs.Prelude.{◌≡◌, ◌≤◌};
ghost use Rattle.lb_flat.specs.Needs.{operation_words};
ghost use Rattle.lb_emit_laws.specs.Code.{over_words};
ghost use Rattle.lb_emit_laws.specs.Instructions.{literal_words, load_instr, reach_words, store_instr};

use crate::immediates::{is_reached, is_short, is_upper};
use lb_rv::Instr;
use lb_syntax::{Op, Width};

/// The register `rd` becomes the bytes from the address in `rs1` on.
pub fn load(width: Width, rd: u8, rs1: u8) -> Instr
    ensures { result ≡ load_instr width rd rs1 }
{
    match width {
        Width::One => Instr::Lbu { rd, rs1, imm: 0 },
        Width::Two => Instr::Lhu { rd, rs1, imm: 0 },
        Width::Four => Instr::Lw { rd, rs1, imm: 0 },
    }
}

/// The low bytes of `rs2` are written from the address in `rs1` on.
pub fn store(width: Width, rs1: u8, rs2: u8) -> Instr
    ensures { result ≡ store_instr width rs1 rs2 }
{
    match width {
        Width::One => Instr::Sb { rs1, rs2, imm: 0 },
        Width::Two => Instr::Sh { rs1, rs2, imm: 0 },
        Width::Four => Instr::Sw { rs1, rs2, imm: 0 },
    }
}

/// How many instructions make a register this word.
pub fn words_of_literal(n: u32) -> u32
    ensures { result ≡ literal_words n }
{
    if is_short(n) || is_upper(n) { 1 } else { 2 }
}

/// How many instructions get or put the word at this offset of the frame.
pub fn words_of_reach(offset: u32) -> u32
    ensures words { result ≡ reach_words offset }
    ensures few { result ≤ 3 }
{
    if is_reached(offset) { 1 } else { 3 }
}

/// How many instructions go over so many.
pub fn words_over(words: u32) -> u32
    ensures words { result ≡ over_words words }
    ensures few { result ≤ 1 }
{
    if words == 0 { 0 } else { 1 }
}

/// How many instructions an operation takes.
pub fn words_of_operation(op: Op) -> u32
    ensures { result ≡ operation_words op }
{
    match op {
        Op::Eq => 2,
        _ => 1,
    }
}
