// The text of instructions, and the lines of a listing.
ghost use Rattle.std.specs.Prelude.{◌≡◌, ◌++◌, IfOk, OnOk, Some};
ghost use Rattle.lb_trace.specs.Hex.{hex_word};
ghost use Rattle.lb_rv.specs.Decoding.{instruction_of};
ghost use Rattle.lb_rv.specs.Listing.{decoded_text, instruction_text, listing_line, name};

use crate::shape::{Shape, shape_of};
use crate::{Instr, decode};
use lb_trace::hex_digits;
use std::alloc::{AllocError, Global};
use std::fmt;

/// The line of a listing for the word at an address: both as eight hexadecimal digits in lower case, and the
/// instruction, or `word` where the word has none. Fails only for want of memory.
#[tactic(auto, unfolding(crate::specs::Listing::listing_line))]
pub fn print_line(alloc: Global, at: u32, word: u32) -> Result<Vec<u8>, AllocError>
    ensures { IfOk result (λ line. line.items ≡ listing_line at word) }
{
    let mut line = Vec::new(alloc);
    line.extend_from_slice(&hex_digits(at))?;
    line.push(b' ')?;
    line.extend_from_slice(&hex_digits(word))?;
    line.push(b' ')?;
    append_decoded(alloc, &mut line, word)?;
    line.push(b'\n')?;
    Ok(line)
}

// Adds the instruction of the word.
fn append_decoded(alloc: Global, line: &mut Vec<u8>, word: u32) -> Result<(), AllocError>
    ensures { OnOk result (line.new.items ≡ line.old.items ++ decoded_text (instruction_of word)) }
{
    match decode(word) {
        Some(i) => {
            let text = format!(in alloc; "{i}")?;
            line.extend_from_slice(text.as_bytes())?;
            Ok(())
        }
        None => {
            line.extend_from_slice(b"word")?;
            Ok(())
        }
    }
}

/// The instruction as the assembler writes it, as `addi x1, x2, -1` or `lw x2, 72(x1)`. LUI and AUIPC show the upper 20
/// bits of their immediate as a number without sign.
impl fmt::Display for Instr {
    ghost output = { λ i. Some (instruction_text i) };

    fn fmt<W: fmt::Write>(&self, f: &mut fmt::Formatter<W>) -> fmt::Result {
        let name = name_of(*self);
        match shape_of(*self) {
            Shape::Upper(_, rd, imm) => write!(f, "{name} x{rd}, {}", imm >> 12),
            Shape::Jump(_, rd, imm) => write!(f, "{name} x{rd}, {imm}"),
            Shape::Immediate(_, _, rd, rs1, imm) => write!(f, "{name} x{rd}, x{rs1}, {imm}"),
            Shape::Address(_, _, rd, rs1, imm) => write!(f, "{name} x{rd}, {imm}(x{rs1})"),
            Shape::Store(_, _, rs1, rs2, imm) => write!(f, "{name} x{rs2}, {imm}(x{rs1})"),
            Shape::Branch(_, _, rs1, rs2, imm) => write!(f, "{name} x{rs1}, x{rs2}, {imm}"),
            Shape::Register(_, _, _, rd, rs1, rs2) => write!(f, "{name} x{rd}, x{rs1}, x{rs2}"),
            Shape::Shift(_, _, _, rd, rs1, imm) => write!(f, "{name} x{rd}, x{rs1}, {imm}"),
            Shape::MemoryOrder(_, _, rd, rs1, imm) => write!(f, "{name} {imm}, x{rs1}, x{rd}"),
            Shape::Whole(_) => write!(f, "{name}"),
        }
    }
}

// The instruction's name in lower case.
fn name_of(i: Instr) -> &'static str
    ensures { result.now ≡ name i }
{
    match i {
        Instr::Lui { .. } => "lui",
        Instr::Auipc { .. } => "auipc",
        Instr::Jal { .. } => "jal",
        Instr::Jalr { .. } => "jalr",
        Instr::Beq { .. } => "beq",
        Instr::Bne { .. } => "bne",
        Instr::Blt { .. } => "blt",
        Instr::Bge { .. } => "bge",
        Instr::Bltu { .. } => "bltu",
        Instr::Bgeu { .. } => "bgeu",
        Instr::Lb { .. } => "lb",
        Instr::Lh { .. } => "lh",
        Instr::Lw { .. } => "lw",
        Instr::Lbu { .. } => "lbu",
        Instr::Lhu { .. } => "lhu",
        Instr::Sb { .. } => "sb",
        Instr::Sh { .. } => "sh",
        Instr::Sw { .. } => "sw",
        Instr::Addi { .. } => "addi",
        Instr::Slti { .. } => "slti",
        Instr::Sltiu { .. } => "sltiu",
        Instr::Xori { .. } => "xori",
        Instr::Ori { .. } => "ori",
        Instr::Andi { .. } => "andi",
        Instr::Slli { .. } => "slli",
        Instr::Srli { .. } => "srli",
        Instr::Srai { .. } => "srai",
        Instr::Add { .. } => "add",
        Instr::Sub { .. } => "sub",
        Instr::Sll { .. } => "sll",
        Instr::Slt { .. } => "slt",
        Instr::Sltu { .. } => "sltu",
        Instr::Xor { .. } => "xor",
        Instr::Srl { .. } => "srl",
        Instr::Sra { .. } => "sra",
        Instr::Or { .. } => "or",
        Instr::And { .. } => "and",
        Instr::Mul { .. } => "mul",
        Instr::Mulh { .. } => "mulh",
        Instr::Mulhsu { .. } => "mulhsu",
        Instr::Mulhu { .. } => "mulhu",
        Instr::Div { .. } => "div",
        Instr::Divu { .. } => "divu",
        Instr::Rem { .. } => "rem",
        Instr::Remu { .. } => "remu",
        Instr::Fence { .. } => "fence",
        Instr::Ecall => "ecall",
        Instr::Ebreak => "ebreak",
    }
}
