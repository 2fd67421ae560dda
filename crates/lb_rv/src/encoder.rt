// The word of an instruction.
ghost use Rattle.std.specs.Prelude.{◌≡◌, ◌<◌, Some};
ghost use Rattle.lb_rv.specs.Decoding.{instruction_of};
ghost use Rattle.lb_rv.specs.Formats.{HasFixedBits, IsShapeInRange, branch_columns, columns, immediate_columns, jump_columns, register_columns, word_of_columns};
ghost use Rattle.lb_rv.specs.Table.{IsEncodedBy, IsInRange, word_of};

use crate::Instr;
use crate::shape::{Shape, shape_of};

/// The word of an instruction whose registers and immediate are in range, by the base formats and the instruction
/// listings of the RISC-V unprivileged manual (RV32I, M).
pub fn encode(i: &Instr) -> u32
    requires { IsInRange i.now }
    // Each column of the instruction's format is in the word.
    ensures columns { IsEncodedBy i.now result }
    ensures word { result ≡ word_of i.now }
    // `decode` gives the instruction again.
    ensures again { instruction_of result ≡ Some i.now }
{
    word(shape_of(*i))
}

// The word of a shape.
fn word(shape: Shape) -> u32
    requires fixed { HasFixedBits shape }
    requires range { IsShapeInRange shape }
    ensures { result ≡ word_of_columns (columns shape) }
{
    match shape {
        Shape::Upper(opcode, rd, imm) => imm + (u32::from(rd) << 7) + opcode,
        Shape::Jump(opcode, rd, imm) => jump_word(opcode, rd, imm.cast_unsigned()),
        Shape::Immediate(opcode, funct3, rd, rs1, imm) => {
            immediate_word(opcode, funct3, rd, rs1, imm.cast_unsigned() & 0xFFF)
        }
        Shape::Address(opcode, funct3, rd, rs1, imm) => {
            immediate_word(opcode, funct3, rd, rs1, imm.cast_unsigned() & 0xFFF)
        }
        Shape::Store(opcode, funct3, rs1, rs2, imm) => {
            let n = imm.cast_unsigned();
            register_word(opcode, funct3, n >> 5 & 0x7F, n & 0x1F, rs1, u32::from(rs2))
        }
        Shape::Branch(opcode, funct3, rs1, rs2, imm) => {
            branch_word(opcode, funct3, rs1, rs2, imm.cast_unsigned())
        }
        Shape::Register(opcode, funct3, funct7, rd, rs1, rs2) => {
            register_word(opcode, funct3, funct7, u32::from(rd), rs1, u32::from(rs2))
        }
        Shape::Shift(opcode, funct3, funct7, rd, rs1, imm) => {
            register_word(opcode, funct3, funct7, u32::from(rd), rs1, imm)
        }
        Shape::MemoryOrder(opcode, funct3, rd, rs1, imm) => {
            immediate_word(opcode, funct3, rd, rs1, imm)
        }
        Shape::Whole(word) => word,
    }
}

// The word of the R format. In the S and B formats low bits of the immediate stand in the place of rd, and high ones in
// that of funct7.
fn register_word(opcode: u32, funct3: u32, funct7: u32, rd: u32, rs1: u8, rs2: u32) -> u32
    requires opcode { opcode < 128 }
    requires funct3 { funct3 < 8 }
    requires funct7 { funct7 < 128 }
    requires rd { rd < 32 }
    requires rs1 { rs1 < 32 }
    requires rs2 { rs2 < 32 }
    ensures { result ≡ word_of_columns (register_columns opcode funct3 funct7 rd rs1 rs2) }
{
    (funct7 << 25) + (rs2 << 20) + (u32::from(rs1) << 15) + (funct3 << 12) + (rd << 7) + opcode
}

// The word of the I format, with the low 12 bits of the immediate.
fn immediate_word(opcode: u32, funct3: u32, rd: u8, rs1: u8, imm: u32) -> u32
    requires opcode { opcode < 128 }
    requires funct3 { funct3 < 8 }
    requires rd { rd < 32 }
    requires rs1 { rs1 < 32 }
    requires imm { imm < 4096 }
    ensures { result ≡ word_of_columns (immediate_columns opcode funct3 rd rs1 imm) }
{
    (imm << 20) + (u32::from(rs1) << 15) + (funct3 << 12) + (u32::from(rd) << 7) + opcode
}

// The word of the B format, of an immediate in two's complement.
fn branch_word(opcode: u32, funct3: u32, rs1: u8, rs2: u8, n: u32) -> u32
    requires opcode { opcode < 128 }
    requires funct3 { funct3 < 8 }
    requires rs1 { rs1 < 32 }
    requires rs2 { rs2 < 32 }
    ensures { result ≡ word_of_columns (branch_columns opcode funct3 rs1 rs2 n) }
{
    let high = ((n >> 12 & 1) << 6) + (n >> 5 & 0x3F);
    let low = ((n >> 1 & 0xF) << 1) + (n >> 11 & 1);
    register_word(opcode, funct3, high, low, rs1, u32::from(rs2))
}

// The word of the J format, of an immediate in two's complement.
fn jump_word(opcode: u32, rd: u8, n: u32) -> u32
    requires opcode { opcode < 128 }
    requires rd { rd < 32 }
    ensures { result ≡ word_of_columns (jump_columns opcode rd n) }
{
    let high = ((n >> 20 & 1) << 11) + ((n >> 1 & 0x3FF) << 1) + (n >> 11 & 1);
    (high << 20) + ((n >> 12 & 0xFF) << 12) + (u32::from(rd) << 7) + opcode
}
