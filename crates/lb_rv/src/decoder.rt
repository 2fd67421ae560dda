// The instruction of a word.
ghost use Rattle.std.specs.Prelude.{◌≡◌, ◌*◌, ◌<◌, ◌≤◌, ◌^◌, IfSome, Some};
ghost use Rattle.lb_rv.specs.declared.instr.Instr.{Instr};
ghost use Rattle.lb_rv.specs.Formats.{bits};
ghost use Rattle.lb_rv.specs.Table.{IsInRange, word_of};
ghost use Rattle.lb_rv.specs.Decoding.{Decodes, branch_of, instruction_of, jump_of, low_of, signed_by, store_of, upper_of};

use crate::Instr;

/// The one instruction that has this word, its registers and immediate in range. None exactly where no instruction has
/// it.
pub fn decode(w: u32) -> Option<Instr>
    ensures instruction { result ≡ instruction_of w }
    // `encode` gives the word again.
    ensures word { IfSome result (λ i. IsInRange i × (word_of i ≡ w)) }
    // An instruction in range that has the word is the result; so at None there is none.
    ensures only { (i : Instr) → IsInRange i → word_of i ≡ w → result ≡ Some i }
{
    by_opcode(w)
}

fn by_opcode(w: u32) -> Option<Instr>
    ensures { Decodes w result }
{
    match w & 0x7F {
        0x37 => Some(Instr::Lui {
            rd: rd(w),
            imm: upper_immediate(w),
        }),
        0x17 => Some(Instr::Auipc {
            rd: rd(w),
            imm: upper_immediate(w),
        }),
        0x6F => Some(Instr::Jal {
            rd: rd(w),
            imm: jump_immediate(w),
        }),
        0x67 => jump_register(w),
        0x63 => branch(w),
        0x03 => load(w),
        0x23 => store(w),
        0x13 => immediate(w),
        0x33 => operation(w),
        0x0F => fence(w),
        0x73 => system(w),
        _ => None,
    }
}

fn jump_register(w: u32) -> Option<Instr>
    requires { bits w 6 0 ≡ 0x67 }
    ensures { Decodes w result }
{
    match funct3(w) {
        0 => Some(Instr::Jalr {
            rd: rd(w),
            rs1: rs1(w),
            imm: low_immediate(w),
        }),
        _ => None,
    }
}

fn branch(w: u32) -> Option<Instr>
    requires { bits w 6 0 ≡ 0x63 }
    ensures { Decodes w result }
{
    let (rs1, rs2, imm) = (rs1(w), rs2(w), branch_immediate(w));
    match funct3(w) {
        0 => Some(Instr::Beq { rs1, rs2, imm }),
        1 => Some(Instr::Bne { rs1, rs2, imm }),
        4 => Some(Instr::Blt { rs1, rs2, imm }),
        5 => Some(Instr::Bge { rs1, rs2, imm }),
        6 => Some(Instr::Bltu { rs1, rs2, imm }),
        7 => Some(Instr::Bgeu { rs1, rs2, imm }),
        _ => None,
    }
}

fn load(w: u32) -> Option<Instr>
    requires { bits w 6 0 ≡ 0x03 }
    ensures { Decodes w result }
{
    let (rd, rs1, imm) = (rd(w), rs1(w), low_immediate(w));
    match funct3(w) {
        0 => Some(Instr::Lb { rd, rs1, imm }),
        1 => Some(Instr::Lh { rd, rs1, imm }),
        2 => Some(Instr::Lw { rd, rs1, imm }),
        4 => Some(Instr::Lbu { rd, rs1, imm }),
        5 => Some(Instr::Lhu { rd, rs1, imm }),
        _ => None,
    }
}

fn store(w: u32) -> Option<Instr>
    requires { bits w 6 0 ≡ 0x23 }
    ensures { Decodes w result }
{
    let (rs1, rs2, imm) = (rs1(w), rs2(w), store_immediate(w));
    match funct3(w) {
        0 => Some(Instr::Sb { rs1, rs2, imm }),
        1 => Some(Instr::Sh { rs1, rs2, imm }),
        2 => Some(Instr::Sw { rs1, rs2, imm }),
        _ => None,
    }
}

fn immediate(w: u32) -> Option<Instr>
    requires { bits w 6 0 ≡ 0x13 }
    ensures { Decodes w result }
{
    let (rd, rs1, imm) = (rd(w), rs1(w), low_immediate(w));
    match funct3(w) {
        0 => Some(Instr::Addi { rd, rs1, imm }),
        1 => shift_left(w),
        2 => Some(Instr::Slti { rd, rs1, imm }),
        3 => Some(Instr::Sltiu { rd, rs1, imm }),
        4 => Some(Instr::Xori { rd, rs1, imm }),
        5 => shift_right(w),
        6 => Some(Instr::Ori { rd, rs1, imm }),
        7 => Some(Instr::Andi { rd, rs1, imm }),
        _ => None,
    }
}

fn shift_left(w: u32) -> Option<Instr>
    requires opcode { bits w 6 0 ≡ 0x13 }
    requires funct3 { bits w 14 12 ≡ 1 }
    ensures { Decodes w result }
{
    let (rd, rs1, imm) = (rd(w), rs1(w), u32::from(rs2(w)));
    match funct7(w) {
        0x00 => Some(Instr::Slli { rd, rs1, imm }),
        _ => None,
    }
}

fn shift_right(w: u32) -> Option<Instr>
    requires opcode { bits w 6 0 ≡ 0x13 }
    requires funct3 { bits w 14 12 ≡ 5 }
    ensures { Decodes w result }
{
    let (rd, rs1, imm) = (rd(w), rs1(w), u32::from(rs2(w)));
    match funct7(w) {
        0x00 => Some(Instr::Srli { rd, rs1, imm }),
        0x20 => Some(Instr::Srai { rd, rs1, imm }),
        _ => None,
    }
}

fn operation(w: u32) -> Option<Instr>
    requires { bits w 6 0 ≡ 0x33 }
    ensures { Decodes w result }
{
    match funct7(w) {
        0x00 => basic_operation(w),
        0x01 => multiplication(w),
        0x20 => other_operation(w),
        _ => None,
    }
}

fn basic_operation(w: u32) -> Option<Instr>
    requires opcode { bits w 6 0 ≡ 0x33 }
    requires funct7 { bits w 31 25 ≡ 0x00 }
    ensures { Decodes w result }
{
    let (rd, rs1, rs2) = (rd(w), rs1(w), rs2(w));
    match funct3(w) {
        0 => Some(Instr::Add { rd, rs1, rs2 }),
        1 => Some(Instr::Sll { rd, rs1, rs2 }),
        2 => Some(Instr::Slt { rd, rs1, rs2 }),
        3 => Some(Instr::Sltu { rd, rs1, rs2 }),
        4 => Some(Instr::Xor { rd, rs1, rs2 }),
        5 => Some(Instr::Srl { rd, rs1, rs2 }),
        6 => Some(Instr::Or { rd, rs1, rs2 }),
        7 => Some(Instr::And { rd, rs1, rs2 }),
        _ => None,
    }
}

// SUB and SRA.
fn other_operation(w: u32) -> Option<Instr>
    requires opcode { bits w 6 0 ≡ 0x33 }
    requires funct7 { bits w 31 25 ≡ 0x20 }
    ensures { Decodes w result }
{
    let (rd, rs1, rs2) = (rd(w), rs1(w), rs2(w));
    match funct3(w) {
        0 => Some(Instr::Sub { rd, rs1, rs2 }),
        5 => Some(Instr::Sra { rd, rs1, rs2 }),
        _ => None,
    }
}

fn multiplication(w: u32) -> Option<Instr>
    requires opcode { bits w 6 0 ≡ 0x33 }
    requires funct7 { bits w 31 25 ≡ 0x01 }
    ensures { Decodes w result }
{
    let (rd, rs1, rs2) = (rd(w), rs1(w), rs2(w));
    match funct3(w) {
        0 => Some(Instr::Mul { rd, rs1, rs2 }),
        1 => Some(Instr::Mulh { rd, rs1, rs2 }),
        2 => Some(Instr::Mulhsu { rd, rs1, rs2 }),
        3 => Some(Instr::Mulhu { rd, rs1, rs2 }),
        4 => Some(Instr::Div { rd, rs1, rs2 }),
        5 => Some(Instr::Divu { rd, rs1, rs2 }),
        6 => Some(Instr::Rem { rd, rs1, rs2 }),
        7 => Some(Instr::Remu { rd, rs1, rs2 }),
        _ => None,
    }
}

fn fence(w: u32) -> Option<Instr>
    requires { bits w 6 0 ≡ 0x0F }
    ensures { Decodes w result }
{
    match funct3(w) {
        0 => Some(Instr::Fence {
            rd: rd(w),
            rs1: rs1(w),
            imm: w >> 20,
        }),
        _ => None,
    }
}

fn system(w: u32) -> Option<Instr>
    requires { bits w 6 0 ≡ 0x73 }
    ensures { Decodes w result }
{
    match w {
        0x0000_0073 => Some(Instr::Ecall),
        0x0010_0073 => Some(Instr::Ebreak),
        _ => None,
    }
}

// The fields of a word.

fn funct3(w: u32) -> u32
    ensures { result ≡ bits w 14 12 }
{
    w >> 12 & 7
}

fn funct7(w: u32) -> u32
    ensures { result ≡ bits w 31 25 }
{
    w >> 25
}

fn rd(w: u32) -> u8
    ensures { result ≡ bits w 11 7 }
{
    (w >> 7 & 0x1F) as u8
}

fn rs1(w: u32) -> u8
    ensures { result ≡ bits w 19 15 }
{
    (w >> 15 & 0x1F) as u8
}

fn rs2(w: u32) -> u8
    ensures { result ≡ bits w 24 20 }
{
    (w >> 20 & 0x1F) as u8
}

fn upper_immediate(w: u32) -> u32
    ensures { result ≡ upper_of w }
{
    w & 0xFFFF_F000
}

fn low_immediate(w: u32) -> i32
    ensures { result ≡ low_of w }
{
    signed(w >> 20, 1 << 11)
}

fn store_immediate(w: u32) -> i32
    ensures { result ≡ store_of w }
{
    signed(((w >> 25) << 5) + (w >> 7 & 0x1F), 1 << 11)
}

fn branch_immediate(w: u32) -> i32
    ensures { result ≡ branch_of w }
{
    let high = ((w >> 31) << 12) + ((w >> 7 & 1) << 11);
    signed(
        high + ((w >> 25 & 0x3F) << 5) + ((w >> 8 & 0xF) << 1),
        1 << 12,
    )
}

fn jump_immediate(w: u32) -> i32
    ensures { result ≡ jump_of w }
{
    let high = ((w >> 31) << 20) + ((w >> 12 & 0xFF) << 12);
    signed(
        high + ((w >> 20 & 1) << 11) + ((w >> 21 & 0x3FF) << 1),
        1 << 20,
    )
}

// The number in two's complement, where the sign bit has the weight `sign`.
fn signed(n: u32, sign: u32) -> i32
    requires width { sign ≤ 2 ^ 20 }
    requires range { n < 2 * sign }
    ensures { result ≡ signed_by sign n }
{
    if n < sign {
        n as i32
    } else {
        n as i32 - 2 * sign as i32
    }
}
