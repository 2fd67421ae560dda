// The table of instructions, and the registers that each has to do with.
ghost use Rattle.std.specs.Prelude.{◌≡◌};
ghost use Rattle.lb_rv.specs.Effects.{destination, sources};
ghost use Rattle.lb_rv.specs.Table.{shape};

use crate::Instr;

/// An instruction as a format of the manual: its opcode, then its funct3, then its funct7, as far as the format has
/// them, and then its fields in the order rd, rs1, rs2, immediate.
#[derive(Clone, Copy)]
pub(crate) enum Shape {
    /// U: an upper immediate.
    Upper(u32, u8, u32),
    /// J: an offset of the pc.
    Jump(u32, u8, i32),
    /// I: a register and an immediate.
    Immediate(u32, u32, u8, u8, i32),
    /// I: a register and an offset of it.
    Address(u32, u32, u8, u8, i32),
    /// S: an address, and a register to be stored.
    Store(u32, u32, u8, u8, i32),
    /// B: two registers and an offset of the pc.
    Branch(u32, u32, u8, u8, i32),
    /// R: three registers.
    Register(u32, u32, u32, u8, u8, u8),
    /// R with a number in the place of rs2: a shift by an immediate.
    Shift(u32, u32, u32, u8, u8, u32),
    /// I with an immediate that has no sign: FENCE.
    MemoryOrder(u32, u32, u8, u8, u32),
    /// All 32 bits.
    Whole(u32),
}

/// The row of the table that the instruction is.
pub(crate) fn shape_of(i: Instr) -> Shape
    ensures { result ≡ shape i }
{
    match i {
        Instr::Lui { rd, imm } => Shape::Upper(0x37, rd, imm),
        Instr::Auipc { rd, imm } => Shape::Upper(0x17, rd, imm),
        Instr::Jal { rd, imm } => Shape::Jump(0x6F, rd, imm),
        Instr::Jalr { rd, rs1, imm } => Shape::Address(0x67, 0, rd, rs1, imm),
        Instr::Beq { rs1, rs2, imm } => Shape::Branch(0x63, 0, rs1, rs2, imm),
        Instr::Bne { rs1, rs2, imm } => Shape::Branch(0x63, 1, rs1, rs2, imm),
        Instr::Blt { rs1, rs2, imm } => Shape::Branch(0x63, 4, rs1, rs2, imm),
        Instr::Bge { rs1, rs2, imm } => Shape::Branch(0x63, 5, rs1, rs2, imm),
        Instr::Bltu { rs1, rs2, imm } => Shape::Branch(0x63, 6, rs1, rs2, imm),
        Instr::Bgeu { rs1, rs2, imm } => Shape::Branch(0x63, 7, rs1, rs2, imm),
        Instr::Lb { rd, rs1, imm } => Shape::Address(0x03, 0, rd, rs1, imm),
        Instr::Lh { rd, rs1, imm } => Shape::Address(0x03, 1, rd, rs1, imm),
        Instr::Lw { rd, rs1, imm } => Shape::Address(0x03, 2, rd, rs1, imm),
        Instr::Lbu { rd, rs1, imm } => Shape::Address(0x03, 4, rd, rs1, imm),
        Instr::Lhu { rd, rs1, imm } => Shape::Address(0x03, 5, rd, rs1, imm),
        Instr::Sb { rs1, rs2, imm } => Shape::Store(0x23, 0, rs1, rs2, imm),
        Instr::Sh { rs1, rs2, imm } => Shape::Store(0x23, 1, rs1, rs2, imm),
        Instr::Sw { rs1, rs2, imm } => Shape::Store(0x23, 2, rs1, rs2, imm),
        Instr::Addi { rd, rs1, imm } => Shape::Immediate(0x13, 0, rd, rs1, imm),
        Instr::Slti { rd, rs1, imm } => Shape::Immediate(0x13, 2, rd, rs1, imm),
        Instr::Sltiu { rd, rs1, imm } => Shape::Immediate(0x13, 3, rd, rs1, imm),
        Instr::Xori { rd, rs1, imm } => Shape::Immediate(0x13, 4, rd, rs1, imm),
        Instr::Ori { rd, rs1, imm } => Shape::Immediate(0x13, 6, rd, rs1, imm),
        Instr::Andi { rd, rs1, imm } => Shape::Immediate(0x13, 7, rd, rs1, imm),
        Instr::Slli { rd, rs1, imm } => Shape::Shift(0x13, 1, 0x00, rd, rs1, imm),
        Instr::Srli { rd, rs1, imm } => Shape::Shift(0x13, 5, 0x00, rd, rs1, imm),
        Instr::Srai { rd, rs1, imm } => Shape::Shift(0x13, 5, 0x20, rd, rs1, imm),
        Instr::Add { rd, rs1, rs2 } => Shape::Register(0x33, 0, 0x00, rd, rs1, rs2),
        Instr::Sub { rd, rs1, rs2 } => Shape::Register(0x33, 0, 0x20, rd, rs1, rs2),
        Instr::Sll { rd, rs1, rs2 } => Shape::Register(0x33, 1, 0x00, rd, rs1, rs2),
        Instr::Slt { rd, rs1, rs2 } => Shape::Register(0x33, 2, 0x00, rd, rs1, rs2),
        Instr::Sltu { rd, rs1, rs2 } => Shape::Register(0x33, 3, 0x00, rd, rs1, rs2),
        Instr::Xor { rd, rs1, rs2 } => Shape::Register(0x33, 4, 0x00, rd, rs1, rs2),
        Instr::Srl { rd, rs1, rs2 } => Shape::Register(0x33, 5, 0x00, rd, rs1, rs2),
        Instr::Sra { rd, rs1, rs2 } => Shape::Register(0x33, 5, 0x20, rd, rs1, rs2),
        Instr::Or { rd, rs1, rs2 } => Shape::Register(0x33, 6, 0x00, rd, rs1, rs2),
        Instr::And { rd, rs1, rs2 } => Shape::Register(0x33, 7, 0x00, rd, rs1, rs2),
        Instr::Mul { rd, rs1, rs2 } => Shape::Register(0x33, 0, 0x01, rd, rs1, rs2),
        Instr::Mulh { rd, rs1, rs2 } => Shape::Register(0x33, 1, 0x01, rd, rs1, rs2),
        Instr::Mulhsu { rd, rs1, rs2 } => Shape::Register(0x33, 2, 0x01, rd, rs1, rs2),
        Instr::Mulhu { rd, rs1, rs2 } => Shape::Register(0x33, 3, 0x01, rd, rs1, rs2),
        Instr::Div { rd, rs1, rs2 } => Shape::Register(0x33, 4, 0x01, rd, rs1, rs2),
        Instr::Divu { rd, rs1, rs2 } => Shape::Register(0x33, 5, 0x01, rd, rs1, rs2),
        Instr::Rem { rd, rs1, rs2 } => Shape::Register(0x33, 6, 0x01, rd, rs1, rs2),
        Instr::Remu { rd, rs1, rs2 } => Shape::Register(0x33, 7, 0x01, rd, rs1, rs2),
        Instr::Fence { rd, rs1, imm } => Shape::MemoryOrder(0x0F, 0, rd, rs1, imm),
        Instr::Ecall => Shape::Whole(0x00000073),
        Instr::Ebreak => Shape::Whole(0x00100073),
    }
}

/// The registers rs1 and rs2, as far as the instruction reads them; 0 where it doesn't. FENCE reads none.
pub fn reads(i: &Instr) -> (u8, u8)
    ensures { result ≡ sources i.now }
{
    match shape_of(*i) {
        Shape::Immediate(_, _, _, rs1, _) | Shape::Address(_, _, _, rs1, _) => (rs1, 0),
        Shape::Store(_, _, rs1, rs2, _) | Shape::Branch(_, _, rs1, rs2, _) => (rs1, rs2),
        Shape::Register(_, _, _, _, rs1, rs2) => (rs1, rs2),
        Shape::Shift(_, _, _, _, rs1, _) => (rs1, 0),
        Shape::Upper(..) | Shape::Jump(..) | Shape::MemoryOrder(..) | Shape::Whole(..) => (0, 0),
    }
}

/// The register that the instruction writes; 0 where it writes none. FENCE writes none.
pub fn writes(i: &Instr) -> u8
    ensures { result ≡ destination i.now }
{
    match shape_of(*i) {
        Shape::Upper(_, rd, _) => rd,
        Shape::Jump(_, rd, _) => rd,
        Shape::Immediate(_, _, rd, _, _) | Shape::Address(_, _, rd, _, _) => rd,
        Shape::Register(_, _, _, rd, _, _) => rd,
        Shape::Shift(_, _, _, rd, _, _) => rd,
        Shape::Store(..) | Shape::Branch(..) | Shape::MemoryOrder(..) | Shape::Whole(..) => 0,
    }
}
