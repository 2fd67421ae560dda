// The instructions, and why a processor halts.

/// An instruction of RV32I or of the M extension, as the RISC-V unprivileged manual has them; FENCE, ECALL and EBREAK
/// among them, without FENCE.I.
///
/// `rd`, `rs1` and `rs2` are registers, from 0 to 31. An immediate is the value that the instruction works with, its sign
/// included. In range are the multiples of 4,096 for LUI and AUIPC; the even numbers from -1,048,576 to 1,048,574 for JAL;
/// the even numbers from -4,096 to 4,094 for branches; 0 to 31 for the shifts by an immediate; 0 to 4,095 for FENCE; and
/// -2,048 to 2,047 for all others.
#[derive(Clone, Copy, Debug, PartialEq, Eq)]
pub enum Instr {
    /// Load upper immediate: `rd` becomes `imm`.
    Lui { rd: u8, imm: u32 },
    /// Add upper immediate to pc: `rd` becomes the pc plus `imm`.
    Auipc { rd: u8, imm: u32 },
    /// Jump and link: `rd` becomes the next address, and the pc the pc plus `imm`.
    Jal { rd: u8, imm: i32 },
    /// Jump and link register: `rd` becomes the next address, and the pc `rs1` plus `imm` with bit 0 cleared.
    Jalr { rd: u8, rs1: u8, imm: i32 },
    /// Branch where the registers are equal: the pc becomes the pc plus `imm`.
    Beq { rs1: u8, rs2: u8, imm: i32 },
    /// Branch where the registers are not equal: the pc becomes the pc plus `imm`.
    Bne { rs1: u8, rs2: u8, imm: i32 },
    /// Branch where `rs1` is less, both signed: the pc becomes the pc plus `imm`.
    Blt { rs1: u8, rs2: u8, imm: i32 },
    /// Branch where `rs1` is not less, both signed: the pc becomes the pc plus `imm`.
    Bge { rs1: u8, rs2: u8, imm: i32 },
    /// Branch where `rs1` is less, both unsigned: the pc becomes the pc plus `imm`.
    Bltu { rs1: u8, rs2: u8, imm: i32 },
    /// Branch where `rs1` is not less, both unsigned: the pc becomes the pc plus `imm`.
    Bgeu { rs1: u8, rs2: u8, imm: i32 },
    /// Load byte, with its sign.
    Lb { rd: u8, rs1: u8, imm: i32 },
    /// Load halfword, with its sign.
    Lh { rd: u8, rs1: u8, imm: i32 },
    /// Load word.
    Lw { rd: u8, rs1: u8, imm: i32 },
    /// Load byte, without sign.
    Lbu { rd: u8, rs1: u8, imm: i32 },
    /// Load halfword, without sign.
    Lhu { rd: u8, rs1: u8, imm: i32 },
    /// Store byte: the lowest of `rs2`.
    Sb { rs1: u8, rs2: u8, imm: i32 },
    /// Store halfword: the lower of `rs2`.
    Sh { rs1: u8, rs2: u8, imm: i32 },
    /// Store word.
    Sw { rs1: u8, rs2: u8, imm: i32 },
    /// Add immediate.
    Addi { rd: u8, rs1: u8, imm: i32 },
    /// Set less than immediate, both signed: 1 or 0.
    Slti { rd: u8, rs1: u8, imm: i32 },
    /// Set less than immediate, both unsigned, the immediate with its sign first: 1 or 0.
    Sltiu { rd: u8, rs1: u8, imm: i32 },
    /// Exclusive or with an immediate.
    Xori { rd: u8, rs1: u8, imm: i32 },
    /// Or with an immediate.
    Ori { rd: u8, rs1: u8, imm: i32 },
    /// And with an immediate.
    Andi { rd: u8, rs1: u8, imm: i32 },
    /// Shift left by an immediate.
    Slli { rd: u8, rs1: u8, imm: u32 },
    /// Shift right by an immediate; zeros come in.
    Srli { rd: u8, rs1: u8, imm: u32 },
    /// Shift right by an immediate; the sign comes in.
    Srai { rd: u8, rs1: u8, imm: u32 },
    /// Add.
    Add { rd: u8, rs1: u8, rs2: u8 },
    /// Subtract `rs2` from `rs1`.
    Sub { rd: u8, rs1: u8, rs2: u8 },
    /// Shift `rs1` left by the low five bits of `rs2`.
    Sll { rd: u8, rs1: u8, rs2: u8 },
    /// Set where `rs1` is less than `rs2`, both signed: 1 or 0.
    Slt { rd: u8, rs1: u8, rs2: u8 },
    /// Set where `rs1` is less than `rs2`, both unsigned: 1 or 0.
    Sltu { rd: u8, rs1: u8, rs2: u8 },
    /// Exclusive or.
    Xor { rd: u8, rs1: u8, rs2: u8 },
    /// Shift `rs1` right by the low five bits of `rs2`; zeros come in.
    Srl { rd: u8, rs1: u8, rs2: u8 },
    /// Shift `rs1` right by the low five bits of `rs2`; the sign comes in.
    Sra { rd: u8, rs1: u8, rs2: u8 },
    /// Or.
    Or { rd: u8, rs1: u8, rs2: u8 },
    /// And.
    And { rd: u8, rs1: u8, rs2: u8 },
    /// The lower half of the product.
    Mul { rd: u8, rs1: u8, rs2: u8 },
    /// The upper half of the product, both signed.
    Mulh { rd: u8, rs1: u8, rs2: u8 },
    /// The upper half of the product, `rs1` signed and `rs2` unsigned.
    Mulhsu { rd: u8, rs1: u8, rs2: u8 },
    /// The upper half of the product, both unsigned.
    Mulhu { rd: u8, rs1: u8, rs2: u8 },
    /// The quotient, both signed.
    Div { rd: u8, rs1: u8, rs2: u8 },
    /// The quotient, both unsigned.
    Divu { rd: u8, rs1: u8, rs2: u8 },
    /// The remainder, both signed.
    Rem { rd: u8, rs1: u8, rs2: u8 },
    /// The remainder, both unsigned.
    Remu { rd: u8, rs1: u8, rs2: u8 },
    /// Order memory accesses: does nothing here. `imm` is bits 31 to 20 of the word, as a number without sign.
    Fence { rd: u8, rs1: u8, imm: u32 },
    /// Call of the environment: the processor halts.
    Ecall,
    /// Break to a debugger: the processor halts.
    Ebreak,
}

/// Why a processor halts before an instruction. The causes are tried in this order.
#[derive(Clone, Copy, Debug, PartialEq, Eq)]
pub enum Cause {
    /// The pc isn't a multiple of 4, or isn't below the end of the code.
    BadPc,
    /// The word at the pc is no instruction.
    UnknownWord,
    /// The instruction is ECALL.
    Ecall,
    /// The instruction is EBREAK.
    Ebreak,
    /// A store lies wholly in RAM and touches a byte of the code.
    StoreToCode,
    /// A load or store isn't wholly in RAM, and is no access of an aligned word of a device.
    BadAccess,
}
