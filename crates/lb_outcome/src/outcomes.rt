// What an instruction comes to.
ghost use Rattle.std.specs.Prelude.{◌≡◌, ◌≤◌};
ghost use Rattle.lb_rv.specs.Effects.{access, effect, next_address, plus_immediate};
ghost use Rattle.lb_outcome.specs.Outcomes.{comes_to, halts, loads_at, outcome_of, plain, stores_at};
ghost use Rattle.lb_outcome.specs.InternalOutcomes.{branches};

use crate::memory_map::{device_word, in_ram};
use crate::types::{Executed, Outcome};
use lb_rv::{Cause, Instr};
use lb_word::{
    add, and_, div, divu, eq, lts, ltu, mul, mulh, mulhsu, mulhuu, or_, rem, remu, slu, srs, sru,
    sub, xor,
};

/// The outcome of an instruction at `pc` whose registers rs1 and rs2 hold `left` and `right`; the code has `code_bytes`
/// bytes from address 0 on.
pub fn outcome(i: Instr, pc: u32, left: u32, right: u32, code_bytes: u32) -> Executed
    ensures { result ≡ outcome_of code_bytes i pc (effect i pc left right) }
{
    match i {
        Instr::Lui { rd, imm } => sets(rd, imm, behind(pc)),
        Instr::Auipc { rd, imm } => sets(rd, add(pc, imm), behind(pc)),
        Instr::Jal { rd, imm } => sets(rd, behind(pc), add_immediate(pc, imm)),
        Instr::Jalr { rd, imm, .. } => sets(rd, behind(pc), add_immediate(left, imm) / 2 * 2),
        Instr::Beq { imm, .. } => branch(eq(left, right) == 1, pc, imm),
        Instr::Bne { imm, .. } => branch(eq(left, right) == 0, pc, imm),
        Instr::Blt { imm, .. } => branch(lts(left, right) == 1, pc, imm),
        Instr::Bge { imm, .. } => branch(lts(left, right) == 0, pc, imm),
        Instr::Bltu { imm, .. } => branch(ltu(left, right) == 1, pc, imm),
        Instr::Bgeu { imm, .. } => branch(ltu(left, right) == 0, pc, imm),
        Instr::Lb { imm, .. } => load(i, pc, add_immediate(left, imm)),
        Instr::Lh { imm, .. } => load(i, pc, add_immediate(left, imm)),
        Instr::Lw { imm, .. } => load(i, pc, add_immediate(left, imm)),
        Instr::Lbu { imm, .. } => load(i, pc, add_immediate(left, imm)),
        Instr::Lhu { imm, .. } => load(i, pc, add_immediate(left, imm)),
        Instr::Sb { imm, .. } => store(i, pc, add_immediate(left, imm), right, code_bytes),
        Instr::Sh { imm, .. } => store(i, pc, add_immediate(left, imm), right, code_bytes),
        Instr::Sw { imm, .. } => store(i, pc, add_immediate(left, imm), right, code_bytes),
        Instr::Addi { rd, imm, .. } => sets(rd, add_immediate(left, imm), behind(pc)),
        Instr::Slti { rd, imm, .. } => sets(rd, lts(left, imm.cast_unsigned()), behind(pc)),
        Instr::Sltiu { rd, imm, .. } => sets(rd, ltu(left, imm.cast_unsigned()), behind(pc)),
        Instr::Xori { rd, imm, .. } => sets(rd, xor(left, imm.cast_unsigned()), behind(pc)),
        Instr::Ori { rd, imm, .. } => sets(rd, or_(left, imm.cast_unsigned()), behind(pc)),
        Instr::Andi { rd, imm, .. } => sets(rd, and_(left, imm.cast_unsigned()), behind(pc)),
        Instr::Slli { rd, imm, .. } => sets(rd, slu(left, imm), behind(pc)),
        Instr::Srli { rd, imm, .. } => sets(rd, sru(left, imm), behind(pc)),
        Instr::Srai { rd, imm, .. } => sets(rd, srs(left, imm), behind(pc)),
        Instr::Add { rd, .. } => sets(rd, add(left, right), behind(pc)),
        Instr::Sub { rd, .. } => sets(rd, sub(left, right), behind(pc)),
        Instr::Sll { rd, .. } => sets(rd, slu(left, right), behind(pc)),
        Instr::Slt { rd, .. } => sets(rd, lts(left, right), behind(pc)),
        Instr::Sltu { rd, .. } => sets(rd, ltu(left, right), behind(pc)),
        Instr::Xor { rd, .. } => sets(rd, xor(left, right), behind(pc)),
        Instr::Srl { rd, .. } => sets(rd, sru(left, right), behind(pc)),
        Instr::Sra { rd, .. } => sets(rd, srs(left, right), behind(pc)),
        Instr::Or { rd, .. } => sets(rd, or_(left, right), behind(pc)),
        Instr::And { rd, .. } => sets(rd, and_(left, right), behind(pc)),
        Instr::Mul { rd, .. } => sets(rd, mul(left, right), behind(pc)),
        Instr::Mulh { rd, .. } => sets(rd, mulh(left, right), behind(pc)),
        Instr::Mulhsu { rd, .. } => sets(rd, mulhsu(left, right), behind(pc)),
        Instr::Mulhu { rd, .. } => sets(rd, mulhuu(left, right), behind(pc)),
        Instr::Div { rd, .. } => sets(rd, div(left, right), behind(pc)),
        Instr::Divu { rd, .. } => sets(rd, divu(left, right), behind(pc)),
        Instr::Rem { rd, .. } => sets(rd, rem(left, right), behind(pc)),
        Instr::Remu { rd, .. } => sets(rd, remu(left, right), behind(pc)),
        Instr::Fence { .. } => sets(0, 0, behind(pc)),
        Instr::Ecall => halt(Cause::Ecall, pc),
        Instr::Ebreak => halt(Cause::Ebreak, pc),
    }
}

/// A halt at `pc`.
pub fn halt(cause: Cause, pc: u32) -> Executed
    ensures { result ≡ halts cause pc }
{
    Executed {
        outcome: Outcome::Halt { cause },
        next: pc,
    }
}

// The register is set, and the next instruction is at this address.
fn sets(rd: u8, value: u32, next: u32) -> Executed
    ensures { result ≡ comes_to (plain rd value) next }
{
    let value = if rd == 0 { 0 } else { value };
    Executed {
        outcome: Outcome::Plain { rd, value },
        next,
    }
}

fn branch(is_taken: bool, pc: u32, imm: i32) -> Executed
    ensures { result ≡ branches is_taken pc imm }
{
    let next = if is_taken {
        add_immediate(pc, imm)
    } else {
        behind(pc)
    };
    sets(0, 0, next)
}

// A load at this address.
fn load(instruction: Instr, pc: u32, address: u32) -> Executed
    ensures { result ≡ loads_at instruction pc address }
{
    let bytes = access_bytes(instruction);
    let mmio = !in_ram(bytes, address);
    if mmio && !device_word(bytes, address) {
        return halt(Cause::BadAccess, pc);
    }
    Executed {
        outcome: Outcome::Load {
            instruction,
            address,
            mmio,
            served: None,
        },
        next: behind(pc),
    }
}

// A store of this value at this address.
fn store(instruction: Instr, pc: u32, address: u32, value: u32, code_bytes: u32) -> Executed
    ensures { result ≡ stores_at code_bytes instruction pc address value }
{
    let bytes = access_bytes(instruction);
    let mmio = !in_ram(bytes, address);
    if mmio && !device_word(bytes, address) {
        return halt(Cause::BadAccess, pc);
    }
    if !mmio && address < code_bytes {
        return halt(Cause::StoreToCode, pc);
    }
    Executed {
        outcome: Outcome::Store {
            instruction,
            address,
            value,
            mmio,
            served: false,
        },
        next: behind(pc),
    }
}

// How many bytes the access has.
pub(crate) fn access_bytes(i: Instr) -> u32
    ensures value { result ≡ (access i).bytes }
    ensures most { result ≤ 4 }
{
    match i {
        Instr::Lb { .. } | Instr::Lbu { .. } | Instr::Sb { .. } => 1,
        Instr::Lh { .. } | Instr::Lhu { .. } | Instr::Sh { .. } => 2,
        Instr::Lw { .. } | Instr::Sw { .. } => 4,
        _ => 0,
    }
}

// The address of the instruction behind.
fn behind(pc: u32) -> u32
    ensures { result ≡ next_address pc }
{
    add(pc, 4)
}

/// The sum of a register's value or an address with a signed immediate, modulo 2^32.
pub fn add_immediate(a: u32, imm: i32) -> u32
    ensures { result ≡ plus_immediate a imm }
{
    add(a, imm.cast_unsigned())
}
