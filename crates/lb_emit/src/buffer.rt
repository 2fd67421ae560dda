// Instructions, one behind the other.
use crate::immediates::{is_reached, is_short, is_upper, lower_part, upper_part};
use crate::registers::{LINK, STACK, TEMPORARY, ZERO};
use lb_rv::Instr;
use lb_syntax::Op;
use sqlite_items::Items;
use std::alloc::{AllocError, Global};
use std::marker::Model;

/// The instructions so far. Each call that adds some fails only for want of memory.
#[derive(Drop)]
pub struct CodeBuffer {
    instrs: Items<Instr>,
}

impl Model for CodeBuffer {
    ghost use Rattle.std.specs.Prelude.{List};
    ghost use Rattle.lb_rv.specs.declared.instr.Instr.{Instr};

    ghost Value = { List Instr };

    ghost view = { λ b. b.instrs };
}

impl CodeBuffer {
    ghost use Rattle.std.specs.Prelude.{◌≡◌, ◌≤◌, ◌+◌, [], ◌∷◌, ◌++◌, length, OnOk};
    ghost use Rattle.lb_syntax.specs.declared.limits.TheConstants.{MOST_WORDS};
    ghost use Rattle.lb_flat.specs.Needs.{operation_words};
    ghost use Rattle.lb_flat.specs.declared.registers.TheConstants.{MOST_SAVED};
    ghost use Rattle.lb_emit_laws.specs.Code.{over_code, over_words};
    ghost use Rattle.lb_emit_laws.specs.Instructions.{address_code, copy_code, down_code, get_code, jump, literal_code, literal_words, loads_code, lower_part, op_code, put_code, reach_words, saves_code, skip_unless_zero, up_code, upper_part, immediate};
    ghost use Rattle.lb_rv.specs.declared.instr.Instr.TheVariants as instr;

    /// No instructions.
    pub fn new(alloc: Global) -> CodeBuffer
        ensures { result ≡ [] }
    {
        CodeBuffer {
            instrs: Items::new(alloc),
        }
    }

    /// The instructions.
    pub fn as_slice(&self) -> &[Instr]
        ensures { result.now ≡ self.now }
    {
        self.instrs.as_slice()
    }

    /// The number of the next instruction.
    pub fn place(&self) -> u32
        requires { length self.now ≤ MOST_WORDS }
        ensures { result ≡ length self.now }
    {
        self.instrs.len() as u32
    }

    /// One more instruction.
    pub fn put(&mut self, instr: Instr) -> Result<(), AllocError>
        ensures code { OnOk result (self.new ≡ self.old ++ instr ∷ []) }
        ensures long { OnOk result (length self.new ≡ length self.old + 1) }
    {
        self.instrs.push(instr)?;
        Ok(())
    }

    /// The register becomes the word.
    pub fn literal(&mut self, rd: u8, n: u32) -> Result<(), AllocError>
        ensures code { OnOk result (self.new ≡ self.old ++ literal_code rd n) }
        ensures long { OnOk result (length self.new ≡ length self.old + literal_words n) }
    {
        if is_short(n) {
            self.put(Instr::Addi {
                rd,
                rs1: ZERO,
                imm: n.cast_signed(),
            })
        } else if is_upper(n) {
            self.put(Instr::Lui { rd, imm: n })
        } else {
            self.both_parts(rd, n)
        }
    }

    // The register becomes the word, in two steps.
    fn both_parts(&mut self, rd: u8, n: u32) -> Result<(), AllocError>
        ensures code { OnOk result (self.new ≡ self.old
            ++ instr.Lui rd (upper_part n) ∷ instr.Addi rd rd (immediate (lower_part n)) ∷ []) }
        ensures long { OnOk result (length self.new ≡ length self.old + 2) }
    {
        self.put(Instr::Lui {
            rd,
            imm: upper_part(n),
        })?;
        self.put(Instr::Addi {
            rd,
            rs1: rd,
            imm: lower_part(n),
        })
    }

    /// The register becomes the address at this offset of the frame.
    pub fn address(&mut self, rd: u8, offset: u32) -> Result<(), AllocError>
        ensures code { OnOk result (self.new ≡ self.old ++ address_code rd offset) }
        ensures long { OnOk result (length self.new ≡ length self.old + 3) }
    {
        self.both_parts(rd, offset)?;
        self.put(Instr::Add {
            rd,
            rs1: rd,
            rs2: STACK,
        })
    }

    /// One register becomes another.
    pub fn copy(&mut self, rd: u8, rs1: u8) -> Result<(), AllocError>
        ensures code { OnOk result (self.new ≡ self.old ++ copy_code rd rs1) }
        ensures long { OnOk result (length self.new ≡ length self.old + 1) }
    {
        self.put(Instr::Addi { rd, rs1, imm: 0 })
    }

    /// The register becomes the word at this offset of the frame.
    pub fn get_word(&mut self, rd: u8, offset: u32) -> Result<(), AllocError>
        ensures code { OnOk result (self.new ≡ self.old ++ get_code rd offset) }
        ensures long { OnOk result (length self.new ≡ length self.old + reach_words offset) }
    {
        if is_reached(offset) {
            self.put(Instr::Lw {
                rd,
                rs1: STACK,
                imm: offset.cast_signed(),
            })
        } else {
            self.upper_address(offset)?;
            self.put(Instr::Lw {
                rd,
                rs1: TEMPORARY,
                imm: lower_part(offset),
            })
        }
    }

    /// The word at this offset of the frame becomes the register.
    pub fn put_word(&mut self, offset: u32, rs2: u8) -> Result<(), AllocError>
        ensures code { OnOk result (self.new ≡ self.old ++ put_code offset rs2) }
        ensures long { OnOk result (length self.new ≡ length self.old + reach_words offset) }
    {
        if is_reached(offset) {
            self.put(Instr::Sw {
                rs1: STACK,
                rs2,
                imm: offset.cast_signed(),
            })
        } else {
            self.upper_address(offset)?;
            self.put(Instr::Sw {
                rs1: TEMPORARY,
                rs2,
                imm: lower_part(offset),
            })
        }
    }

    // The temporary becomes the address at the upper part of this offset of the frame.
    fn upper_address(&mut self, offset: u32) -> Result<(), AllocError>
        ensures code { OnOk result (self.new ≡ self.old
            ++ instr.Lui 5 (upper_part offset) ∷ instr.Add 5 5 2 ∷ []) }
        ensures long { OnOk result (length self.new ≡ length self.old + 2) }
    {
        self.put(Instr::Lui {
            rd: TEMPORARY,
            imm: upper_part(offset),
        })?;
        self.put(Instr::Add {
            rd: TEMPORARY,
            rs1: TEMPORARY,
            rs2: STACK,
        })
    }

    /// The stack pointer becomes so much smaller.
    pub fn stack_down(&mut self, size: u32) -> Result<(), AllocError>
        ensures code { OnOk result (self.new ≡ self.old ++ down_code size) }
        ensures long { OnOk result (length self.new ≡ length self.old + reach_words size) }
    {
        if is_reached(size) {
            self.put(Instr::Addi {
                rd: STACK,
                rs1: STACK,
                imm: 0u32.wrapping_sub(size).cast_signed(),
            })
        } else {
            self.both_parts(TEMPORARY, size)?;
            self.put(Instr::Sub {
                rd: STACK,
                rs1: STACK,
                rs2: TEMPORARY,
            })
        }
    }

    /// The stack pointer becomes so much greater.
    pub fn stack_up(&mut self, size: u32) -> Result<(), AllocError>
        ensures code { OnOk result (self.new ≡ self.old ++ up_code size) }
        ensures long { OnOk result (length self.new ≡ length self.old + reach_words size) }
    {
        if is_reached(size) {
            self.put(Instr::Addi {
                rd: STACK,
                rs1: STACK,
                imm: size.cast_signed(),
            })
        } else {
            self.both_parts(TEMPORARY, size)?;
            self.put(Instr::Add {
                rd: STACK,
                rs1: STACK,
                rs2: TEMPORARY,
            })
        }
    }

    /// The registers are saved, in turn, in the words from the stack pointer up.
    pub fn save(&mut self, registers: &[u8]) -> Result<(), AllocError>
        requires { length registers.now ≤ MOST_SAVED }
        ensures code { OnOk result (self.new ≡ self.old ++ saves_code 0 registers.now) }
        ensures long { OnOk result (length self.new ≡ length self.old + length registers.now) }
    {
        let mut offset = 0u32;
        for register in registers {
            self.put(Instr::Sw {
                rs1: STACK,
                rs2: *register,
                imm: offset.cast_signed(),
            })?;
            offset += 4;
        }
        Ok(())
    }

    /// The registers are loaded again from there.
    pub fn restore(&mut self, registers: &[u8]) -> Result<(), AllocError>
        requires { length registers.now ≤ MOST_SAVED }
        ensures code { OnOk result (self.new ≡ self.old ++ loads_code 0 registers.now) }
        ensures long { OnOk result (length self.new ≡ length self.old + length registers.now) }
    {
        let mut offset = 0u32;
        for register in registers {
            self.put(Instr::Lw {
                rd: *register,
                rs1: STACK,
                imm: offset.cast_signed(),
            })?;
            offset += 4;
        }
        Ok(())
    }

    /// Back to the caller.
    pub fn back(&mut self) -> Result<(), AllocError>
        ensures code { OnOk result (self.new ≡ self.old ++ instr.Jalr 0 1 (immediate 0) ∷ []) }
        ensures long { OnOk result (length self.new ≡ length self.old + 1) }
    {
        self.put(Instr::Jalr {
            rd: ZERO,
            rs1: LINK,
            imm: 0,
        })
    }

    /// A jump to the instruction of this number, where `rd` becomes the address behind it.
    pub fn jump_to(&mut self, rd: u8, to: u32) -> Result<(), AllocError>
        requires from { length self.old ≤ MOST_WORDS }
        requires to { to ≤ MOST_WORDS }
        ensures code { OnOk result (self.new ≡ self.old ++ jump rd (length self.old) to ∷ []) }
        ensures long { OnOk result (length self.new ≡ length self.old + 1) }
    {
        let from = self.place();
        self.put(Instr::Jal {
            rd,
            imm: (4 * to).wrapping_sub(4 * from).cast_signed(),
        })
    }

    /// A jump over so many instructions, or nothing where there are none.
    pub fn jump_over(&mut self, words: u32) -> Result<(), AllocError>
        requires { length self.old + over_words words + words ≤ MOST_WORDS }
        ensures code { OnOk result (self.new ≡ self.old ++ over_code (length self.old) words) }
        ensures long { OnOk result (length self.new ≡ length self.old + over_words words) }
    {
        if words == 0 {
            return Ok(());
        }
        let behind = self.place() + 1 + words;
        self.jump_to(ZERO, behind)
    }

    /// Over the next instruction, where the register isn't 0.
    pub fn skip_unless_zero(&mut self, rs1: u8) -> Result<(), AllocError>
        ensures code { OnOk result (self.new ≡ self.old ++ skip_unless_zero rs1 ∷ []) }
        ensures long { OnOk result (length self.new ≡ length self.old + 1) }
    {
        self.put(Instr::Bne {
            rs1,
            rs2: ZERO,
            imm: 8,
        })
    }

    /// The register `rd` becomes an operation on two registers.
    pub fn operation(&mut self, op: Op, rd: u8, rs1: u8, rs2: u8) -> Result<(), AllocError>
        ensures code { OnOk result (self.new ≡ self.old ++ op_code op rd rs1 rs2) }
        ensures long { OnOk result (length self.new ≡ length self.old + operation_words op) }
    {
        match op {
            Op::Add => self.put(Instr::Add { rd, rs1, rs2 }),
            Op::Sub => self.put(Instr::Sub { rd, rs1, rs2 }),
            Op::Mul => self.put(Instr::Mul { rd, rs1, rs2 }),
            Op::Mulhuu => self.put(Instr::Mulhu { rd, rs1, rs2 }),
            Op::Divu => self.put(Instr::Divu { rd, rs1, rs2 }),
            Op::Remu => self.put(Instr::Remu { rd, rs1, rs2 }),
            Op::And => self.put(Instr::And { rd, rs1, rs2 }),
            Op::Or => self.put(Instr::Or { rd, rs1, rs2 }),
            Op::Xor => self.put(Instr::Xor { rd, rs1, rs2 }),
            Op::Sru => self.put(Instr::Srl { rd, rs1, rs2 }),
            Op::Slu => self.put(Instr::Sll { rd, rs1, rs2 }),
            Op::Srs => self.put(Instr::Sra { rd, rs1, rs2 }),
            Op::Lts => self.put(Instr::Slt { rd, rs1, rs2 }),
            Op::Ltu => self.put(Instr::Sltu { rd, rs1, rs2 }),
            Op::Eq => {
                self.put(Instr::Sub { rd, rs1, rs2 })?;
                self.put(Instr::Sltiu {
                    rd,
                    rs1: rd,
                    imm: 1,
                })
            }
        }
    }
}
