// One instruction at a time.
ghost use Rattle.std.specs.Prelude.{◌≡◌, ◌<◌, slice_index, IfOk};
ghost use Rattle.std.specs.Option.{option_map};
ghost use Rattle.lb_rv.specs.Decoding.{instruction_of};
ghost use Rattle.lb_rv.specs.Effects.{destination};
ghost use Rattle.lb_outcome.specs.Cells.{cells};
ghost use Rattle.lb_outcome.specs.Fetching.{word_at};
ghost use Rattle.lb_isa.specs.declared.processor.Stepped.TheVariants.{Committed};
ghost use Rattle.lb_isa.specs.State.{processor_of};
ghost use Rattle.lb_isa.specs.Moves.{IsRefused, after_step, answer, next_answer};
ghost use Rattle.lb_isa.specs.Runs.{IsBootable, booted};
ghost use Rattle.lb_isa.specs.InternalSteps.{instruction_outcome};
ghost use Rattle.lb_isa.specs.InternalExecution.{after_branch, after_doing, after_giving, after_jump};
ghost use Rattle.lb_isa.specs.InternalExecution.{after_load, after_outcome, after_write, answer_to, with_pc};

use lb_outcome::{
    Executed, Outcome, Ram, Registers, add_immediate, at_address, decode_all, in_ram, outcome,
};
use lb_rv::{Cause, Instr, reads, writes};
use lb_trace::Event;
use lb_word::{add, and_, divu, eq, lts, ltu, mul, mulhuu, or_, remu, slu, sru, sub, xor};
use std::alloc::{AllocError, Global};
use std::marker::Model;

/// What one step did.
#[derive(Clone, Copy, Debug, PartialEq, Eq)]
pub enum Stepped {
    /// The instruction was done, and maybe accessed a device's word.
    Committed { event: Option<Event> },
    /// The instruction loads a device's word, and no reply was handed in. Nothing changed.
    WantsReply,
    /// The processor halts before the instruction. Nothing changed.
    Halted { cause: Cause },
}

/// A processor of RV32IM with its code and its RAM. Fetch reads the code as loaded.
#[derive(Drop)]
pub struct Isa {
    code: Vec<u32>,
    /// The instruction of each word.
    instructions: Vec<Option<Instr>>,
    pc: u32,
    registers: Registers,
    ram: Ram,
}

impl Model for Isa {
    ghost use Rattle.lb_isa.specs.State.{IsaContent};
    ghost use Rattle.lb_isa.specs.InternalExecution.{IsPredecoded};

    ghost Value = { IsaContent };

    ghost view = { λ m. record {
      code = m.code.items;
      pc = m.pc;
      registers = m.registers;
      ram = m.ram;
    } };

    ghost invariant = { λ m. IsPredecoded m.code.items m.instructions.items };
}

impl Isa {
    /// A processor at `entry`, a byte address, with the code's words in RAM from address 0 on; all else is 0. The code has 1
    /// to 32,768 words, and the entry is a multiple of 4 below its end. Fails only for want of memory.
    pub fn boot(alloc: Global, code: &[u32], entry: u32) -> Result<Isa, AllocError>
        requires { IsBootable code.now entry }
        ensures code { IfOk result (λ m. m.code ≡ code.now) }
        ensures processor { IfOk result (λ m. processor_of m ≡ booted code.now entry) }
    {
        let ram = Ram::boot(alloc, code)?;
        let instructions = decode_all(alloc, code)?;
        Ok(Isa {
            code: Vec::from_slice(alloc, code)?,
            instructions,
            pc: entry,
            registers: Registers::boot(),
            ram,
        })
    }

    /// Does the next instruction. A load of a device's word takes the reply; any other instruction leaves it. Answers
    /// WantsReply exactly where the next instruction loads a device's word and no reply is handed in, and Halted exactly
    /// where a cause holds before it.
    #[inline(always)]
    pub fn step(&mut self, reply: Option<u32>) -> Stepped
        ensures answer { result ≡ next_answer self.old.code reply (processor_of self.old) }
        ensures processor { processor_of self.new ≡ after_step reply self.old }
        ensures code { self.new.code ≡ self.old.code }
        // After WantsReply or Halted nothing has changed.
        ensures refused { IsRefused result → self.new ≡ self.old }
    {
        match self.fetched() {
            None => Stepped::Halted {
                cause: Cause::BadPc,
            },
            Some(None) => Stepped::Halted {
                cause: Cause::UnknownWord,
            },
            Some(Some(i)) => self.execute(i, reply),
        }
    }

    /// What a register holds; `n` is below 32.
    pub fn register(&self, n: u8) -> u32
        requires { n < 32 }
        ensures { result ≡ slice_index self.now.registers n }
    {
        self.registers.get(n)
    }

    /// The byte address of the next instruction.
    pub fn pc(&self) -> u32
        ensures { result ≡ self.now.pc }
    {
        self.pc
    }

    // The instruction at the pc: none where no word stands there, and within where the word has no instruction.
    fn fetched(&self) -> Option<Option<Instr>>
        ensures { result ≡ option_map instruction_of (word_at self.now.code self.now.pc) }
    {
        at_address(&self.instructions, self.pc)
    }

    // Does an instruction: the kinds that compiled code mostly consists of at once, since that is faster, and every other
    // one by its outcome. The hints on inlining are for speed alone: without them a step of each caller is a call, and its
    // answer goes through memory.
    #[inline(always)]
    fn execute(&mut self, i: Instr, reply: Option<u32>) -> Stepped
        ensures answer { result ≡ answer_to i reply self.old }
        ensures processor { processor_of self.new ≡ after_doing i reply self.old }
        ensures code { self.new.code ≡ self.old.code }
        ensures refused { IsRefused result → self.new ≡ self.old }
    {
        match i {
            Instr::Lui { rd, imm } => self.give(rd, imm),
            Instr::Addi { rd, rs1, imm } => {
                let value = add_immediate(self.registers.get(rs1), imm);
                self.give(rd, value)
            }
            Instr::Sltiu { rd, rs1, imm } => {
                let value = ltu(self.registers.get(rs1), imm.cast_unsigned());
                self.give(rd, value)
            }
            Instr::Jal { rd, imm } => {
                let next = add_immediate(self.pc, imm);
                self.jump(rd, next)
            }
            Instr::Jalr { rd, rs1, imm } => {
                let next = add_immediate(self.registers.get(rs1), imm) / 2 * 2;
                self.jump(rd, next)
            }
            Instr::Bne { rs1, rs2, imm } => {
                let (a, b) = self.both(rs1, rs2);
                self.branch(eq(a, b) == 0, imm)
            }
            Instr::Lw { .. } => self.load_word(i, reply),
            Instr::Sw { .. } => self.store_word(i, reply),
            _ => self.calculate(i, reply),
        }
    }

    // The same of the kinds that calculate with two registers.
    #[inline(always)]
    fn calculate(&mut self, i: Instr, reply: Option<u32>) -> Stepped
        ensures answer { result ≡ answer_to i reply self.old }
        ensures processor { processor_of self.new ≡ after_doing i reply self.old }
        ensures code { self.new.code ≡ self.old.code }
        ensures refused { IsRefused result → self.new ≡ self.old }
    {
        match i {
            Instr::Add { rd, rs1, rs2 } => {
                let (a, b) = self.both(rs1, rs2);
                self.give(rd, add(a, b))
            }
            Instr::Sub { rd, rs1, rs2 } => {
                let (a, b) = self.both(rs1, rs2);
                self.give(rd, sub(a, b))
            }
            Instr::Mul { rd, rs1, rs2 } => {
                let (a, b) = self.both(rs1, rs2);
                self.give(rd, mul(a, b))
            }
            Instr::Mulhu { rd, rs1, rs2 } => {
                let (a, b) = self.both(rs1, rs2);
                self.give(rd, mulhuu(a, b))
            }
            Instr::Divu { rd, rs1, rs2 } => {
                let (a, b) = self.both(rs1, rs2);
                self.give(rd, divu(a, b))
            }
            Instr::Remu { rd, rs1, rs2 } => {
                let (a, b) = self.both(rs1, rs2);
                self.give(rd, remu(a, b))
            }
            _ => self.combine(i, reply),
        }
    }

    // The same of the kinds that combine the bits of two registers, or compare them.
    #[inline(always)]
    fn combine(&mut self, i: Instr, reply: Option<u32>) -> Stepped
        ensures answer { result ≡ answer_to i reply self.old }
        ensures processor { processor_of self.new ≡ after_doing i reply self.old }
        ensures code { self.new.code ≡ self.old.code }
        ensures refused { IsRefused result → self.new ≡ self.old }
    {
        match i {
            Instr::And { rd, rs1, rs2 } => {
                let (a, b) = self.both(rs1, rs2);
                self.give(rd, and_(a, b))
            }
            Instr::Or { rd, rs1, rs2 } => {
                let (a, b) = self.both(rs1, rs2);
                self.give(rd, or_(a, b))
            }
            Instr::Xor { rd, rs1, rs2 } => {
                let (a, b) = self.both(rs1, rs2);
                self.give(rd, xor(a, b))
            }
            Instr::Sll { rd, rs1, rs2 } => {
                let (a, b) = self.both(rs1, rs2);
                self.give(rd, slu(a, b))
            }
            Instr::Srl { rd, rs1, rs2 } => {
                let (a, b) = self.both(rs1, rs2);
                self.give(rd, sru(a, b))
            }
            Instr::Sltu { rd, rs1, rs2 } => {
                let (a, b) = self.both(rs1, rs2);
                self.give(rd, ltu(a, b))
            }
            Instr::Slt { rd, rs1, rs2 } => {
                let (a, b) = self.both(rs1, rs2);
                self.give(rd, lts(a, b))
            }
            _ => self.by_outcome(i, reply),
        }
    }

    // The same of a load of a word from RAM.
    #[inline(always)]
    fn load_word(&mut self, i: Instr, reply: Option<u32>) -> Stepped
        ensures answer { result ≡ answer_to i reply self.old }
        ensures processor { processor_of self.new ≡ after_doing i reply self.old }
        ensures code { self.new.code ≡ self.old.code }
        ensures refused { IsRefused result → self.new ≡ self.old }
    {
        let Instr::Lw { rd, rs1, imm } = i else {
            return self.by_outcome(i, reply);
        };
        let address = add_immediate(self.registers.get(rs1), imm);
        if !in_ram(4, address) {
            return self.by_outcome(i, reply);
        }
        let next = add(self.pc, 4);
        self.load(rd, i, address, next)
    }

    // The same of a store of a word in RAM behind the code.
    #[inline(always)]
    fn store_word(&mut self, i: Instr, reply: Option<u32>) -> Stepped
        ensures answer { result ≡ answer_to i reply self.old }
        ensures processor { processor_of self.new ≡ after_doing i reply self.old }
        ensures code { self.new.code ≡ self.old.code }
        ensures refused { IsRefused result → self.new ≡ self.old }
    {
        let Instr::Sw { rs1, rs2, imm } = i else {
            return self.by_outcome(i, reply);
        };
        let (a, value) = self.both(rs1, rs2);
        let address = add_immediate(a, imm);
        if !in_ram(4, address) || address < 4 * self.code.len() as u32 {
            return self.by_outcome(i, reply);
        }
        self.ram.store(i, address, value);
        let next = add(self.pc, 4);
        self.go_to(next, None)
    }

    // Does an instruction by its outcome.
    #[inline(never)]
    fn by_outcome(&mut self, i: Instr, reply: Option<u32>) -> Stepped
        ensures answer { result ≡ answer_to i reply self.old }
        ensures processor { processor_of self.new ≡ after_doing i reply self.old }
        ensures code { self.new.code ≡ self.old.code }
        ensures refused { IsRefused result → self.new ≡ self.old }
    {
        let Executed { outcome, next } = self.outcome_of(i);
        self.commit(outcome, next, reply)
    }

    // What two registers hold.
    fn both(&self, rs1: u8, rs2: u8) -> (u32, u32)
        ensures { result ≡ (cells self.now.registers rs1, cells self.now.registers rs2) }
    {
        (self.registers.get(rs1), self.registers.get(rs2))
    }

    // Sets a register, and goes on behind the instruction.
    fn give(&mut self, rd: u8, value: u32) -> Stepped
        ensures answer { result ≡ Committed None }
        ensures processor { processor_of self.new ≡ after_giving rd value self.old }
        ensures code { self.new.code ≡ self.old.code }
    {
        let next = add(self.pc, 4);
        let value = if rd == 0 { 0 } else { value };
        self.set(rd, value, next, None)
    }

    // Sets a register to the address behind the instruction, and goes on at this one.
    fn jump(&mut self, rd: u8, next: u32) -> Stepped
        ensures answer { result ≡ Committed None }
        ensures processor { processor_of self.new ≡ after_jump rd next self.old }
        ensures code { self.new.code ≡ self.old.code }
    {
        let behind = add(self.pc, 4);
        let value = if rd == 0 { 0 } else { behind };
        self.set(rd, value, next, None)
    }

    // Goes on where a branch leads to.
    fn branch(&mut self, is_taken: bool, imm: i32) -> Stepped
        ensures answer { result ≡ Committed None }
        ensures processor { processor_of self.new ≡ after_branch is_taken imm self.old }
        ensures code { self.new.code ≡ self.old.code }
    {
        let next = if is_taken {
            add_immediate(self.pc, imm)
        } else {
            add(self.pc, 4)
        };
        self.set(0, 0, next, None)
    }

    // The outcome of an instruction at the pc.
    fn outcome_of(&self, i: Instr) -> Executed
        ensures { result ≡ instruction_outcome self.now.code (processor_of self.now) i }
    {
        let (rs1, rs2) = reads(&i);
        let code_bytes = 4 * self.code.len() as u32;
        outcome(
            i,
            self.pc,
            self.registers.get(rs1),
            self.registers.get(rs2),
            code_bytes,
        )
    }

    // Does what the outcome says.
    fn commit(&mut self, outcome: Outcome, next: u32, reply: Option<u32>) -> Stepped
        ensures answer { result ≡ answer outcome reply }
        ensures processor { processor_of self.new ≡ after_outcome outcome next reply self.old }
        ensures code { self.new.code ≡ self.old.code }
        ensures refused { IsRefused result → self.new ≡ self.old }
    {
        match outcome {
            Outcome::Plain { rd, value } => self.set(rd, value, next, None),
            Outcome::Load {
                instruction,
                address,
                mmio: false,
                ..
            } => self.load(writes(&instruction), instruction, address, next),
            Outcome::Load {
                instruction,
                address,
                ..
            } => match reply {
                None => Stepped::WantsReply,
                Some(value) => {
                    let event = Event::Ld {
                        addr: address,
                        value,
                    };
                    self.set(writes(&instruction), value, next, Some(event))
                }
            },
            Outcome::Store {
                instruction,
                address,
                value,
                mmio: false,
                ..
            } => {
                self.ram.store(instruction, address, value);
                self.go_to(next, None)
            }
            Outcome::Store { address, value, .. } => {
                let event = Event::St {
                    addr: address,
                    value,
                };
                self.go_to(next, Some(event))
            }
            Outcome::Halt { cause } => Stepped::Halted { cause },
        }
    }

    // Loads from RAM into the instruction's destination, and goes on at this address.
    fn load(&mut self, rd: u8, i: Instr, address: u32, next: u32) -> Stepped
        requires { rd ≡ destination i }
        ensures answer { result ≡ Committed None }
        ensures processor { processor_of self.new ≡ after_load i address next self.old }
        ensures code { self.new.code ≡ self.old.code }
    {
        let value = self.ram.load(i, address);
        self.set(rd, value, next, None)
    }

    // Sets a register, and goes on at this address.
    fn set(&mut self, rd: u8, value: u32, next: u32, event: Option<Event>) -> Stepped
        ensures answer { result ≡ Committed event }
        ensures processor { processor_of self.new ≡ after_write rd value next self.old }
        ensures code { self.new.code ≡ self.old.code }
    {
        self.registers.set(rd, value);
        self.go_to(next, event)
    }

    // Goes on at this address.
    fn go_to(&mut self, next: u32, event: Option<Event>) -> Stepped
        ensures answer { result ≡ Committed event }
        ensures processor { processor_of self.new ≡ with_pc next self.old }
        ensures code { self.new.code ≡ self.old.code }
    {
        self.pc = next;
        Stepped::Committed { event }
    }
}
