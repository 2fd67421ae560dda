// RAM.
ghost use Rattle.std.specs.Prelude.{◌≡◌, ◌≤◌, ◌<◌, ◌+◌, ◌*◌, ◌^◌, length, IfOk};
ghost use Rattle.lb_rv.specs.Decoding.{signed_by};
ghost use Rattle.lb_rv.specs.Effects.{access};
ghost use Rattle.lb_rv.specs.Formats.{immediate_word};
ghost use Rattle.lb_outcome.specs.Cells.{cells};
ghost use Rattle.lb_memory.specs.declared.TheConstants.{RAM_SIZE};
ghost use Rattle.lb_outcome.specs.Ram.{boot_ram, loaded, number_at, stored, with_bytes};

use crate::memory_map::in_ram;
use crate::outcomes::access_bytes;
use byteorder::{ByteOrder, LittleEndian};
use lb_memory::RAM_SIZE;
use lb_rv::Instr;
use std::alloc::{AllocError, Global};
use std::marker::Model;

/// RAM, from address 0 on. Contracts see the list of its bytes.
#[derive(Debug, Drop)]
pub struct Ram {
    bytes: Vec<u8>,
}

impl Model for Ram {
    ghost use Rattle.std.specs.Prelude.{List, ℕ, ◌≡◌, length};
    ghost use Rattle.lb_memory.specs.declared.TheConstants.{RAM_SIZE};

    ghost Value = { List ℕ };

    ghost view = { λ r. r.bytes.items };

    ghost invariant = { λ r. length r.bytes.items ≡ RAM_SIZE };
}

impl Ram {
    /// RAM at boot: the code's words, which fit in it, from address 0 on, and 0 behind them. Fails only for want of memory.
    pub fn boot(alloc: Global, code: &[u32]) -> Result<Ram, AllocError>
        requires { 4 * length code.now ≤ RAM_SIZE }
        ensures { IfOk result (λ ram. cells ram ≡ boot_ram code.now) }
    {
        let bytes = zeros(alloc, RAM_SIZE as usize)?;
        let mut ram = Ram { bytes };
        let mut at = 0;
        for word in code {
            ram.set_word(at, *word);
            at += 4;
        }
        Ok(ram)
    }

    /// What a load at a byte address, of any alignment, sets its register to; 0 where it doesn't lie wholly in RAM.
    #[tactic(auto, unfolding(crate::specs::Ram::loaded))]
    pub fn load(&self, instruction: Instr, address: u32) -> u32
        ensures { result ≡ loaded instruction address (cells self.now) }
    {
        if !in_ram(access_bytes(instruction), address) {
            return 0;
        }
        let number = self.number(instruction, address as usize);
        match instruction {
            Instr::Lb { .. } => extended(0x80, number),
            Instr::Lh { .. } => extended(0x8000, number),
            _ => number,
        }
    }

    /// Stores the lowest bytes of a value at a byte address, of any alignment. Where they don't lie wholly in RAM,
    /// nothing changes.
    #[tactic(auto, unfolding(crate::specs::Ram::stored))]
    pub fn store(&mut self, instruction: Instr, address: u32, value: u32)
        ensures { cells self.new ≡ stored instruction address value (cells self.old) }
    {
        if !in_ram(access_bytes(instruction), address) {
            return;
        }
        let at = address as usize;
        match instruction {
            Instr::Lb { .. } | Instr::Lbu { .. } | Instr::Sb { .. } => self.set_byte(at, value),
            Instr::Lh { .. } | Instr::Lhu { .. } | Instr::Sh { .. } => self.set_half(at, value),
            Instr::Lw { .. } | Instr::Sw { .. } => self.set_word(at, value),
            _ => {}
        }
    }

    // The number that the bytes of the access make.
    #[tactic(auto, using(crate::proofs::RamLemmas::number_drop))]
    fn number(&self, instruction: Instr, at: usize) -> u32
        requires { at + (access instruction).bytes ≤ RAM_SIZE }
        ensures value { result ≡ number_at (access instruction).bytes at (cells self.now) }
        ensures bound { result < 256 ^ (access instruction).bytes }
    {
        match instruction {
            Instr::Lb { .. } | Instr::Lbu { .. } | Instr::Sb { .. } => u32::from(self.bytes[at]),
            Instr::Lh { .. } | Instr::Lhu { .. } | Instr::Sh { .. } => {
                u32::from(LittleEndian::read_u16(&self.bytes[at..]))
            }
            Instr::Lw { .. } | Instr::Sw { .. } => LittleEndian::read_u32(&self.bytes[at..]),
            _ => 0,
        }
    }

    #[tactic(auto, using(crate::proofs::RamLemmas::cells_set))]
    fn set_byte(&mut self, at: usize, value: u32)
        requires { at + 1 ≤ RAM_SIZE }
        ensures { cells self.new ≡ with_bytes 1 at value (cells self.old) }
    {
        self.bytes[at] = (value % 256) as u8;
    }

    fn set_half(&mut self, at: usize, value: u32)
        requires { at + 2 ≤ RAM_SIZE }
        ensures { cells self.new ≡ with_bytes 2 at value (cells self.old) }
    {
        write_half(&mut self.bytes, at, value);
    }

    fn set_word(&mut self, at: usize, value: u32)
        requires { at + 4 ≤ RAM_SIZE }
        ensures { cells self.new ≡ with_bytes 4 at value (cells self.old) }
    {
        write_word(&mut self.bytes, at, value);
    }
}

fn write_half(bytes: &mut [u8], at: usize, value: u32)
    requires { at + 2 ≤ length bytes.old }
    ensures cells { cells bytes.new ≡ with_bytes 2 at value (cells bytes.old) }
    ensures len { length bytes.new ≡ length bytes.old }
{
    LittleEndian::write_u16(&mut bytes[at..], (value % 65536) as u16);
}

fn write_word(bytes: &mut [u8], at: usize, value: u32)
    requires { at + 4 ≤ length bytes.old }
    ensures cells { cells bytes.new ≡ with_bytes 4 at value (cells bytes.old) }
    ensures len { length bytes.new ≡ length bytes.old }
{
    LittleEndian::write_u32(&mut bytes[at..], value);
}

// This many bytes that are 0. Fails only for want of memory.
#[tactic(auto, using(crate::proofs::RamLemmas::cells_zeros))]
fn zeros(alloc: Global, n: usize) -> Result<Vec<u8>, AllocError>
    ensures zero { IfOk result (λ bytes. cells bytes.items ≡ (λ x. 0)) }
    ensures len { IfOk result (λ bytes. length bytes.items ≡ n) }
{
    vec![in alloc; 0; n]
}

// A number whose sign bit has this weight, as a word.
fn extended(sign: u32, n: u32) -> u32
    requires sign { sign ≤ 0x8000 }
    requires bound { n < 2 * sign }
    ensures { result ≡ immediate_word (signed_by sign n) }
{
    if n < sign {
        n
    } else {
        (n as i32 - (2 * sign) as i32).cast_unsigned()
    }
}
