// The network chip on the serial bus.
ghost use Rattle.std.specs.Prelude.{◌≡◌, ◌≤◌, length, IfOk, true};
ghost use Rattle.lb_lan.specs.Registers.{value_at, after_read, after_write, writes_mac_control};
ghost use Rattle.lb_lan.specs.Frames.{woken, arrived, has_room, most_data, status_of};
ghost use Rattle.lb_lan.specs.Transaction.{new_lan};
ghost use Rattle.lb_lan.specs.Phases.{next_phase, next_chip, phase_answer, view_of, view_exchanged, view_answer, view_released, view_with_chip};
ghost use Rattle.lb_lan.specs.Calls.{TakesByte, Answers, Releases, Wakes, Receives};

use crate::frames::{MOST_FIFO_WORDS, push_words, word_count};
use crate::phase::{Phase, address, after_instruction};
use crate::queue::Queue;
use crate::registers::{Register, register_at};
use lb_trace::Frame;
use lb_word::{bytes_of, word_of};
use std::alloc::{AllocError, Global};
use std::marker::Model;

/// The most statuses that wait.
const MOST_STATUSES: usize = 16;

/// The answer to a byte that nothing is read at.
const NOTHING_READ: u8 = 0xFF;

/// The network chip with the transaction that its bus is in. Contracts see the chip's registers and queue, and the
/// phase of the transaction. What each call does they say twice: by the phase, and for all lists of bytes since the
/// last transaction ended and all kept values that the phase stands for.
#[derive(Drop)]
pub struct Lan {
    awake: bool,
    statuses: Queue<u32, MOST_STATUSES>,
    words: Queue<u32, MOST_FIFO_WORDS>,
    hw_cfg: u32,
    mac_csr_cmd: u32,
    mac_csr_data: u32,
    mac_control: u32,
    phase: Phase,
}

impl Model for Lan {
    ghost use Rattle.std.specs.Prelude.{◌*◌, ◌≤◌, length};
    ghost use Rattle.lb_lan.specs.Frames.{most_statuses, most_data};
    ghost use Rattle.lb_lan.specs.Phases.{LanView};

    ghost Value = { LanView };

    ghost view = { λ l. record {
      chip = record {
        awake = l.awake;
        statuses = l.statuses;
        words = l.words;
        hw_cfg = l.hw_cfg;
        mac_csr_cmd = l.mac_csr_cmd;
        mac_csr_data = l.mac_csr_data;
        mac_control = l.mac_control;
      };
      phase = l.phase;
    } };

    ghost invariant = { λ l. (length l.statuses ≤ most_statuses)
        × (4 * length l.words ≤ most_data) };
}

impl Lan {
    /// A chip that isn't awake, with nothing waiting and no transaction begun. Fails only for want of memory.
    pub fn new(alloc: Global) -> Result<Lan, AllocError>
        ensures { IfOk result (λ lan. lan ≡ view_of new_lan) }
    {
        let statuses = Queue::new(alloc)?;
        let words = Queue::new(alloc)?;
        Ok(Lan {
            awake: false,
            statuses,
            words,
            hw_cfg: 0,
            mac_csr_cmd: 0,
            mac_csr_data: 0,
            mac_control: 0,
            phase: Phase::Idle,
        })
    }

    /// Adds a byte to the transaction and answers it, as full-duplex buses do. At the fifth byte of a read the register
    /// is read, at the seventh of a write it is written; all answers but to the fifth to the eighth byte of a read are
    /// 0xFF.
    pub fn exchange(&mut self, byte: u8) -> u8
        ensures phase { self.new ≡ view_exchanged byte self.old }
        ensures answer { result ≡ view_answer self.old }
        ensures list { TakesByte self.old byte self.new }
        ensures answer_of_list { Answers self.old byte result }
    {
        self.take_byte(byte)
    }

    /// What `exchange` would answer to the byte.
    pub fn answer(&self, byte: u8) -> u8
        ensures phase { result ≡ view_answer self.now }
        ensures list { Answers self.now byte result }
    {
        self.reply()
    }

    /// Ends the transaction: the next byte is an instruction.
    pub fn release(&mut self)
        ensures phase { self.new ≡ view_released self.old }
        ensures list { Releases self.old self.new }
    {
        self.end_transaction();
    }

    /// Wakes the chip: from now on its registers are there.
    pub fn wake(&mut self)
        ensures phase { self.new ≡ view_with_chip (woken self.old.chip) self.old }
        ensures list { Wakes self.old self.new }
    {
        self.set_awake();
    }

    /// Whether the chip is awake.
    pub fn is_awake(&self) -> bool
        ensures { result ≡ self.now.chip.awake }
    {
        self.awake
    }

    /// Whether the frame may arrive: reception is on, fewer than 16 statuses wait, and the waiting data and the
    /// frame's, each padded to whole words, are at most 16,384 bytes.
    pub fn accepts(&self, frame: &Frame) -> bool
        ensures { result ≡ has_room frame.now self.now.chip }
    {
        self.awake
            && self.mac_control >> 2 & 1 == 1
            && self.statuses.len() < MOST_STATUSES
            && self.words.len() + word_count(frame.bytes()) <= MOST_FIFO_WORDS
    }

    /// Lets the frame arrive: its status joins those that wait, and its words likewise.
    pub fn arrive(&mut self, frame: &Frame)
        requires { has_room frame.now self.old.chip ≡ true }
        ensures phase { self.new ≡ view_with_chip (arrived frame.now self.old.chip) self.old }
        ensures list { Receives self.old frame.now self.new }
    {
        self.receive(frame);
    }

    // The rows by the phase.

    // The answer to the next byte.
    fn reply(&self) -> u8
        ensures { result ≡ phase_answer self.now.phase self.now.chip }
    {
        match self.phase {
            Phase::ReadFirst { address } => bytes_of(self.value_at(address))[0],
            Phase::ReadSecond { value } => bytes_of(value)[1],
            Phase::ReadThird { value } => bytes_of(value)[2],
            Phase::ReadFourth { value } => bytes_of(value)[3],
            _ => NOTHING_READ,
        }
    }

    // The phase after the byte.
    fn next_phase(&self, byte: u8) -> Phase
        ensures { result ≡ next_phase self.now.phase byte self.now.chip }
    {
        match self.phase {
            Phase::Idle => after_instruction(byte),
            Phase::ReadHigh => Phase::ReadLow { high: byte },
            Phase::ReadLow { high } => Phase::ReadDummy {
                address: address(high, byte),
            },
            Phase::ReadDummy { address } => Phase::ReadFirst { address },
            Phase::ReadFirst { address } => Phase::ReadSecond {
                value: self.value_at(address),
            },
            Phase::ReadSecond { value } => Phase::ReadThird { value },
            Phase::ReadThird { value } => Phase::ReadFourth { value },
            Phase::WriteHigh => Phase::WriteLow { high: byte },
            Phase::WriteLow { high } => Phase::WriteFirst {
                address: address(high, byte),
            },
            Phase::WriteFirst { address } => Phase::WriteSecond {
                address,
                first: byte,
            },
            Phase::WriteSecond { address, first } => Phase::WriteThird {
                address,
                first,
                second: byte,
            },
            Phase::WriteThird {
                address,
                first,
                second,
            } => Phase::WriteFourth {
                address,
                first,
                second,
                third: byte,
            },
            _ => Phase::Over,
        }
    }

    // The access that the byte makes.
    fn access(&mut self, byte: u8)
        ensures chip { self.new.chip ≡ next_chip self.old.phase byte self.old.chip }
        ensures phase { self.new.phase ≡ self.old.phase }
    {
        match self.phase {
            Phase::ReadFirst { address } => self.read(address),
            Phase::WriteFourth {
                address,
                first,
                second,
                third,
            } => { self.write(address, word_of([first, second, third, byte])) }
            _ => (),
        }
    }

    // Takes the byte and answers it.
    fn take_byte(&mut self, byte: u8) -> u8
        ensures phase { self.new ≡ view_exchanged byte self.old }
        ensures answer { result ≡ phase_answer self.old.phase self.old.chip }
    {
        let answer = self.reply();
        let phase = self.next_phase(byte);
        self.access(byte);
        self.phase = phase;
        answer
    }

    fn end_transaction(&mut self)
        ensures { self.new ≡ view_released self.old }
    {
        self.phase = Phase::Idle;
    }

    fn set_awake(&mut self)
        ensures { self.new ≡ view_with_chip (woken self.old.chip) self.old }
    {
        self.awake = true;
    }

    fn receive(&mut self, frame: &Frame)
        requires { has_room frame.now self.old.chip ≡ true }
        ensures { self.new ≡ view_with_chip (arrived frame.now self.old.chip) self.old }
    {
        self.statuses.push(status(frame));
        push_words(&mut self.words, frame.bytes());
    }

    // The registers.

    // What a read of the register at the address gives.
    fn value_at(&self, address: u16) -> u32
        ensures { result ≡ value_at address self.now.chip }
    {
        if !self.awake {
            return 0;
        }
        match register_at(address) {
            Register::RxData => self.words.front_or(0),
            Register::RxStatus => self.statuses.front_or(0),
            Register::ByteTest => 0x8765_4321,
            Register::HwCfg => self.hw_cfg,
            Register::RxFifoInf => 65_536 * self.statuses.len() as u32
                + 4 * self.words.len() as u32,
            Register::MacCsrCmd => self.mac_csr_cmd,
            Register::MacCsrData => self.mac_csr_data,
            Register::Unused => 0,
        }
    }

    // The effect of a read.
    fn read(&mut self, address: u16)
        ensures chip { self.new.chip ≡ after_read address self.old.chip }
        ensures phase { self.new.phase ≡ self.old.phase }
    {
        if !self.awake {
            return;
        }
        match register_at(address) {
            Register::RxData => self.words.advance(),
            Register::RxStatus => self.statuses.advance(),
            Register::MacCsrCmd => self.mac_csr_cmd %= 0x8000_0000,
            _ => (),
        }
    }

    // The effect of a write.
    fn write(&mut self, address: u16, value: u32)
        ensures chip { self.new.chip ≡ after_write address value self.old.chip }
        ensures phase { self.new.phase ≡ self.old.phase }
    {
        if !self.awake {
            return;
        }
        match register_at(address) {
            Register::HwCfg => self.hw_cfg = value,
            Register::MacCsrCmd => {
                self.mac_csr_cmd = value;
                if writes_mac_control(value) {
                    self.mac_control = self.mac_csr_data;
                }
            }
            Register::MacCsrData => self.mac_csr_data = value,
            _ => (),
        }
    }
}

// Whether the command copies MAC_CSR_DATA to MAC control.
fn writes_mac_control(command: u32) -> bool
    ensures { result ≡ writes_mac_control command }
{
    command >> 31 & 1 == 1 && command >> 30 & 1 == 0 && command & 0xFF == 1
}

// The status of a frame.
fn status(frame: &Frame) -> u32
    requires { length frame.now.bytes ≤ most_data }
    ensures { result ≡ status_of frame.now }
{
    let error = if frame.error() { 0x8000 } else { 0 };
    65_536 * frame.bytes().len() as u32 + error
}
