// The board and its rows.
ghost use Rattle.std.specs.Prelude.{◌≡◌, ◌≤◌, [], IfOk, length, slice_index, true};
ghost use Rattle.lb_trace.specs.declared.Kind.TheVariants.{Boot, Shift, Arrive};
ghost use Rattle.lb_lan.specs.Queue.{front_or};
ghost use Rattle.lb_board.specs.Script.{IsScript};
ghost use Rattle.lb_board.specs.Registers.{register_at, value_in, read_in, pushed, is_lit};
ghost use Rattle.lb_board.specs.Rows.{by_phase, written_in, is_enabled, shifted_in, acted};
ghost use Rattle.lb_board.specs.InternalModes.{with_mode};
ghost use Rattle.lb_board.specs.Steps.{Reads, Writes, Acts, board, view_of};
ghost use Rattle.lb_board.specs.Calls.{Does, Tells, TellsLastWritten, Guards, ShiftsIn, Shines, CountsArrivals, TellsScript};

use crate::registers::{Register, register_at};
use lb_lan::{Lan, Queue};
use lb_trace::{Frame, Kind};
use std::alloc::{AllocError, Global};
use std::marker::Model;

/// How many bytes each FIFO of the serial bus holds.
const FIFO_SIZE: usize = 8;

/// The mode of the serial bus in which the network chip is selected.
const SELECTED: u32 = 2;

/// What a FIFO's register reads where the FIFO is full (of the send FIFO) or empty (of the receive FIFO).
const NOT_READY: u32 = 0x8000_0000;

/// What comes back from a bus on which no chip is selected.
const NO_ANSWER: u8 = 0xFF;

/// The board. Contracts see its registers and FIFOs, the network chip as a `Lan` is seen, the script, and how many of
/// its frames have arrived. What each call does they say twice: of these, and for all lists of accesses and actions
/// since boot that they stand for.
#[derive(Drop)]
pub struct Board {
    output_en: u32,
    output_val: u32,
    iof_en: u32,
    csmode: u32,
    send_fifo: Queue<u8, FIFO_SIZE>,
    receive_fifo: Queue<u8, FIFO_SIZE>,
    lan: Lan,
    frames: Vec<Frame>,
    arrived: u32,
}

impl Model for Board {
    ghost use Rattle.std.specs.Prelude.{◌≤◌, length};
    ghost use Rattle.lb_board.specs.Script.{IsScript};
    ghost use Rattle.lb_board.specs.Steps.{BoardView};

    ghost Value = { BoardView };

    ghost view = { λ b. record {
      output_en = b.output_en;
      output_val = b.output_val;
      iof_en = b.iof_en;
      csmode = b.csmode;
      send_fifo = b.send_fifo;
      receive_fifo = b.receive_fifo;
      lan = b.lan;
      frames = b.frames.items;
      arrived = b.arrived;
    } };

    ghost invariant = { λ b. IsScript b.frames.items × (b.arrived ≤ length b.frames.items) };
}

impl Board {
    /// A board at boot, with the frames that are to arrive: at most 64, of 1 to 2,000 bytes each. Fails only for want
    /// of memory; the frames are then dropped.
    pub fn boot(alloc: Global, frames: Vec<Frame>) -> Result<Board, AllocError>
        requires { IsScript frames.items }
        ensures { IfOk result (λ b. b ≡ view_of (board frames.items [])) }
    {
        let send_fifo = Queue::new(alloc)?;
        let receive_fifo = Queue::new(alloc)?;
        let lan = Lan::new(alloc)?;
        Ok(Board {
            output_en: 0,
            output_val: 0,
            iof_en: 0,
            csmode: 0,
            send_fifo,
            receive_fifo,
            lan,
            frames,
            arrived: 0,
        })
    }

    /// Reads the word at the address: a register, or 0. A read of rxdata removes the byte that it gives.
    pub fn read(&mut self, addr: u32) -> u32
        ensures value { result ≡ value_in (register_at addr) self.old }
        ensures row { self.new ≡ read_in (register_at addr) self.old }
        ensures list { Does self.old (Reads addr) self.new }
        ensures value_of_list { Tells self.old addr result }
        ensures pins { TellsLastWritten self.old addr result }
    {
        let value = self.value(register_at(addr));
        self.after_read(register_at(addr));
        value
    }

    /// What `read` would give.
    pub fn peek(&self, addr: u32) -> u32
        ensures value { result ≡ value_in (register_at addr) self.now }
        ensures list { Tells self.now addr result }
        ensures pins { TellsLastWritten self.now addr result }
    {
        self.value(register_at(addr))
    }

    /// Writes the word at the address; where it is none of the registers, or rxdata, nothing happens.
    pub fn write(&mut self, addr: u32, value: u32)
        ensures row { self.new ≡ written_in by_phase (register_at addr) value self.old }
        ensures list { Does self.old (Writes addr value) self.new }
    {
        self.after_write(register_at(addr), value);
    }

    /// Whether the action may be done; never one of the processor's.
    pub fn enabled(&self, kind: Kind) -> bool
        ensures row { result ≡ is_enabled by_phase kind self.now }
        ensures list { Guards self.now kind result }
    {
        self.is_allowed(kind)
    }

    /// Does the action.
    pub fn act(&mut self, kind: Kind)
        requires { is_enabled by_phase kind self.old ≡ true }
        ensures row { self.new ≡ acted by_phase kind self.old }
        ensures list { Does self.old (Acts kind) self.new }
    {
        self.perform(kind);
    }

    /// The byte that a shift would put into the receive FIFO.
    pub fn answer(&self) -> u8
        requires { is_enabled by_phase Shift self.now ≡ true }
        ensures row { result ≡ shifted_in by_phase self.now }
        ensures list { ShiftsIn self.now result }
    {
        self.byte_back()
    }

    /// Whether the lamp is on: bit 23 of output_val.
    pub fn lamp(&self) -> bool
        ensures row { result ≡ is_lit self.now.output_val }
        ensures list { Shines self.now result }
    {
        self.is_lit()
    }

    /// How many frames have arrived.
    pub fn arrived(&self) -> u32
        ensures value { result ≡ self.now.arrived }
        ensures within { result ≤ length self.now.frames }
        ensures list { CountsArrivals self.now result }
    {
        self.arrived_so_far()
    }

    /// All frames that `boot` was given.
    pub fn frames(&self) -> &[Frame]
        ensures value { result.now ≡ self.now.frames }
        ensures script { IsScript self.now.frames }
        ensures list { TellsScript self.now result.now }
    {
        self.whole_script()
    }

    // The registers.

    // What a read of the register gives.
    fn value(&self, register: Register) -> u32
        ensures { result ≡ value_in register self.now }
    {
        match register {
            Register::OutputEn => self.output_en,
            Register::OutputVal => self.output_val,
            Register::IofEn => self.iof_en,
            Register::CsMode => self.csmode,
            Register::TxData => {
                if self.send_fifo.len() < FIFO_SIZE {
                    0
                } else {
                    NOT_READY
                }
            }
            Register::RxData => first_word(&self.receive_fifo),
            Register::Unused => 0,
        }
    }

    // The effect of a read.
    fn after_read(&mut self, register: Register)
        ensures { self.new ≡ read_in register self.old }
    {
        match register {
            Register::RxData => self.receive_fifo.advance(),
            _ => (),
        }
    }

    // The effect of a write.
    fn after_write(&mut self, register: Register, value: u32)
        ensures { self.new ≡ written_in by_phase register value self.old }
    {
        match register {
            Register::OutputEn => self.output_en = value,
            Register::OutputVal => self.output_val = value,
            Register::IofEn => self.iof_en = value,
            Register::CsMode => self.set_mode(value & 3),
            Register::TxData => push(&mut self.send_fifo, (value & 0xFF) as u8),
            Register::RxData | Register::Unused => (),
        }
    }

    // Sets the bus's mode; where no chip is selected any more, the transaction ends.
    fn set_mode(&mut self, mode: u32)
        ensures { self.new ≡ with_mode mode self.old }
    {
        self.csmode = mode;
        if mode != SELECTED {
            self.lan.release();
        }
    }

    fn is_lit(&self) -> bool
        ensures { result ≡ is_lit self.now.output_val }
    {
        self.output_val >> 23 & 1 == 1
    }

    // The board's own actions.

    // Whether the action may be done.
    fn is_allowed(&self, kind: Kind) -> bool
        ensures { result ≡ is_enabled by_phase kind self.now }
    {
        match kind {
            Kind::Boot => !self.lan.is_awake(),
            Kind::Shift => self.send_fifo.len() > 0 && self.receive_fifo.len() < FIFO_SIZE,
            Kind::Arrive => self.can_arrive(),
            _ => false,
        }
    }

    fn arrived_so_far(&self) -> u32
        ensures value { result ≡ self.now.arrived }
        ensures within { result ≤ length self.now.frames }
    {
        self.arrived
    }

    fn whole_script(&self) -> &[Frame]
        ensures value { result.now ≡ self.now.frames }
        ensures script { IsScript self.now.frames }
    {
        &self.frames
    }

    // Whether a frame is left and has room.
    fn can_arrive(&self) -> bool
        ensures { result ≡ is_enabled by_phase Arrive self.now }
    {
        match self.frames.get(self.arrived as usize) {
            Some(frame) => self.lan.accepts(frame),
            None => false,
        }
    }

    // Does the action.
    fn perform(&mut self, kind: Kind)
        requires { is_enabled by_phase kind self.old ≡ true }
        ensures { self.new ≡ acted by_phase kind self.old }
    {
        match kind {
            Kind::Boot => self.wake_lan(),
            Kind::Shift => self.shift(),
            Kind::Arrive => self.receive_frame(),
            _ => (),
        }
    }

    fn wake_lan(&mut self)
        ensures { self.new ≡ acted by_phase Boot self.old }
    {
        self.lan.wake();
    }

    // The byte that comes back for the first byte that waits.
    fn byte_back(&self) -> u8
        ensures { result ≡ shifted_in by_phase self.now }
    {
        if self.csmode == SELECTED {
            self.lan.answer(self.send_fifo.front_or(0))
        } else {
            NO_ANSWER
        }
    }

    // The first byte that waits goes out, and one comes back.
    fn shift(&mut self)
        requires { is_enabled by_phase Shift self.old ≡ true }
        ensures { self.new ≡ acted by_phase Shift self.old }
    {
        let byte = self.send_fifo.front_or(0);
        self.send_fifo.advance();
        let answer = if self.csmode == SELECTED {
            self.lan.exchange(byte)
        } else {
            NO_ANSWER
        };
        self.receive_fifo.push(answer);
    }

    // The next frame arrives.
    fn receive_frame(&mut self)
        requires { is_enabled by_phase Arrive self.old ≡ true }
        ensures { self.new ≡ acted by_phase Arrive self.old }
    {
        match self.frames.get(self.arrived as usize) {
            Some(frame) => self.lan.arrive(frame),
            None => (),
        }
        self.arrived += 1;
    }
}

// Adds a byte to the FIFO, where it has room.
fn push(fifo: &mut Queue<u8, FIFO_SIZE>, byte: u8)
    ensures { fifo.new ≡ pushed byte fifo.old }
{
    if fifo.len() < FIFO_SIZE {
        fifo.push(byte);
    }
}

// The first byte as the register tells it.
fn first_word(fifo: &Queue<u8, FIFO_SIZE>) -> u32
    ensures { result ≡ front_or 0x80000000 fifo.now }
{
    if fifo.len() > 0 {
        u32::from(fifo.front_or(0))
    } else {
        NOT_READY
    }
}
