// Traces of the lamp's program written in short: a text of words, each a capital letter with hexadecimal numbers that
// stand between colons.
//
//     La:v Sa:v      a load, a store
//     Ra:v Wa:v      a whole read, a whole write of the network chip's register a
//     Ta:p Ua:p      a read that is given up at its byte p, since there is no room, since no answer comes
//     Va:v:p         a write that is given up at its byte p, since there is no room
//     B E K1 K0      boot, an empty poll, the switches
//     Gn:k:b Hn:k:b  a packet of n bytes that counts but for its byte k, which is b; the same with an error
//     Xn             the next word stands n times
//     Yn             from here on each register is n times busy before it is ready
//     Nn             there are n whole rounds
//     M              the trace leaves with the next event
use lb_trace::Event;
use std::alloc::{AllocError, Global};

const TXDATA: u32 = 0x1002_4048;

const RXDATA: u32 = 0x1002_404C;

const CSMODE: u32 = 0x1002_4018;

const OUTPUT_VAL: u32 = 0x1001_200C;

const BUSY: u32 = 0x8000_0000;

// A frame of 43 bytes that carries UDP in IPv4, with the command 1.
const FRAME: &[u8; 43] =
    b"\xff\xff\xff\xff\xff\xff\x02\x00\x00\x00\x00\x01\x08\x00\x45\x00\x00\x1d\x00\x00\x00\x00\x40\x11\x00\x00\x0a\x00\x00\x01\x0a\x00\x00\x02\x10\x00\x21\x00\x10\x00\x90\x00\x01";

/// What the network chip answers to the bytes of a command, of its address and of what is written. It is of no account.
#[derive(Clone, Copy)]
pub enum Unread {
    /// Zeros to a read, and to a write the bytes themselves.
    Plain,
    /// Others.
    Odd,
}

/// A trace, how many whole rounds it has, and the place of the event by which it leaves, if it does.
#[derive(Drop)]
pub struct Script {
    pub events: Vec<Event>,
    pub rounds: u64,
    pub leaves: Option<u64>,
    busy: u32,
    unread: Unread,
}

// A word of the text.
#[derive(Clone, Copy)]
struct Word {
    kind: char,
    first: u32,
    second: u32,
    third: u32,
}

/// The bytes of a packet that is written as a word. Fails only for want of memory.
pub fn packet_bytes(alloc: Global, text: &str) -> Result<Vec<u8>, AllocError> {
    let word = read_word(text);
    let mut bytes = Vec::new(alloc);
    for k in 0..word.first {
        bytes.push(frame_byte(word, word.first, k))?;
    }
    Ok(bytes)
}

// Reads a word. A digit goes into the last number, a colon begins the next one.
fn read_word(text: &str) -> Word {
    let mut word = Word {
        kind: ' ',
        first: 0,
        second: 0,
        third: 0,
    };
    let mut colons = 0u8;
    for c in text.chars() {
        match (c.to_digit(16), colons) {
            _ if c.is_ascii_uppercase() => word.kind = c,
            (None, _) => colons = colons.saturating_add(1),
            (Some(digit), 0) => word.first = word.first.wrapping_mul(16).wrapping_add(digit),
            (Some(digit), 1) => word.second = word.second.wrapping_mul(16).wrapping_add(digit),
            (Some(digit), _) => word.third = word.third.wrapping_mul(16).wrapping_add(digit),
        }
    }
    word
}

impl Script {
    /// The trace of a text. Fails only for want of memory.
    pub fn from_text(alloc: Global, text: &str, unread: Unread) -> Result<Script, AllocError> {
        let mut script = Script {
            events: Vec::new(alloc),
            rounds: 0,
            leaves: None,
            busy: 0,
            unread,
        };
        let mut times = 1;
        for word in text.split_whitespace() {
            let word = read_word(word);
            match word.kind {
                'X' => times = word.first,
                _ => {
                    for _ in 0..times {
                        script.push(word)?;
                    }
                    times = 1;
                }
            }
        }
        Ok(script)
    }

    /// Adds the first event of a round. Fails only for want of memory.
    pub fn begin_poll(&mut self) -> Result<(), AllocError> {
        self.store(CSMODE, 2)
    }

    // Adds a word's events.
    fn push(&mut self, word: Word) -> Result<(), AllocError> {
        match word.kind {
            'N' => self.rounds = u64::from(word.first),
            'Y' => self.busy = word.first,
            'M' => self.leaves = Some(self.events.len() as u64),
            'G' | 'H' => self.packet(word)?,
            'K' => self.switch(word.first)?,
            'B' => self.boot()?,
            'E' => self.read(0x7C, 0)?,
            _ => self.push_small(word)?,
        }
        Ok(())
    }

    // Adds the events of a word for one of them or for a transaction.
    fn push_small(&mut self, word: Word) -> Result<(), AllocError> {
        match word.kind {
            'L' => self.load(word.first, word.second),
            'S' => self.store(word.first, word.second),
            'R' => self.read(word.first, word.second),
            'W' => self.write(word.first, word.second),
            'T' => self.break_read(word.first, word.second, TXDATA),
            'U' => self.break_read(word.first, word.second, RXDATA),
            'V' => self.break_write(word.first, word.second, word.third),
            _ => Ok(()),
        }
    }

    fn load(&mut self, addr: u32, value: u32) -> Result<(), AllocError> {
        Ok(self.events.push(Event::Ld { addr, value })?)
    }

    fn store(&mut self, addr: u32, value: u32) -> Result<(), AllocError> {
        Ok(self.events.push(Event::St { addr, value })?)
    }

    // Finds the register busy so many times.
    fn wait(&mut self, addr: u32, times: u32) -> Result<(), AllocError> {
        for _ in 0..times {
            self.load(addr, BUSY)?;
        }
        Ok(())
    }

    // Exchanges a byte.
    fn exchange(&mut self, byte: u32, answer: u32) -> Result<(), AllocError> {
        self.wait(TXDATA, self.busy)?;
        self.load(TXDATA, 0)?;
        self.store(TXDATA, byte)?;
        self.wait(RXDATA, self.busy)?;
        self.load(RXDATA, answer)
    }

    // Sends the first bytes of a read.
    fn send_read(&mut self, address: u32, count: u32) -> Result<(), AllocError> {
        for k in 0..count {
            let answer = match self.unread {
                Unread::Plain => 0,
                Unread::Odd => odd_answer(k, 0x5A),
            };
            self.exchange(read_byte(address, k), answer)?;
        }
        Ok(())
    }

    fn read(&mut self, address: u32, value: u32) -> Result<(), AllocError> {
        self.store(CSMODE, 2)?;
        self.send_read(address, 4)?;
        for byte in value.to_le_bytes() {
            self.exchange(0, u32::from(byte))?;
        }
        self.store(CSMODE, 0)
    }

    // Sends the first bytes of a write.
    fn send_write(&mut self, address: u32, value: u32, count: u32) -> Result<(), AllocError> {
        for k in 0..count {
            let byte = write_byte(address, value, k);
            let answer = match self.unread {
                Unread::Plain => byte,
                Unread::Odd => odd_answer(k, 0x33),
            };
            self.exchange(byte, answer)?;
        }
        Ok(())
    }

    fn write(&mut self, address: u32, value: u32) -> Result<(), AllocError> {
        self.store(CSMODE, 2)?;
        self.send_write(address, value, 7)?;
        self.store(CSMODE, 0)
    }

    // A wait of 1,000 tries for this register.
    fn wait_in_vain(&mut self, byte: u32, register: u32) -> Result<(), AllocError> {
        if register == RXDATA {
            self.load(TXDATA, 0)?;
            self.store(TXDATA, byte)?;
        }
        self.wait(register, 1000)
    }

    fn break_read(&mut self, address: u32, place: u32, register: u32) -> Result<(), AllocError> {
        self.store(CSMODE, 2)?;
        self.send_read(address, place)?;
        self.wait_in_vain(read_byte(address, place), register)?;
        self.store(CSMODE, 0)
    }

    fn break_write(&mut self, address: u32, value: u32, place: u32) -> Result<(), AllocError> {
        self.store(CSMODE, 2)?;
        self.send_write(address, value, place)?;
        self.wait_in_vain(write_byte(address, value, place), TXDATA)?;
        self.store(CSMODE, 0)
    }

    fn boot(&mut self) -> Result<(), AllocError> {
        self.store(0x1001_2038, 0x3C)?;
        self.store(0x1001_2008, 0x80_0000)?;
        self.read(0x64, 0x8765_4321)?;
        self.write(0x74, 0x10_0000)?;
        self.write(0xA8, 0x0C)?;
        self.write(0xA4, 0x8000_0001)?;
        self.read(0xA4, 0)
    }

    fn packet(&mut self, word: Word) -> Result<(), AllocError> {
        let length = word.first % 0x4000;
        let error = if word.kind == 'H' { 0x8000 } else { 0 };
        self.read(0x7C, 0x01_0000)?;
        self.read(0x40, length * 0x1_0000 + error)?;
        for k in 0..(length + 3) / 4 {
            self.read(0, frame_word(word, length, k))?;
        }
        Ok(())
    }

    fn switch(&mut self, command: u32) -> Result<(), AllocError> {
        let value = if command == 1 {
            0x1234_5678
        } else {
            0xFFFF_FFFF
        };
        let next = if command == 1 {
            0x12B4_5678
        } else {
            0xFF7F_FFFF
        };
        self.load(OUTPUT_VAL, value)?;
        self.store(OUTPUT_VAL, next)
    }
}

// The odd answer to the byte at this place: to the command and the address, and to what follows.
fn odd_answer(place: u32, later: u32) -> u32 {
    match place {
        0 => 0xFF,
        1 => 0x1FF,
        2 => 0,
        _ => later,
    }
}

// The byte of a read at this place.
fn read_byte(address: u32, place: u32) -> u32 {
    match place {
        0 => 0x0B,
        1 => address / 256,
        2 => address % 256,
        _ => 0,
    }
}

// The byte of a write at this place.
fn write_byte(address: u32, value: u32, place: u32) -> u32 {
    match place {
        0 => 0x02,
        1 => address / 256,
        2 => address % 256,
        3 => value % 256,
        4 => value / 0x100 % 256,
        5 => value / 0x1_0000 % 256,
        _ => value / 0x100_0000,
    }
}

// The word of a packet at this place.
fn frame_word(word: Word, length: u32, place: u32) -> u32 {
    let first = place.wrapping_mul(4);
    u32::from_le_bytes([
        frame_byte(word, length, first),
        frame_byte(word, length, first.wrapping_add(1)),
        frame_byte(word, length, first.wrapping_add(2)),
        frame_byte(word, length, first.wrapping_add(3)),
    ])
}

// The byte of a packet at this place. Behind its length there are others.
fn frame_byte(word: Word, length: u32, place: u32) -> u8 {
    if place >= length {
        0xEE
    } else if place == word.second && word.second > 0 {
        (word.third % 256) as u8
    } else {
        *FRAME.get(place as usize).unwrap_or(&0)
    }
}
