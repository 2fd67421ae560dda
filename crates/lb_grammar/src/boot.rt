// Boot: the pins are set, the network chip is found and set up.
ghost use Rattle.std.specs.Prelude.{◌≡◌};
ghost use Rattle.lb_grammar.specs.InternalBooting.{after_busy, after_byte_test, after_write, boot_step, stored};

use crate::exchange::TRIES;
use crate::progress::{Ending, Progress};
use crate::transfer::Transfer::{self, Opening};
use crate::transfer::{read_bytes, write_bytes};
use lb_trace::Event;

const IOF_EN: u32 = 0x1001_2038;

const OUTPUT_EN: u32 = 0x1001_2008;

const BYTE_TEST: u8 = 0x64;

const HW_CFG: u8 = 0x74;

const MAC_CSR_CMD: u8 = 0xA4;

const MAC_CSR_DATA: u8 = 0xA8;

/// Where boot stands. After a read in vain `left` more may be.
#[derive(Clone, Copy)]
pub enum Booting {
    FirstPin,
    SecondPin,
    /// The chip's register of the byte order is read until it is awake.
    ByteTest { left: u16, at: Transfer },
    /// Three registers are written.
    HwCfg { at: Transfer },
    MacData { at: Transfer },
    MacCmd { at: Transfer },
    /// The register of the last command is read until the command is done.
    MacBusy { left: u16, at: Transfer },
}

impl Booting {
    // Before the two waits.
    const BYTE_TEST: Booting = Booting::ByteTest {
        left: TRIES,
        at: Opening,
    };

    const MAC_BUSY: Booting = Booting::MacBusy {
        left: TRIES,
        at: Opening,
    };

    /// Reads an event of boot.
    pub fn after(self, event: Event) -> Progress<Booting, Ending>
        ensures { result ≡ boot_step self event }
    {
        match self {
            Booting::FirstPin => stored(IOF_EN, 0x3C, Booting::SecondPin, event),
            Booting::SecondPin => stored(OUTPUT_EN, 0x80_0000, Booting::BYTE_TEST, event),
            Booting::ByteTest { left, at } => match at.after(&read_bytes(BYTE_TEST), event) {
                Progress::Within(at) => Progress::Within(Booting::ByteTest { left, at }),
                Progress::Done(word) => after_byte_test(left, word),
                Progress::Off => Progress::Off,
            },
            Booting::HwCfg { at } => match at.after(&write_bytes(HW_CFG, 0x10_0000), event) {
                Progress::Within(at) => Progress::Within(Booting::HwCfg { at }),
                Progress::Done(word) => after_write(Booting::MacData { at: Opening }, word),
                Progress::Off => Progress::Off,
            },
            Booting::MacData { at } => match at.after(&write_bytes(MAC_CSR_DATA, 0x0C), event) {
                Progress::Within(at) => Progress::Within(Booting::MacData { at }),
                Progress::Done(word) => after_write(Booting::MacCmd { at: Opening }, word),
                Progress::Off => Progress::Off,
            },
            Booting::MacCmd { at } => match at.after(
                &write_bytes(MAC_CSR_CMD, 0x8000_0001),
                event,
            ) {
                Progress::Within(at) => Progress::Within(Booting::MacCmd { at }),
                Progress::Done(word) => after_write(Booting::MAC_BUSY, word),
                Progress::Off => Progress::Off,
            },
            Booting::MacBusy { left, at } => match at.after(&read_bytes(MAC_CSR_CMD), event) {
                Progress::Within(at) => Progress::Within(Booting::MacBusy { left, at }),
                Progress::Done(word) => after_busy(left, word),
                Progress::Off => Progress::Off,
            },
        }
    }
}

// A store of this word at this address, which leads on to `next`.
fn stored(address: u32, word: u32, next: Booting, event: Event) -> Progress<Booting, Ending>
    ensures { result ≡ stored address word next event }
{
    match event {
        Event::St { addr, value } if addr == address && value == word => Progress::Within(next),
        _ => Progress::Off,
    }
}

// After a read of the byte order's register, in vain or not.
fn after_byte_test(left: u16, word: Option<u32>) -> Progress<Booting, Ending>
    ensures { result ≡ after_byte_test left word }
{
    match word {
        Some(0x8765_4321) => Progress::Within(Booting::HwCfg { at: Opening }),
        Some(_) if left > 0 => Progress::Within(Booting::ByteTest {
            left: left - 1,
            at: Opening,
        }),
        _ => Progress::Done(Ending::GivenUp),
    }
}

// After a write, which leads on to this.
fn after_write(next: Booting, word: Option<u32>) -> Progress<Booting, Ending>
    ensures { result ≡ after_write next word }
{
    match word {
        Some(_) => Progress::Within(next),
        None => Progress::Done(Ending::GivenUp),
    }
}

// After a read of the register that tells whether the command is done.
fn after_busy(left: u16, word: Option<u32>) -> Progress<Booting, Ending>
    ensures { result ≡ after_busy left word }
{
    match word {
        Some(value) if value < 0x8000_0000 => Progress::Done(Ending::Whole),
        Some(_) if left > 0 => Progress::Within(Booting::MacBusy {
            left: left - 1,
            at: Opening,
        }),
        _ => Progress::Done(Ending::GivenUp),
    }
}
