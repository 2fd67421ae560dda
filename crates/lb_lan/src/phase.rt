// What has to be known of a transaction's bytes.
ghost use Rattle.std.specs.Prelude.{◌≡◌};
ghost use Rattle.lb_lan.specs.Transaction.{instruction, address_of};
ghost use Rattle.lb_lan.specs.Phases.{first_phase};

/// How far a transaction has come, and what is needed of its bytes: the next byte is the one that is named.
#[derive(Clone, Copy, Debug, PartialEq, Eq)]
pub enum Phase {
    /// The instruction: no byte has come yet.
    Idle,
    /// The upper byte of the address that is read.
    ReadHigh,
    /// Its lower byte.
    ReadLow {
        high: u8,
    },
    /// The dummy.
    ReadDummy {
        address: u16,
    },
    /// The byte at which the register is read; the value's first byte answers it.
    ReadFirst {
        address: u16,
    },
    /// The byte that the value's second byte answers.
    ReadSecond {
        value: u32,
    },
    /// The byte that the value's third byte answers.
    ReadThird {
        value: u32,
    },
    /// The byte that the value's fourth byte answers.
    ReadFourth {
        value: u32,
    },
    /// The upper byte of the address that is written.
    WriteHigh,
    /// Its lower byte.
    WriteLow {
        high: u8,
    },
    /// The value's first byte.
    WriteFirst {
        address: u16,
    },
    /// The value's second byte.
    WriteSecond {
        address: u16,
        first: u8,
    },
    /// The value's third byte.
    WriteThird {
        address: u16,
        first: u8,
        second: u8,
    },
    /// The value's fourth byte, at which the register is written.
    WriteFourth {
        address: u16,
        first: u8,
        second: u8,
        third: u8,
    },
    /// A byte that nothing comes of.
    Over,
}

// The phase behind the instruction.
pub(crate) fn after_instruction(byte: u8) -> Phase
    ensures { result ≡ first_phase (instruction byte) }
{
    match byte {
        0x0B => Phase::ReadHigh,
        0x02 => Phase::WriteHigh,
        _ => Phase::Over,
    }
}

// The address of two bytes.
pub(crate) fn address(high: u8, low: u8) -> u16
    ensures { result ≡ address_of high low }
{
    256 * u16::from(high) + u16::from(low)
}
