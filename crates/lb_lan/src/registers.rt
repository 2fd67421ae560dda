// The places of the chip's registers.
ghost use Rattle.std.specs.Prelude.{◌≡◌};
ghost use Rattle.lb_lan.specs.Registers.{register_at};

/// A register of the chip.
#[derive(Clone, Copy, Debug, PartialEq, Eq)]
pub enum Register {
    /// The first data word that waits; a read takes it.
    RxData,
    /// The first status that waits; a read takes it.
    RxStatus,
    /// A constant that shows the order of bytes.
    ByteTest,
    /// A word that is only kept.
    HwCfg,
    /// How much waits.
    RxFifoInf,
    /// The MAC's command; a read clears its bit 31.
    MacCsrCmd,
    /// The word that a command takes to MAC control.
    MacCsrData,
    /// No register stands there.
    Unused,
}

// The register at an address.
pub(crate) fn register_at(address: u16) -> Register
    ensures { result ≡ register_at address }
{
    match address {
        0x00 => Register::RxData,
        0x40 => Register::RxStatus,
        0x64 => Register::ByteTest,
        0x74 => Register::HwCfg,
        0x7C => Register::RxFifoInf,
        0xA4 => Register::MacCsrCmd,
        0xA8 => Register::MacCsrData,
        _ => Register::Unused,
    }
}
