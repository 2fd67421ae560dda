// The places of the board's registers.
ghost use Rattle.std.specs.Prelude.{◌≡◌};
ghost use Rattle.lb_board.specs.Registers.{register_at};

/// A register of the board.
#[derive(Clone, Copy, Debug, PartialEq, Eq)]
pub enum Register {
    /// Which pins are outputs.
    OutputEn,
    /// The values of the outputs; bit 23 is the lamp.
    OutputVal,
    /// Which pins are the hardware's.
    IofEn,
    /// The mode of the serial bus; in mode 2 the network chip is selected.
    CsMode,
    /// The bus's send FIFO.
    TxData,
    /// The bus's receive FIFO.
    RxData,
    /// No register stands there.
    Unused,
}

// The register at an address.
pub(crate) fn register_at(address: u32) -> Register
    ensures { result ≡ register_at address }
{
    match address {
        0x1001_2008 => Register::OutputEn,
        0x1001_200C => Register::OutputVal,
        0x1001_2038 => Register::IofEn,
        0x1002_4018 => Register::CsMode,
        0x1002_4048 => Register::TxData,
        0x1002_404C => Register::RxData,
        _ => Register::Unused,
    }
}
