// The outcome of an instruction.
ghost use Rattle.std.specs.Prelude.{◌≡◌};
ghost use Rattle.lb_outcome.specs.declared.types.Outcome.TheVariants.{Plain};

use lb_rv::{Cause, Instr};

/// What an instruction comes to, before its access is done.
#[derive(Clone, Copy, Debug, PartialEq, Eq)]
pub enum Outcome {
    /// Register `rd` becomes `value`. An `rd` of 0 is no destination, and `value` is then 0.
    Plain {
        rd: u8,
        value: u32,
    },
    /// A load of `instruction` at a byte address: of a device's word where `mmio` says so, else in RAM. `served` is the
    /// value that was loaded, once the access is done.
    Load {
        instruction: Instr,
        address: u32,
        mmio: bool,
        served: Option<u32>,
    },
    /// A store of `instruction` at a byte address: to a device's word where `mmio` says so, else in RAM. `value` is the
    /// whole of rs2, of which RAM takes the lowest bytes. `served` says that the access is done.
    Store {
        instruction: Instr,
        address: u32,
        value: u32,
        mmio: bool,
        served: bool,
    },
    /// The processor halts before the instruction.
    Halt {
        cause: Cause,
    },
}

impl Default for Outcome {
    /// The outcome of an instruction that does nothing.
    fn default() -> Outcome
        ensures { result ≡ Plain 0 0 }
    {
        Outcome::Plain { rd: 0, value: 0 }
    }
}

/// The outcome of an instruction, and the address of the next one.
#[derive(Clone, Copy, Debug, PartialEq, Eq)]
pub struct Executed {
    pub outcome: Outcome,
    /// Where the processor halts, the address of the instruction itself.
    pub next: u32,
}
