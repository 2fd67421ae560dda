// A decoded instruction.
ghost use Rattle.std.specs.Prelude.{◌≡◌};
ghost use Rattle.lb_exec.specs.Execution.{execution};

use lb_outcome::{Executed, halt, outcome};
use lb_rv::{Cause, Instr};

/// What was decoded, with the values of the registers that it reads.
#[derive(Clone, Copy, Debug, Default, PartialEq, Eq)]
pub struct DecodeItem {
    /// The byte address that it was fetched from.
    pub pc: u32,
    /// The code's word there; none at an address of no word.
    pub word: Option<u32>,
    /// The address that was taken to come next.
    pub predicted: u32,
    /// The epoch in which it was fetched.
    pub epoch: bool,
    /// The word's instruction, if it has one.
    pub instruction: Option<Instr>,
    /// The values of rs1 and rs2; 0 where the instruction reads none.
    pub left: u32,
    pub right: u32,
}

/// The outcome of an item, and the address of the next instruction; the code has `code_bytes` bytes from address 0 on. An
/// item without a word halts with BadPc, any other without an instruction with UnknownWord.
pub fn execute(item: &DecodeItem, code_bytes: u32) -> Executed
    ensures { result ≡ execution item.now code_bytes }
{
    match (item.word, item.instruction) {
        (None, _) => halt(Cause::BadPc, item.pc),
        (Some(_), None) => halt(Cause::UnknownWord, item.pc),
        (Some(_), Some(i)) => outcome(i, item.pc, item.left, item.right, code_bytes),
    }
}
