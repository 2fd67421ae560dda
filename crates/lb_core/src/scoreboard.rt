// Which registers are pending, and which an instruction has to wait for.
ghost use Rattle.std.specs.Prelude.{◌≡◌, map};
ghost use Rattle.lb_outcome.specs.Fetching.{left_source, right_source};
ghost use Rattle.lb_outcome.specs.Registers.{is_written};
ghost use Rattle.lb_core.specs.Scoreboard.{item_destination, outcome_destination, uses, uses_none, written_register};

use lb_exec::{DecodeItem, Outcome, reads, writes};
use lb_rv::Instr;

// The registers rs1 and rs2 that are read, 0 where there is none.
pub(crate) fn sources_of(instruction: Option<Instr>) -> (u8, u8)
    ensures { result ≡ (left_source instruction, right_source instruction) }
{
    match instruction {
        Some(i) => reads(&i),
        None => (0, 0),
    }
}

// Whether the instruction uses none of the registers that these outcomes write.
pub(crate) fn clear_of_outcomes(instruction: Option<Instr>, outcomes: &[Outcome]) -> bool
    ensures { result ≡ uses_none instruction (map outcome_destination outcomes.now) }
{
    for outcome in outcomes {
        if uses_register(instruction, destination(outcome)) {
            return false;
        }
    }
    true
}

// Whether it uses none of the registers that these items will write.
pub(crate) fn clear_of_items(instruction: Option<Instr>, items: &[DecodeItem]) -> bool
    ensures { result ≡ uses_none instruction (map item_destination items.now) }
{
    for item in items {
        if uses_register(instruction, written(item.instruction)) {
            return false;
        }
    }
    true
}

// Whether the instruction reads or writes this register, and it isn't x0.
fn uses_register(instruction: Option<Instr>, r: u8) -> bool
    ensures { result ≡ uses instruction r }
{
    let (left, right) = sources_of(instruction);
    hits(r, left) || hits(r, right) || hits(r, written(instruction))
}

// Whether a write of register `r` writes register `x`.
fn hits(r: u8, x: u8) -> bool
    ensures { result ≡ is_written r x }
{
    0 < r && r < 32 && r == x
}

// The register that is written, 0 where there is none.
fn written(instruction: Option<Instr>) -> u8
    ensures { result ≡ written_register instruction }
{
    match instruction {
        Some(i) => writes(&i),
        None => 0,
    }
}

// The register that an outcome writes, 0 where there is none.
fn destination(outcome: &Outcome) -> u8
    ensures { result ≡ outcome_destination outcome.now }
{
    match *outcome {
        Outcome::Plain { rd, .. } => rd,
        Outcome::Load { instruction, .. } => writes(&instruction),
        Outcome::Store { .. } | Outcome::Halt { .. } => 0,
    }
}
