// The program of a text.
ghost use Rattle.std.specs.Prelude.{◌≡◌, ◌<◌, ◌^◌, List, length, IfOk, IsErrOf};
ghost use Rattle.lb_syntax.specs.Tree.{Procedure, program_of};
ghost use Rattle.lb_spelling.specs.Grammar.{IsText};
ghost use Rattle.lb_spelling.specs.Places.{IsAccepted, IsRefused};
ghost use Rattle.lb_flat.specs.Flat.{flat_executable};
ghost use Rattle.lb_flat.specs.Order.{IsFlatInOrder};
ghost use Rattle.lb_program_testkit.specs.Texts.{IsFlatFormOf, IsNoProgram};

use lb_check::Checked;
use lb_flat::{FlatProgram, flatten};
use lb_handmade::{NotChecked, checked};
use lb_syntax::Program;
use lb_text::{ReadError, read_program};
use std::alloc::{AllocError, Global};

/// Why there is no program.
#[derive(Clone, Copy, Debug, PartialEq, Eq)]
pub enum NoProgram {
    /// The text is no program's, or its program breaks a rule.
    Refused,
    /// The text has more than 2^20 bytes.
    Large,
    /// No memory is left.
    Memory,
}

impl From<AllocError> for NoProgram {
    ghost use Rattle.std.specs.Prelude.{◌≡◌};
    ghost use Rattle.lb_program_testkit.specs.declared.programs.NoProgram.TheVariants.{Memory};

    ghost from_gives = { λ _ e. e ≡ Memory };

    fn from(_: AllocError) -> Self {
        NoProgram::Memory
    }
}

// The most bytes of a text.
const MOST_BYTES: usize = 1_048_576;

/// The program of the text. `Refused` comes only where the text is no program's.
pub fn text_program(alloc: Global, text: &[u8]) -> Result<Program, NoProgram>
    ensures found { IfOk result (λ program. IsAccepted (program_of program) text.now) }
    ensures only { IfOk result (λ program.
        (p : List Procedure) → IsText p text.now → p ≡ program_of program) }
    ensures refused { IsErrOf result NoProgram.Refused → IsRefused text.now }
    ensures large { IsErrOf result NoProgram.Large → 2 ^ 20 < length text.now }
{
    if text.len() > MOST_BYTES {
        return Err(NoProgram::Large);
    }
    match read_program(alloc, text) {
        Ok(program) => Ok(program),
        Err(ReadError::Text(_)) => Err(NoProgram::Refused),
        Err(ReadError::Memory) => Err(NoProgram::Memory),
    }
}

/// The text's program, checked. `Refused` comes only where the text is no program's, or its program breaks a rule.
#[tactic(auto, using(crate::proofs::TextLemmas::broken))]
pub fn checked_program(alloc: Global, text: &[u8]) -> Result<Checked, NoProgram>
    ensures found { IfOk result (λ checked. IsAccepted (program_of checked) text.now) }
    ensures refused { IsErrOf result NoProgram.Refused → IsNoProgram text.now }
    ensures large { IsErrOf result NoProgram.Large → 2 ^ 20 < length text.now }
{
    let program = text_program(alloc, text)?;
    match checked(alloc, program) {
        Ok(checked) => Ok(checked),
        Err(NotChecked::Memory) => Err(NoProgram::Memory),
        Err(_) => Err(NoProgram::Refused),
    }
}

/// The flat form of the text's program. `Refused` comes only where the text is no program's, or its program breaks a rule.
pub fn flat_program(alloc: Global, text: &[u8]) -> Result<FlatProgram, NoProgram>
    ensures form { IfOk result (λ flat. IsFlatFormOf text.now (flat_executable flat)) }
    ensures in_order { IfOk result (λ flat. IsFlatInOrder (flat_executable flat)) }
    ensures refused { IsErrOf result NoProgram.Refused → IsNoProgram text.now }
    ensures large { IsErrOf result NoProgram.Large → 2 ^ 20 < length text.now }
{
    let checked = checked_program(alloc, text)?;
    let flat = flatten(alloc, &checked)?;
    Ok(flat)
}
