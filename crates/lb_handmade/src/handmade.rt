// A tree that was made by hand, checked.
ghost use Rattle.std.specs.Prelude.{◌≡◌, IfOk, OnOk, IsErrOf};
ghost use Rattle.lb_syntax.specs.Tree.{program_of};
ghost use Rattle.lb_syntax.specs.Rules.{KeepsRules};
ghost use Rattle.lb_handmade.specs.Faults.{BreaksARule};

use crate::size::has_few_parts;
use lb_check::{CheckError, Checked, check};
use lb_syntax::{NameFault, Program};
use std::alloc::{AllocError, Global};

/// Why there is no checked program.
#[derive(Clone, Copy, Debug, PartialEq, Eq)]
pub enum NotChecked {
    /// What was to be a name in it is none.
    NotAName,
    /// It breaks a rule of the language.
    BreaksRule,
    /// No memory is left.
    Memory,
}

impl From<AllocError> for NotChecked {
    ghost use Rattle.std.specs.Prelude.{◌≡◌};
    ghost use Rattle.lb_handmade.specs.declared.handmade.NotChecked.TheVariants.{Memory};

    ghost from_gives = { λ _ e. e ≡ Memory };

    fn from(_: AllocError) -> Self {
        NotChecked::Memory
    }
}

impl From<NameFault> for NotChecked {
    ghost use Rattle.lb_handmade.specs.Faults.{IsSameFault};

    ghost from_gives = { IsSameFault };

    fn from(fault: NameFault) -> Self {
        match fault {
            NameFault::NotAName => NotChecked::NotAName,
            NameFault::Memory => NotChecked::Memory,
        }
    }
}

/// The program, checked. `BreaksRule` comes exactly where it breaks a rule of the language, unless memory runs out first;
/// it is dropped then. `NotAName` never comes.
pub fn checked(alloc: Global, program: Program) -> Result<Checked, NotChecked>
    ensures program { IfOk result (λ checked. checked ≡ program) }
    ensures rules { OnOk result (KeepsRules (program_of program)) }
    ensures refused { IsErrOf result NotChecked.BreaksRule → BreaksARule (program_of program) }
    ensures named { ¬ (IsErrOf result NotChecked.NotAName) }
{
    if !has_few_parts(&program) {
        return Err(NotChecked::BreaksRule);
    }
    match check(alloc, program) {
        Ok(checked) => Ok(checked),
        Err(CheckError::Fault(_)) => Err(NotChecked::BreaksRule),
        Err(CheckError::Memory) => Err(NotChecked::Memory),
    }
}
