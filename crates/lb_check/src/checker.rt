// Whether a program keeps the rules.
ghost use Rattle.std.specs.Prelude.{◌≡◌, ◌<◌, ◌^◌, IfOk, OnOk, IfErr};
ghost use Rattle.lb_syntax.specs.Tree.{program_of};
ghost use Rattle.lb_syntax.specs.Rules.{KeepsRules};
ghost use Rattle.lb_check.specs.Needed.{AreNeedsOf};
ghost use Rattle.lb_check.specs.Parts.{parts};
ghost use Rattle.lb_check.specs.Verdict.{IsRefusal};
ghost use Rattle.lb_check.specs.InternalWalks.{procedures_of};

use crate::call_graph::{check_cycles, check_stack, graph_of};
use crate::checked::{Checked, Needs};
use crate::fault::CheckError;
use crate::needs::code_need;
use crate::rules::{FORM_RULES, NEED_RULES, check_rules};
use lb_syntax::{Function, Program};
use std::alloc::Global;

/// The program, checked, where it keeps every rule of the language. A fault comes exactly where it breaks one, unless
/// memory runs out first: the first rule in the order of the faults, at the first place in text order. Then the
/// program is dropped. `program` has fewer than 2^30 functions, parameters, results, targets, commands and expression nodes together.
pub fn check(alloc: Global, program: Program) -> Result<Checked, CheckError>
    requires { parts (program_of program) < 2 ^ 30 }
    ensures program { IfOk result (λ checked. checked ≡ program) }
    ensures rules { OnOk result (KeepsRules (program_of program)) }
    ensures refused { IfErr result (IsRefusal (program_of program)) }
{
    let needs = check_all(alloc, program.functions.as_slice())?;
    Ok(Checked::new(program, needs))
}

// What the program of these functions needs, where it keeps every rule.
fn check_all(alloc: Global, functions: &[Function]) -> Result<Needs, CheckError>
    requires { parts (procedures_of functions.now) < 2 ^ 30 }
    ensures rules { OnOk result (KeepsRules (procedures_of functions.now)) }
    ensures needs { IfOk result (AreNeedsOf (procedures_of functions.now)) }
    ensures refused { IfErr result (IsRefusal (procedures_of functions.now)) }
{
    check_rules(alloc, &FORM_RULES, functions)?;
    let graph = graph_of(alloc, functions)?;
    check_cycles(alloc, functions, &graph)?;
    check_rules(alloc, &NEED_RULES, functions)?;
    let stack = check_stack(alloc, functions, &graph)?;
    let words = code_need(alloc, functions)?;
    Ok(Needs { words, stack })
}
