// The supplied program's tree.
ghost use Rattle.std.specs.Prelude.{◌≡◌, IfOk, OnOk};
ghost use Rattle.lb_syntax.specs.Tree.{program_of};
ghost use Rattle.lb_syntax.specs.Rules.{KeepsRules};
ghost use Rattle.lb_bulb.specs.Supplied.{supplied};

use crate::boot::init_function;
use crate::exchange::exchange_function;
use crate::round::loop_function;
use crate::transaction::{read_function, write_function};
use lb_syntax::Program;
use sqlite_items::Items;
use std::alloc::{AllocError, Global};

/// The tree of the supplied program. It keeps the rules of the language. `AllocError` comes where
/// no memory is left.
#[tactic(auto, using(crate::proofs::RulesKept::rules_law))]
pub fn program(alloc: Global) -> Result<Program, AllocError>
    ensures tree { IfOk result (λ p. program_of p ≡ supplied) }
    ensures rules { IfOk result (λ p. KeepsRules (program_of p)) }
{
    let mut functions = Items::new(alloc);
    functions.push(exchange_function(alloc)?)?;
    functions.push(read_function(alloc)?)?;
    functions.push(write_function(alloc)?)?;
    functions.push(init_function(alloc)?)?;
    functions.push(loop_function(alloc)?)?;
    Ok(Program { functions })
}
