// The rules in their order.
ghost use Rattle.std.specs.Prelude.{◌<◌, ◌^◌, map};
ghost use Rattle.lb_check.specs.Parts.{parts};
ghost use Rattle.lb_check.specs.Faults.{faults};
ghost use Rattle.lb_check.specs.Verdict.{Keeps};
ghost use Rattle.lb_check.specs.InternalVerdict.{Tells, Settles};
ghost use Rattle.lb_check.specs.InternalWalks.{procedures_of};

use crate::commands::check_commands;
use crate::fault::{CheckError, CheckFault};
use crate::functions::check_functions;
use crate::lookup::has_function;
use crate::names::{first_repeated, names_of};
use crate::needs::code_need;
use crate::rule::{CommandRule, FunctionRule, Rule};
use lb_syntax::{Function, MOST_FUNCTIONS, MOST_WORDS};
use std::alloc::Global;

/// The rules on the form of a program, in the order in which they are asked.
pub const FORM_RULES: [Rule; 12] = [
    Rule::FunctionCount,
    Rule::FunctionNames,
    Rule::OfFunction(FunctionRule::Names),
    Rule::Init,
    Rule::Again,
    Rule::OfFunction(FunctionRule::Entry),
    Rule::OfFunction(FunctionRule::Counts),
    Rule::OfCommand(CommandRule::BlockSize),
    Rule::OfCommand(CommandRule::Callee),
    Rule::OfCommand(CommandRule::Arity),
    Rule::OfCommand(CommandRule::Targets),
    Rule::OfCommand(CommandRule::Access),
];

/// The rules on the needs of a program, the stack's aside.
pub const NEED_RULES: [Rule; 2] = [Rule::OfFunction(FunctionRule::FrameNeed), Rule::CodeNeed];

/// Whether these functions keep these rules, in their order.
pub fn check_rules(alloc: Global, rules: &[Rule], functions: &[Function]) -> Result<(), CheckError>
    requires { parts (procedures_of functions.now) < 2 ^ 30 }
    ensures { Settles (procedures_of functions.now) (map Keeps rules.now) result }
{
    for rule in rules {
        check_rule(alloc, *rule, functions)?;
    }
    Ok(())
}

// Whether these functions keep the rule.
fn check_rule(alloc: Global, rule: Rule, functions: &[Function]) -> Result<(), CheckError>
    requires { parts (procedures_of functions.now) < 2 ^ 30 }
    ensures { Tells (faults rule (procedures_of functions.now)) result }
{
    match rule {
        Rule::FunctionCount => {
            let count = functions.len() as u64;
            if count > MOST_FUNCTIONS {
                return Err(CheckError::Fault(CheckFault::TooManyFunctions { count }));
            }
        }
        Rule::FunctionNames => check_function_names(alloc, functions)?,
        Rule::Init => {
            if !has_function(functions, b"init".as_slice()) {
                return Err(CheckError::Fault(CheckFault::NoInit));
            }
        }
        Rule::Again => {
            if !has_function(functions, b"loop".as_slice()) {
                return Err(CheckError::Fault(CheckFault::NoLoop));
            }
        }
        Rule::CodeNeed => {
            let words = code_need(alloc, functions)?;
            if words > MOST_WORDS {
                return Err(CheckError::Fault(CheckFault::CodeNeed { words }));
            }
        }
        Rule::OfFunction(rule) => check_functions(alloc, rule, functions)?,
        Rule::OfCommand(rule) => check_commands(alloc, rule, functions)?,
    }
    Ok(())
}

// Whether no function has the name of an earlier one.
fn check_function_names(alloc: Global, functions: &[Function]) -> Result<(), CheckError>
    ensures { Tells (faults Rule.FunctionNames (procedures_of functions.now)) result }
{
    let names = names_of(alloc, functions)?;
    match first_repeated(alloc, names.as_slice())? {
        None => Ok(()),
        Some(function) => Err(CheckError::Fault(CheckFault::DuplicateFunction { function })),
    }
}
