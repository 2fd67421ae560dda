// The rules on functions.
ghost use Rattle.std.specs.Prelude.{◌≡◌, ◌<◌, ◌^◌, map};
ghost use Rattle.lb_syntax.specs.Tree.{procedure_of};
ghost use Rattle.lb_check.specs.Order.{repeated};
ghost use Rattle.lb_check.specs.Parts.{function_parts, parts};
ghost use Rattle.lb_check.specs.Faults.{is_entry, count_faults, function_faults, faults};
ghost use Rattle.lb_check.specs.InternalVerdict.{Tells};
ghost use Rattle.lb_check.specs.InternalWalks.{procedures_of};

use crate::fault::{CheckError, CheckFault};
use crate::names::first_repeated;
use crate::needs::frame_need;
use crate::rule::{FunctionRule, Rule};
use lb_syntax::{Function, MOST_FRAME, MOST_PARAMS, MOST_RESULTS, Name};
use std::alloc::Global;

/// Whether every one of these functions keeps the rule.
pub fn check_functions(
    alloc: Global,
    rule: FunctionRule,
    functions: &[Function],
) -> Result<(), CheckError>
    requires { parts (procedures_of functions.now) < 2 ^ 30 }
    ensures { Tells (faults (Rule.OfFunction rule) (procedures_of functions.now)) result }
{
    for f in functions {
        check_function(alloc, rule, f)?;
    }
    Ok(())
}

// Whether a function keeps the rule.
fn check_function(alloc: Global, rule: FunctionRule, f: &Function) -> Result<(), CheckError>
    requires { function_parts (procedure_of f.now) < 2 ^ 30 }
    ensures { Tells (function_faults rule (procedure_of f.now)) result }
{
    match rule {
        FunctionRule::Names => check_names(alloc, f),
        FunctionRule::Entry => check_entry(alloc, f),
        FunctionRule::Counts => {
            check_counts(
                alloc,
                &f.name,
                f.params.len() as u64,
                f.results.len() as u64,
            )
        }
        FunctionRule::FrameNeed => check_frame(alloc, f),
    }
}

// Whether no parameter comes twice, and no result.
fn check_names(alloc: Global, f: &Function) -> Result<(), CheckError>
    ensures { Tells (function_faults FunctionRule.Names (procedure_of f.now)) result }
{
    check_own_names(alloc, &f.name, f.params.as_slice())?;
    check_own_names(alloc, &f.name, f.results.as_slice())
}

// Whether no name of these comes twice.
fn check_own_names(alloc: Global, function: &Name, names: &[Name]) -> Result<(), CheckError>
    ensures { Tells (map (CheckFault.DuplicateName function.now) (repeated names.now)) result }
{
    match first_repeated(alloc, names)? {
        None => Ok(()),
        Some(name) => {
            let function = function.copy(alloc)?;
            Err(CheckError::Fault(CheckFault::DuplicateName { function, name }))
        }
    }
}

// Whether a function that is called from outside has neither parameters nor results.
fn check_entry(alloc: Global, f: &Function) -> Result<(), CheckError>
    requires { function_parts (procedure_of f.now) < 2 ^ 30 }
    ensures { Tells (function_faults FunctionRule.Entry (procedure_of f.now)) result }
{
    let passed = f.params.len() + f.results.len();
    if !is_entry(&f.name) || passed == 0 {
        return Ok(());
    }
    let function = f.name.copy(alloc)?;
    Err(CheckError::Fault(CheckFault::EntryShape { function }))
}

// Whether it is the name of a function that is called from outside.
fn is_entry(name: &Name) -> bool
    ensures { result ≡ is_entry name.now }
{
    name.as_bytes() == b"init".as_slice() || name.as_bytes() == b"loop".as_slice()
}

// Whether there are at most 8 parameters and at most 8 results.
fn check_counts(alloc: Global, function: &Name, params: u64, results: u64) -> Result<(), CheckError>
    ensures { Tells (count_faults function.now params results) result }
{
    let count = if params > MOST_PARAMS {
        params
    } else if results > MOST_RESULTS {
        results
    } else {
        return Ok(());
    };
    let function = function.copy(alloc)?;
    Err(CheckError::Fault(CheckFault::TooManyParams { function, count }))
}

// Whether the frame is within its limit.
fn check_frame(alloc: Global, f: &Function) -> Result<(), CheckError>
    requires { function_parts (procedure_of f.now) < 2 ^ 30 }
    ensures { Tells (function_faults FunctionRule.FrameNeed (procedure_of f.now)) result }
{
    let bytes = frame_need(alloc, f)?;
    if bytes > MOST_FRAME {
        let function = f.name.copy(alloc)?;
        return Err(CheckError::Fault(CheckFault::FrameNeed { function, bytes }));
    }
    Ok(())
}
