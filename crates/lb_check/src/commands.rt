// The rules on commands.
ghost use Rattle.std.specs.Prelude.{◌≡◌, ◌<◌, ◌^◌, map};
ghost use Rattle.lb_syntax.specs.Tree.{command_of, block_of};
ghost use Rattle.lb_check.specs.Parts.{body_parts, parts};
ghost use Rattle.lb_check.specs.Order.{repeated};
ghost use Rattle.lb_check.specs.Faults.{has_shape, faults};
ghost use Rattle.lb_check.specs.InternalVerdict.{Tells};
ghost use Rattle.lb_check.specs.InternalWalks.{procedures_of, TellsCommand, TellsCommands, TellsAlone};

use crate::fault::{CheckError, CheckFault};
use crate::lookup::{has_function, has_misfit};
use crate::names::first_repeated;
use crate::rule::{CommandRule, Rule};
use lb_syntax::{Action, Block, Cmd, Function, Name};
use std::alloc::Global;

/// Whether every command of these functions keeps the rule.
pub fn check_commands(
    alloc: Global,
    rule: CommandRule,
    functions: &[Function],
) -> Result<(), CheckError>
    requires { parts (procedures_of functions.now) < 2 ^ 30 }
    ensures { Tells (faults (Rule.OfCommand rule) (procedures_of functions.now)) result }
{
    for f in functions {
        check_block(alloc, &f.body, rule, functions, &f.name)?;
    }
    Ok(())
}

// Whether every command of a block in a function keeps the rule.
#[cycle(walk)]
fn check_block(
    alloc: Global,
    block: &Block,
    rule: CommandRule,
    functions: &[Function],
    function: &Name,
) -> Result<(), CheckError>
    requires { body_parts (block_of block.now) < 2 ^ 30 }
    ensures { TellsCommands rule functions.now function.now (block_of block.now) result }
{
    for c in block.commands.as_slice() {
        check_command(alloc, c, rule, functions, function)?;
    }
    Ok(())
}

// Whether a command in a function, and all that stand in it, keep the rule.
#[cycle(walk)]
fn check_command(
    alloc: Global,
    c: &Cmd,
    rule: CommandRule,
    functions: &[Function],
    function: &Name,
) -> Result<(), CheckError>
    requires { body_parts (command_of c.now) < 2 ^ 30 }
    ensures { TellsCommands rule functions.now function.now (command_of c.now) result }
{
    check_place(alloc, c, rule, functions, function)?;
    match c {
        Cmd::StackAlloc { body, .. } | Cmd::While { body, .. } => {
            check_block(alloc, body, rule, functions, function)
        }
        Cmd::If { yes, no, .. } => {
            check_block(alloc, yes, rule, functions, function)?;
            check_block(alloc, no, rule, functions, function)
        }
        _ => Ok(()),
    }
}

// Whether a command in a function keeps the rule, those that stand in it aside.
fn check_place(
    alloc: Global,
    c: &Cmd,
    rule: CommandRule,
    functions: &[Function],
    function: &Name,
) -> Result<(), CheckError>
    requires { body_parts (command_of c.now) < 2 ^ 30 }
    ensures { TellsCommand rule functions.now function.now (command_of c.now) result }
{
    match rule {
        CommandRule::BlockSize => check_size(alloc, c, function),
        CommandRule::Callee => check_callee(alloc, c, functions, function),
        CommandRule::Arity => check_arity(alloc, c, functions, function),
        CommandRule::Targets => check_targets(alloc, c, function),
        CommandRule::Access => check_access(alloc, c, function),
    }
}

// Whether a block of memory is whole words, and one at least.
fn check_size(alloc: Global, c: &Cmd, function: &Name) -> Result<(), CheckError>
    ensures { TellsAlone CommandRule.BlockSize function.now (command_of c.now) result }
{
    match c {
        Cmd::StackAlloc { bytes, .. } if *bytes == 0 || *bytes % 4 != 0 => {
            let function = function.copy(alloc)?;
            let bytes = *bytes;
            Err(CheckError::Fault(CheckFault::BadAllocSize { function, bytes }))
        }
        _ => Ok(()),
    }
}

// Whether a call is of a function of the program.
fn check_callee(
    alloc: Global,
    c: &Cmd,
    functions: &[Function],
    function: &Name,
) -> Result<(), CheckError>
    ensures { TellsCommand CommandRule.Callee functions.now function.now (command_of c.now) result }
{
    match c {
        Cmd::Call {
            function: callee,
            ..
        } => {
            if has_function(functions, callee.as_bytes()) {
                return Ok(());
            }
            let function = function.copy(alloc)?;
            let name = callee.copy(alloc)?;
            Err(CheckError::Fault(CheckFault::UnknownFunction { function, name }))
        }
        _ => Ok(()),
    }
}

// Whether a call has its function's numbers of arguments and targets.
fn check_arity(
    alloc: Global,
    c: &Cmd,
    functions: &[Function],
    function: &Name,
) -> Result<(), CheckError>
    ensures { TellsCommand CommandRule.Arity functions.now function.now (command_of c.now) result }
{
    match c {
        Cmd::Call {
            targets,
            function: callee,
            arguments,
        } => {
            if !has_misfit(functions, callee, arguments.len(), targets.len()) {
                return Ok(());
            }
            let function = function.copy(alloc)?;
            let name = callee.copy(alloc)?;
            Err(CheckError::Fault(CheckFault::WrongArity { function, name }))
        }
        _ => Ok(()),
    }
}

// Whether no target of a call comes twice.
fn check_targets(alloc: Global, c: &Cmd, function: &Name) -> Result<(), CheckError>
    ensures { TellsAlone CommandRule.Targets function.now (command_of c.now) result }
{
    match c {
        Cmd::Call { targets, .. } => check_target_names(alloc, targets.as_slice(), function),
        _ => Ok(()),
    }
}

// Whether no target of these comes twice.
fn check_target_names(alloc: Global, targets: &[Name], function: &Name) -> Result<(), CheckError>
    ensures { Tells (map (CheckFault.DuplicateTarget function.now) (repeated targets.now)) result }
{
    match first_repeated(alloc, targets)? {
        None => Ok(()),
        Some(name) => {
            let function = function.copy(alloc)?;
            Err(CheckError::Fault(CheckFault::DuplicateTarget { function, name }))
        }
    }
}

// Whether an access has its action's shape.
fn check_access(alloc: Global, c: &Cmd, function: &Name) -> Result<(), CheckError>
    ensures { TellsAlone CommandRule.Access function.now (command_of c.now) result }
{
    match c {
        Cmd::Interact {
            targets,
            action,
            arguments,
        } => {
            if has_shape(*action, targets.len(), arguments.len()) {
                return Ok(());
            }
            let function = function.copy(alloc)?;
            Err(CheckError::Fault(CheckFault::BadIo { function }))
        }
        _ => Ok(()),
    }
}

// A read has one target and one argument, a write no target and two arguments.
fn has_shape(action: Action, targets: usize, arguments: usize) -> bool
    ensures { result ≡ has_shape action targets arguments }
{
    match action {
        Action::Read => targets == 1 && arguments == 1,
        Action::Write => targets == 0 && arguments == 2,
    }
}
