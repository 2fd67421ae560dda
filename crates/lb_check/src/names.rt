// The names in a list: which come twice, and how many there are.
ghost use Rattle.std.specs.Prelude.{◌≡◌, ◌≤◌, [], ◌∷◌, map, slice_get, length, IfOk};
ghost use Rattle.lb_syntax.specs.Tree.{term_of, command_of, block_of, procedure_of};
ghost use Rattle.lb_syntax.specs.Needs.{term_names, terms_names, command_names, procedure_names, distinct, variables};
ghost use Rattle.lb_syntax.specs.Rules.{function_names};
ghost use Rattle.lb_check.specs.Order.{repeated};
ghost use Rattle.lb_check.specs.InternalWalks.{procedures_of, Appends};

use lb_syntax::{Block, Cmd, Expr, Function, Name};
use std::alloc::{AllocError, Global};
use std::collections::BTreeSet;

/// The first name that comes earlier in the list too.
pub fn first_repeated(alloc: Global, names: &[Name]) -> Result<Option<Name>, AllocError>
    ensures { IfOk result (λ first. first ≡ slice_get (repeated names.now) 0) }
{
    let mut seen = BTreeSet::new(alloc);
    for name in names {
        if !seen.insert(name.as_bytes())? {
            return Ok(Some(name.copy(alloc)?));
        }
    }
    Ok(None)
}

/// The names of these functions.
pub fn names_of(alloc: Global, functions: &[Function]) -> Result<Vec<Name>, AllocError>
    ensures { IfOk result (λ names. names.items ≡ function_names (procedures_of functions.now)) }
{
    let mut names = Vec::new(alloc);
    for f in functions {
        add_name(alloc, &mut names, &f.name)?;
    }
    Ok(names)
}

// How many different names there are.
fn count_distinct(alloc: Global, names: &[Name]) -> Result<u64, AllocError>
    ensures value { IfOk result (λ count. count ≡ distinct names.now) }
    ensures few { IfOk result (λ count. count ≤ length names.now) }
{
    let mut seen = BTreeSet::new(alloc);
    let mut count = 0;
    for name in names {
        if seen.insert(name.as_bytes())? {
            count += 1;
        }
    }
    Ok(count)
}

/// The variables that a function names, its parameters and results among them, as often as it names them. Fails only for want
/// of memory.
pub fn variable_names(alloc: Global, f: &Function) -> Result<Vec<Name>, AllocError>
    ensures { IfOk result (λ names. names.items ≡ procedure_names (procedure_of f.now)) }
{
    let mut names = Vec::new(alloc);
    add_names(alloc, &mut names, f.params.as_slice())?;
    add_names(alloc, &mut names, f.results.as_slice())?;
    add_block(alloc, &mut names, &f.body)?;
    Ok(names)
}

/// How many variables a function has, its parameters and results among them.
pub fn count_variables(alloc: Global, f: &Function) -> Result<u64, AllocError>
    ensures value { IfOk result (λ count. count ≡ variables (procedure_of f.now)) }
    ensures few { IfOk result (λ count. count ≤ length (procedure_names (procedure_of f.now))) }
{
    let names = variable_names(alloc, f)?;
    count_distinct(alloc, names.as_slice())
}

// The name, behind the others.
fn add_name(alloc: Global, names: &mut Vec<Name>, name: &Name) -> Result<(), AllocError>
    ensures { Appends names.old.items names.new.items (name.now ∷ []) result }
{
    let name = name.copy(alloc)?;
    names.push(name)?;
    Ok(())
}

// More names, behind the others.
fn add_names(alloc: Global, names: &mut Vec<Name>, more: &[Name]) -> Result<(), AllocError>
    ensures { Appends names.old.items names.new.items more.now result }
{
    for name in more {
        add_name(alloc, names, name)?;
    }
    Ok(())
}

// The variables that an expression names.
fn add_expr(alloc: Global, names: &mut Vec<Name>, e: &Expr) -> Result<(), AllocError>
    ensures { Appends names.old.items names.new.items (term_names (term_of e.now)) result }
{
    match e {
        Expr::Literal(_) => Ok(()),
        Expr::Var(name) => add_name(alloc, names, name),
        Expr::Load { address, .. } => add_expr(alloc, names, address.get()),
        Expr::Binary { left, right, .. } => {
            add_expr(alloc, names, left.get())?;
            add_expr(alloc, names, right.get())
        }
    }
}

// The variables that several expressions name.
fn add_exprs(alloc: Global, names: &mut Vec<Name>, exprs: &[Expr]) -> Result<(), AllocError>
    ensures { Appends names.old.items names.new.items (terms_names (map term_of exprs.now)) result }
{
    for e in exprs {
        add_expr(alloc, names, e)?;
    }
    Ok(())
}

// The variables that a block names.
#[cycle(add)]
fn add_block(alloc: Global, names: &mut Vec<Name>, block: &Block) -> Result<(), AllocError>
    ensures { Appends names.old.items names.new.items (command_names (block_of block.now)) result }
{
    for c in block.commands.as_slice() {
        add_command(alloc, names, c)?;
    }
    Ok(())
}

// The variables that a command names.
#[cycle(add)]
fn add_command(alloc: Global, names: &mut Vec<Name>, c: &Cmd) -> Result<(), AllocError>
    ensures { Appends names.old.items names.new.items (command_names (command_of c.now)) result }
{
    match c {
        Cmd::Skip => Ok(()),
        Cmd::Set { target, value } => {
            add_name(alloc, names, target)?;
            add_expr(alloc, names, value)
        }
        Cmd::Unset { target } => add_name(alloc, names, target),
        Cmd::Store { address, value, .. } => {
            add_expr(alloc, names, address)?;
            add_expr(alloc, names, value)
        }
        Cmd::StackAlloc { target, body, .. } => {
            add_name(alloc, names, target)?;
            add_block(alloc, names, body)
        }
        Cmd::If { condition, yes, no } => {
            add_expr(alloc, names, condition)?;
            add_block(alloc, names, yes)?;
            add_block(alloc, names, no)
        }
        Cmd::While { condition, body } => {
            add_expr(alloc, names, condition)?;
            add_block(alloc, names, body)
        }
        Cmd::Call {
            targets,
            arguments,
            ..
        }
        | Cmd::Interact {
            targets,
            arguments,
            ..
        } => {
            add_names(alloc, names, targets.as_slice())?;
            add_exprs(alloc, names, arguments.as_slice())
        }
    }
}
