// Commands and blocks.
ghost use Rattle.std.specs.Prelude.{suc, OnOk, All};
ghost use Rattle.lb_syntax.specs.Names.{IsName};
ghost use Rattle.lb_syntax.specs.Tree.{Sets, Unsets, term_of, command_of, block_of};
ghost use Rattle.lb_syntax.specs.WellFormed.{IsTerm, IsCommand, IsBlock};
ghost use Rattle.lb_printing.specs.InternalPrinting.{Appends, Prints, AddsCall, AreTerms, store, allocation, choice, repetition, allocation_line, opening_line, else_block_text};

use crate::lines::{add_indent, add_line};
use crate::term::{add_expr, add_exprs};
use crate::words::{add_access, add_name, add_number, add_targets, word_of};
use lb_syntax::{Block, Cmd, Expr, Name, Width};
use sqlite_items::Items;
use std::alloc::{AllocError, Global};

/// Adds the commands of a block, with so many blocks open round them.
#[cycle(add_command)]
pub fn add_block(
    alloc: Global,
    text: &mut Vec<u8>,
    depth: usize,
    block: &Block,
) -> Result<(), AllocError>
    ensures printed { Prints depth text.old text.new (block_of block.now) result }
    ensures well_formed { OnOk result (IsBlock (block_of block.now)) }
{
    for c in block.commands.as_slice() {
        add_command(alloc, text, depth, c)?;
    }
    Ok(())
}

// Adds a command, with so many blocks open round it.
#[cycle(add_command)]
fn add_command(alloc: Global, text: &mut Vec<u8>, depth: usize, c: &Cmd) -> Result<(), AllocError>
    ensures printed { Prints depth text.old text.new (command_of c.now) result }
    ensures well_formed { OnOk result (IsCommand (command_of c.now)) }
{
    match c {
        Cmd::Skip => add_line(text, depth, b"skip;"),
        Cmd::Set { target, value } => add_set(alloc, text, depth, target, value),
        Cmd::Unset { target } => add_unset(text, depth, target),
        Cmd::Store {
            width,
            address,
            value,
        } => add_store(alloc, text, depth, *width, address, value),
        Cmd::StackAlloc {
            bytes,
            target,
            body,
        } => add_alloc(alloc, text, depth, *bytes, target, body),
        Cmd::If { condition, yes, no } => add_choice(alloc, text, depth, condition, yes, no),
        Cmd::While { condition, body } => add_loop(alloc, text, depth, condition, body),
        Cmd::Call {
            targets,
            function,
            arguments,
        } => add_call(alloc, text, depth, targets, function.as_bytes(), arguments),
        Cmd::Interact {
            targets,
            action,
            arguments,
        } => add_call(alloc, text, depth, targets, word_of(*action), arguments),
    }
}

#[cycle(add_command)]
fn add_alloc(
    alloc: Global,
    text: &mut Vec<u8>,
    depth: usize,
    bytes: u32,
    target: &Name,
    body: &Block,
) -> Result<(), AllocError>
    ensures printed { Prints depth text.old text.new (allocation bytes target.now body.now) result }
    ensures well_formed { OnOk result (IsCommand (allocation bytes target.now body.now)) }
{
    add_alloc_line(alloc, text, depth, bytes, target)?;
    add_inner(alloc, text, depth, body)?;
    add_line(text, depth, b"}")
}

#[cycle(add_command)]
fn add_choice(
    alloc: Global,
    text: &mut Vec<u8>,
    depth: usize,
    condition: &Expr,
    yes: &Block,
    no: &Block,
) -> Result<(), AllocError>
    ensures printed { Prints depth text.old text.new (choice condition.now yes.now no.now) result }
    ensures well_formed { OnOk result (IsCommand (choice condition.now yes.now no.now)) }
{
    add_condition_line(alloc, text, depth, b"if ", condition)?;
    add_inner(alloc, text, depth, yes)?;
    add_else(alloc, text, depth, no)?;
    add_line(text, depth, b"}")
}

#[cycle(add_command)]
fn add_loop(
    alloc: Global,
    text: &mut Vec<u8>,
    depth: usize,
    condition: &Expr,
    body: &Block,
) -> Result<(), AllocError>
    ensures printed { Prints depth text.old text.new (repetition condition.now body.now) result }
    ensures well_formed { OnOk result (IsCommand (repetition condition.now body.now)) }
{
    add_condition_line(alloc, text, depth, b"while ", condition)?;
    add_inner(alloc, text, depth, body)?;
    add_line(text, depth, b"}")
}

// Adds the commands of a block that stands in another. More blocks than a usize counts have no room.
#[cycle(add_command)]
fn add_inner(
    alloc: Global,
    text: &mut Vec<u8>,
    depth: usize,
    block: &Block,
) -> Result<(), AllocError>
    ensures printed { Prints (suc depth) text.old text.new (block_of block.now) result }
    ensures well_formed { OnOk result (IsBlock (block_of block.now)) }
{
    let inner = depth.checked_add(1).ok_or(AllocError)?;
    add_block(alloc, text, inner, block)
}

// Adds the line of `else` and the commands behind it, where there are any.
#[cycle(add_command)]
fn add_else(
    alloc: Global,
    text: &mut Vec<u8>,
    depth: usize,
    block: &Block,
) -> Result<(), AllocError>
    ensures printed { Appends text.old text.new (else_block_text depth block.now) result }
    ensures well_formed { OnOk result (IsBlock (block_of block.now)) }
{
    if block.commands.is_empty() {
        return Ok(());
    }
    add_line(text, depth, b"} else {")?;
    add_inner(alloc, text, depth, block)
}

fn add_set(
    alloc: Global,
    text: &mut Vec<u8>,
    depth: usize,
    target: &Name,
    value: &Expr,
) -> Result<(), AllocError>
    ensures printed { Prints depth text.old text.new (Sets target.now (term_of value.now)) result }
    ensures well_formed { OnOk result (IsName target.now × IsTerm (term_of value.now)) }
{
    add_indent(text, depth)?;
    add_name(text, target)?;
    text.extend_from_slice(b" = ")?;
    add_expr(alloc, text, value)?;
    text.extend_from_slice(b";\n")?;
    Ok(())
}

fn add_unset(text: &mut Vec<u8>, depth: usize, target: &Name) -> Result<(), AllocError>
    ensures printed { Prints depth text.old text.new (Unsets target.now) result }
    ensures well_formed { OnOk result (IsName target.now) }
{
    add_indent(text, depth)?;
    text.extend_from_slice(b"unset ")?;
    add_name(text, target)?;
    text.extend_from_slice(b";\n")?;
    Ok(())
}

fn add_store(
    alloc: Global,
    text: &mut Vec<u8>,
    depth: usize,
    width: Width,
    address: &Expr,
    value: &Expr,
) -> Result<(), AllocError>
    ensures printed { Prints depth text.old text.new (store width address.now value.now) result }
    ensures well_formed { OnOk result (IsTerm (term_of address.now) × IsTerm (term_of value.now)) }
{
    add_indent(text, depth)?;
    add_access(text, b"store", width)?;
    add_expr(alloc, text, address)?;
    text.extend_from_slice(b", ")?;
    add_expr(alloc, text, value)?;
    text.extend_from_slice(b");\n")?;
    Ok(())
}

fn add_alloc_line(
    alloc: Global,
    text: &mut Vec<u8>,
    depth: usize,
    bytes: u32,
    target: &Name,
) -> Result<(), AllocError>
    ensures printed { Appends text.old text.new (allocation_line depth bytes target.now) result }
    ensures well_formed { OnOk result (IsName target.now) }
{
    add_indent(text, depth)?;
    text.extend_from_slice(b"stackalloc ")?;
    add_number(alloc, text, bytes)?;
    text.extend_from_slice(b" as ")?;
    add_name(text, target)?;
    text.extend_from_slice(b" {\n")?;
    Ok(())
}

// Adds the line of a condition that opens a block.
fn add_condition_line(
    alloc: Global,
    text: &mut Vec<u8>,
    depth: usize,
    word: &[u8],
    condition: &Expr,
) -> Result<(), AllocError>
    ensures printed { Appends text.old text.new (opening_line depth word.now condition.now) result }
    ensures well_formed { OnOk result (IsTerm (term_of condition.now)) }
{
    add_indent(text, depth)?;
    text.extend_from_slice(word)?;
    add_expr(alloc, text, condition)?;
    text.extend_from_slice(b" {\n")?;
    Ok(())
}

// Adds the line of a call or an access.
fn add_call(
    alloc: Global,
    text: &mut Vec<u8>,
    depth: usize,
    targets: &Items<Name>,
    callee: &[u8],
    arguments: &Items<Expr>,
) -> Result<(), AllocError>
    ensures printed { AddsCall depth text.old text.new targets.now callee.now arguments.now result }
    ensures well_formed { OnOk result (All IsName targets.now × AreTerms arguments.now) }
{
    add_indent(text, depth)?;
    add_targets(text, targets.as_slice())?;
    text.extend_from_slice(callee)?;
    text.push(b'(')?;
    add_exprs(alloc, text, arguments.as_slice())?;
    text.extend_from_slice(b");\n")?;
    Ok(())
}
