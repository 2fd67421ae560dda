// Functions and programs.
ghost use Rattle.std.specs.Prelude.{◌≡◌, map, IfOk, OnOk, All};
ghost use Rattle.lb_syntax.specs.Tree.{procedure_of, program_of};
ghost use Rattle.lb_syntax.specs.WellFormed.{IsProcedure};
ghost use Rattle.lb_syntax.specs.Names.{IsName};
ghost use Rattle.lb_syntax.specs.Printing.{program_text};
ghost use Rattle.lb_spelling.specs.Grammar.{IsText};
ghost use Rattle.lb_printing.specs.Printed.{AcceptedIfShallow, IsTextOfNoOther};
ghost use Rattle.lb_printing.specs.InternalPrinting.{Appends, head_line, function_text, functions_text};

use crate::command::add_block;
use crate::lines::add_line;
use crate::words::{add_name, add_names, add_results};
use lb_syntax::{Function, Program};
use std::alloc::{AllocError, Global};

/// The canonical text of a program: one line for each command, two blanks before it for each block that is open,
/// and numbers in decimal. It is a text of this program and of no other, and it is accepted where nowhere in it
/// more than 64 brackets are open. Fails only for want of memory.
pub fn print_program(alloc: Global, program: &Program) -> Result<Vec<u8>, AllocError>
    ensures printed { IfOk result (λ text. text.items ≡ program_text (program_of program.now)) }
    ensures spelled { IfOk result (λ text. IsText (program_of program.now) text.items) }
    ensures spells { IfOk result (λ text. AcceptedIfShallow (program_of program.now) text.items) }
    ensures only { IfOk result (λ text. IsTextOfNoOther (program_of program.now) text.items) }
{
    let mut text = Vec::new(alloc);
    add_functions(alloc, &mut text, program.functions.as_slice())?;
    Ok(text)
}

fn add_functions(
    alloc: Global,
    text: &mut Vec<u8>,
    functions: &[Function],
) -> Result<(), AllocError>
    ensures printed { Appends text.old text.new (functions_text functions.now) result }
    ensures well_formed { OnOk result (All IsProcedure (map procedure_of functions.now)) }
{
    for function in functions {
        add_function(alloc, text, function)?;
    }
    Ok(())
}

fn add_function(alloc: Global, text: &mut Vec<u8>, function: &Function) -> Result<(), AllocError>
    ensures printed { Appends text.old text.new (function_text function.now) result }
    ensures well_formed { OnOk result (IsProcedure (procedure_of function.now)) }
{
    add_head(text, function)?;
    add_block(alloc, text, 1, &function.body)?;
    add_line(text, 0, b"}")
}

// Adds the line that begins a function.
fn add_head(text: &mut Vec<u8>, function: &Function) -> Result<(), AllocError>
    ensures printed { Appends text.old text.new (head_line function.now) result }
    ensures name { OnOk result (IsName function.now.name) }
    ensures params { OnOk result (All IsName function.now.params) }
    ensures results { OnOk result (All IsName function.now.results) }
{
    text.extend_from_slice(b"fn ")?;
    add_name(text, &function.name)?;
    text.push(b'(')?;
    add_names(text, function.params.as_slice())?;
    text.push(b')')?;
    add_results(text, function.results.as_slice())?;
    text.extend_from_slice(b" {\n")?;
    Ok(())
}
