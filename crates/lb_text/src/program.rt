// The whole text.
ghost use Rattle.std.specs.Prelude.{◌<◌, ◌^◌, [], ◌∷◌, length, map, IfOk, IfErr};
ghost use Rattle.lb_syntax.specs.Tree.{procedure_of, program_of};
ghost use Rattle.lb_spelling.specs.declared.symbol.Symbol.TheVariants as symbols;
ghost use Rattle.lb_spelling.specs.Places.{IsAccepted};
ghost use Rattle.lb_printing.specs.Printed.{IsTextOfNoOther};
ghost use Rattle.lb_text.specs.Refusal.{RefusedBy, FaultOf};
ghost use Rattle.lb_text.specs.InternalFindings.{Refuses};

use crate::error::ReadError;
use crate::function::function;
use crate::parse_error::ParseError;
use lb_scan::scan_or_end;
use lb_spelling::{Symbol, TextFault};
use lb_syntax::{Function, Program};
use sqlite_items::Items;
use std::alloc::Global;

/// The program whose text this is, with at most 64 brackets open at once, or the place and the kind of the text's fault.
/// The text has fewer than 2^32 bytes.
pub fn read_program(alloc: Global, bytes: &[u8]) -> Result<Program, ReadError>
    requires { length bytes.now < 2 ^ 32 }
    // The text is the program's, and no more than 64 brackets are open anywhere.
    ensures found { IfOk result (λ program. IsAccepted (program_of program) bytes.now) }
    // It is no other program's.
    ensures only { IfOk result (λ program. IsTextOfNoOther (program_of program) bytes.now) }
    // A text that is refused is accepted as no program.
    ensures refused { IfErr result (λ e. RefusedBy e bytes.now) }
    // Where it is refused, and why.
    ensures place { IfErr result (λ e. FaultOf e bytes.now) }
{
    match functions(alloc, bytes) {
        Ok(functions) => Ok(Program { functions }),
        Err(ParseError::Memory) => Err(ReadError::Memory),
        Err(ParseError::Syntax(error)) => {
            let at = (bytes.len() - error.left) as u32;
            Err(ReadError::Text(TextFault {
                at,
                kind: error.kind,
            }))
        }
    }
}

// The functions that the text is.
fn functions(alloc: Global, bytes: &[u8]) -> Result<Items<Function>, ParseError>
    ensures found { IfOk result (λ functions. IsAccepted (map procedure_of functions) bytes.now) }
    ensures fault { Refuses 0 (symbols.Functions ∷ []) bytes.now result }
{
    let mut functions = Items::new(alloc);
    let mut rest = bytes;
    while let Some((_, after)) = scan_or_end(Symbol::Functions, 0, rest)? {
        let (function, after) = function(alloc, after)?;
        functions.push(function)?;
        rest = after;
    }
    Ok(functions)
}
