// What functions ask for: bytes of a frame, and words of code.
ghost use Rattle.std.specs.Prelude.{◌≡◌, ◌<◌, ◌≤◌, ◌*◌, ◌^◌, IfOk};
ghost use Rattle.lb_syntax.specs.Tree.{procedure_of};
ghost use Rattle.lb_syntax.specs.Needs.{frame_need, far_factor, code_need};
ghost use Rattle.lb_check.specs.Parts.{function_parts, parts};
ghost use Rattle.lb_check.specs.InternalWalks.{procedures_of, words_in_code};

use crate::counts::{depth_of_block, memory_of_block, words_of_function};
use crate::names::count_variables;
use lb_syntax::{Function, NEAR_FRAME};
use std::alloc::{AllocError, Global};

// Bytes of a word.
const WORD_BYTES: u64 = 4;

// Words of a frame beside those of variables and operands.
const FRAME_WORDS: u64 = 34;

// Words of a program beside those of its functions.
const PROGRAM_WORDS: u64 = 16;

/// The bytes of a function's frame.
pub fn frame_need(alloc: Global, f: &Function) -> Result<u64, AllocError>
    requires { function_parts (procedure_of f.now) < 2 ^ 30 }
    ensures { IfOk result (λ bytes. bytes ≡ frame_need (procedure_of f.now)) }
{
    let words = count_variables(alloc, f)? + depth_of_block(&f.body) + FRAME_WORDS;
    Ok(memory_of_block(&f.body) + WORD_BYTES * words)
}

// By how much a function's words are multiplied: a far slot takes more instructions than a near one.
fn far_factor(alloc: Global, f: &Function) -> Result<u64, AllocError>
    requires { function_parts (procedure_of f.now) < 2 ^ 30 }
    ensures factor { IfOk result (λ factor. factor ≡ far_factor (procedure_of f.now)) }
    ensures small { IfOk result (λ factor. factor ≤ 2) }
{
    if frame_need(alloc, f)? <= NEAR_FRAME {
        Ok(1)
    } else {
        Ok(2)
    }
}

// The words of a function in the code of a program.
fn words_in_code(alloc: Global, f: &Function) -> Result<u64, AllocError>
    requires { function_parts (procedure_of f.now) < 2 ^ 30 }
    ensures words { IfOk result (λ words. words ≡ words_in_code (procedure_of f.now)) }
    ensures few { IfOk result (λ words. words ≤ 160 * function_parts (procedure_of f.now)) }
{
    let factor = far_factor(alloc, f)?;
    Ok(factor * words_of_function(f))
}

/// The words of code that a program of these functions asks for.
pub fn code_need(alloc: Global, functions: &[Function]) -> Result<u64, AllocError>
    requires { parts (procedures_of functions.now) < 2 ^ 30 }
    ensures { IfOk result (λ words. words ≡ code_need (procedures_of functions.now)) }
{
    let mut count = PROGRAM_WORDS;
    for f in functions {
        count += words_in_code(alloc, f)?;
    }
    Ok(count)
}
