// From the source to flat code.
ghost use Rattle.std.specs.Prelude.{◌≤◌, map, length, All, IfOk, OnOk};
ghost use Rattle.std.specs.List.{AllByRecursion};
ghost use Rattle.lb_syntax.specs.declared.limits.TheConstants.{MOST_FUNCTIONS};
ghost use Rattle.lb_syntax.specs.Tree.{procedure_of, program_of};
ghost use Rattle.lb_syntax.specs.WellFormed.{IsProcedure};
ghost use Rattle.lb_syntax.specs.Rules.{function_names, KeepsRules};
ghost use Rattle.lb_flat.specs.Flat.{flat_routine, flat_executable};
ghost use Rattle.lb_syntax.specs.Needs as source;
ghost use Rattle.lb_flat.specs.Needs.{code_need, flat_routine_words, flat_accesses_need};
ghost use Rattle.lb_flat.specs.SourceCounts.{source_accesses_need, IsSmall};
ghost use Rattle.lb_flat.specs.Order.{IsFlatInOrder};
ghost use Rattle.lb_flat.specs.InternalFlatForms.{IsFlatForm, AreFlatForms, IsFlattened};
ghost use Rattle.lb_flat.specs.Flattened.{HasSameRuns, HasFewVariables, NamesByPlace};
ghost use Rattle.lb_flat.specs.Laws.{AllAskNoMore};
ghost use Rattle.lb_flat.specs.InternalFlatten.{IsCountable};

use crate::arguments::arguments_of_block;
use crate::flat::{FlatFunction, FlatProgram};
use crate::numbers::VariableNumbers;
use crate::scope::{Scope, place_of_function};
use lb_check::{Checked, depth_of_block, variable_names};
use lb_syntax::{Function, Program};
use sqlite_items::Items;
use std::alloc::{AllocError, Global};

/// The flat form of a program. For every layout of the stack, every number of turns and all replies, it has the same trace and
/// end as the program wherever that does nothing undefined. It is in order, and function by function it asks for no more than the
/// program: it has as many functions, and each of them has as many parameters, results, stack blocks, loads, stores, accesses,
/// arguments and targets as the source's, and no more words and bytes of a frame. So it asks for no more words in all. Its functions
/// have the numbers of their places in the text, counted from 0: by these it names `init` and `loop`, and calls what the source's
/// functions call, in the same order. Fails only for want of memory.
pub fn flatten(alloc: Global, program: &Checked) -> Result<FlatProgram, AllocError>
    ensures keeps { IfOk result (λ flat.
        HasSameRuns (program_of program.now) (flat_executable flat)) }
    ensures in_order { IfOk result (λ flat. IsFlatInOrder (flat_executable flat)) }
    ensures asks_no_more { IfOk result (λ flat.
        AllAskNoMore (program_of program.now) (map flat_routine flat.functions)) }
    ensures words { IfOk result (λ flat.
        code_need flat_routine_words (map flat_routine flat.functions)
        ≤ source.code_need (program_of program.now)) }
    ensures accesses { IfOk result (λ flat.
        flat_accesses_need (map flat_routine flat.functions)
        ≤ source_accesses_need (program_of program.now)) }
    ensures variables { IfOk result (λ flat.
        IsSmall (program_of program.now) → HasFewVariables (flat_executable flat)) }
    ensures functions { IfOk result (λ flat.
        NamesByPlace (program_of program.now) (flat_executable flat)) }
{
    let flat = flatten_program(alloc, program.program())?;
    Ok(flat)
}

// The flat form of a program that keeps the rules.
#[tactic(auto, using(crate::proofs::CountableLemmas::countable))]
fn flatten_program(alloc: Global, program: &Program) -> Result<FlatProgram, AllocError>
    requires { KeepsRules (program_of program.now) }
    ensures form { IfOk result (λ flat.
        IsFlattened (program_of program.now) (flat_executable flat)) }
    ensures well_formed { OnOk result (All IsProcedure (program_of program.now)) }
{
    let functions = program.functions.as_slice();
    Ok(FlatProgram {
        functions: flatten_functions(alloc, functions)?,
        init: place_of_function(functions, b"init".as_slice()),
        again: place_of_function(functions, b"loop".as_slice()),
    })
}

// The flat forms of these functions, in order.
fn flatten_functions(
    alloc: Global,
    functions: &[Function],
) -> Result<Items<FlatFunction>, AllocError>
    requires few { length functions.now ≤ MOST_FUNCTIONS }
    requires countable { AllByRecursion IsCountable (map procedure_of functions.now) }
    ensures forms { IfOk result (λ made.
        AreFlatForms (function_names (map procedure_of functions.now))
        (map procedure_of functions.now) (map flat_routine made)) }
    ensures well_formed { OnOk result
        (AllByRecursion IsProcedure (map procedure_of functions.now)) }
{
    let mut made = Items::new(alloc);
    for f in functions {
        made.push(flatten_function(alloc, functions, f)?)?;
    }
    Ok(made)
}

// The flat form of one of these functions.
fn flatten_function(
    alloc: Global,
    functions: &[Function],
    f: &Function,
) -> Result<FlatFunction, AllocError>
    requires few { length functions.now ≤ MOST_FUNCTIONS }
    requires countable { IsCountable (procedure_of f.now) }
    ensures form { IfOk result (λ made.
        IsFlatForm (function_names (map procedure_of functions.now))
        (procedure_of f.now) (flat_routine made)) }
    ensures well_formed { OnOk result (IsProcedure (procedure_of f.now)) }
{
    // That the function's name is well formed is known by its type.
    f.name.as_bytes();
    let names = variable_names(alloc, f)?;
    let numbers = VariableNumbers::new(alloc, names.as_slice())?;
    let scope = Scope::new(alloc, functions, numbers);
    let depth = depth_of_block(&f.body) as u32;
    Ok(FlatFunction {
        variables: scope.first_temporary() + depth + arguments_of_block(&f.body),
        params: scope.numbers(f.params.as_slice())?,
        results: scope.numbers(f.results.as_slice())?,
        body: scope.block(&f.body)?,
    })
}
