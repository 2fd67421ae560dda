// A flat program made by hand: `init` sets a variable and doubles it in one command.
ghost use Rattle.std.specs.Prelude.{◌≡◌, map, IfOk};
ghost use Rattle.lb_flat.specs.Flat.{flat_command, flat_routine, flat_executable};
ghost use Rattle.lb_flat.specs.Order.{IsFlatInOrder};
ghost use Rattle.lb_spill_tests.specs.Doubling.{doubling_code, plain_routine, doubling_program};

use lb_flat::{FlatBlock, FlatCmd, FlatFunction, FlatProgram};
use lb_syntax::Op;
use sqlite_items::Items;
use std::alloc::{AllocError, Global};

/// The program. Fails only for want of memory.
pub fn doubled_variable(alloc: Global) -> Result<FlatProgram, AllocError>
    ensures { IfOk result (λ flat. IsFlatInOrder (flat_executable flat)) }
{
    let flat = doubling_by_hand(alloc)?;
    Ok(flat)
}

fn doubling_by_hand(alloc: Global) -> Result<FlatProgram, AllocError>
    ensures { IfOk result (λ flat. flat_executable flat ≡ doubling_program) }
{
    let mut functions = Items::new(alloc);
    functions.push(function(alloc, 1, doubling_commands(alloc)?))?;
    functions.push(function(alloc, 0, Items::new(alloc)))?;
    Ok(FlatProgram {
        functions,
        init: 0,
        again: 1,
    })
}

fn doubling_commands(alloc: Global) -> Result<Items<FlatCmd>, AllocError>
    ensures { IfOk result (λ commands. map flat_command commands ≡ doubling_code) }
{
    let mut commands = Items::new(alloc);
    commands.push(FlatCmd::Literal {
        target: 0,
        value: 5,
    })?;
    commands.push(FlatCmd::Binary {
        op: Op::Add,
        target: 0,
        left: 0,
        right: 0,
    })?;
    Ok(commands)
}

// A function without parameters and results.
fn function(alloc: Global, variables: u32, commands: Items<FlatCmd>) -> FlatFunction
    ensures { flat_routine result ≡ plain_routine variables (map flat_command commands) }
{
    FlatFunction {
        variables,
        params: Items::new(alloc),
        results: Items::new(alloc),
        body: FlatBlock { commands },
    }
}
