// A whole program, run.
ghost use Rattle.std.specs.Prelude.{◌≡◌, ◌≤◌, IfOk};
ghost use Rattle.lb_memory.specs.declared.TheConstants.{STACK_TOP};
ghost use Rattle.lb_syntax.specs.Tree.{program_of};
ghost use Rattle.lb_syntax.specs.Layouts.{IsValidLayout};
ghost use Rattle.lb_source.specs.Source.{src};
ghost use Rattle.lb_source.specs.InternalMachine.{FollowsEver, FollowsWhole, functions_of};

use crate::ends::{SourceEnd, SourceRun};
use crate::machine::{Flow, Machine, start};
use crate::run::Interpreter;
use lb_check::Checked;
use lb_syntax::Layout;
use lb_trace::Trace;
use std::alloc::{AllocError, Global};

/// What a program does under a layout that is valid for it: `init` once, then `loop` for ever. The call of `init`, each
/// start of `loop`, each call and each turn of a `while` spend one of the fuel, and where none is left the run ends as
/// `Spent`. A read of a device takes the next reply, and where none is left the run ends as `Starved`. The layout says how
/// large each function's frame is, and where its blocks stand in it. Fails only for want of memory.
pub fn interpret(
    alloc: Global,
    program: &Checked,
    layout: &Layout,
    fuel: u64,
    replies: &[u32],
) -> Result<SourceRun, AllocError>
    requires { IsValidLayout layout.now (program_of program.now) }
    ensures { IfOk result (λ run. run
        ≡ src (program_of program.now) layout.now fuel replies.now) }
{
    let interpreter = Interpreter::new(alloc, program.program(), layout);
    let mut m = start(alloc, fuel, replies)?;
    let end = run_whole(&interpreter, &mut m)?;
    Ok(SourceRun {
        trace: Trace::from_vec(m.trace),
        end,
    })
}

/// Calls `init` once and then `loop` for ever.
fn run_whole(interpreter: &Interpreter<'_>, m: &mut Machine) -> Result<SourceEnd, AllocError>
    requires { m.old.stack ≤ STACK_TOP }
    ensures { IfOk result (λ end. FollowsWhole (functions_of interpreter.now) m.old end m.new) }
{
    match interpreter.run_call(m, b"init", &[], &[])? {
        Flow::On => run_for_ever(interpreter, m),
        Flow::End(end) => Ok(end),
    }
}

/// Calls `loop` again and again; each call spends fuel.
fn run_for_ever(interpreter: &Interpreter<'_>, m: &mut Machine) -> Result<SourceEnd, AllocError>
    requires { m.old.stack ≤ STACK_TOP }
    ensures { IfOk result (λ end. FollowsEver (functions_of interpreter.now) m.old end m.new) }
{
    'again: loop {
        match interpreter.run_call(m, b"loop", &[], &[])? {
            Flow::On => {}
            Flow::End(end) => return Ok(end),
        }
    }
}
