// Which variables are live, backwards over the tree.
ghost use Rattle.std.specs.Prelude.{◌≡◌, ℕ, ◌<◌, length, map, get_or, OnOk};
ghost use Rattle.lb_flat.specs.Code.{chain};
ghost use Rattle.lb_flat.specs.Flat.{flat_command, flat_block};
ghost use Rattle.lb_alloc.specs.InternalSets.{IsLiveBefore, NamesVariables};

use crate::step::step_of;
use crate::variables::VariableSet;
use lb_flat::{FlatBlock, FlatCmd};
use std::alloc::{AllocError, Global};

/// From the variables that are live behind a command to those before it.
#[cycle(live)]
pub fn live_command(alloc: Global, c: &FlatCmd, set: &mut VariableSet) -> Result<(), AllocError>
    requires { NamesVariables (length set.old) (flat_command c.now) }
    ensures live { OnOk result (IsLiveBefore (flat_command c.now) set.old set.new) }
    ensures len { length set.new ≡ length set.old }
{
    match c {
        FlatCmd::StackAlloc { target, body, .. } => {
            live_block(alloc, body, set)?;
            set.step_back(&[], &[*target]);
        }
        FlatCmd::If { condition, yes, no } => {
            let mut first = set.copy(alloc)?;
            live_block(alloc, yes, &mut first)?;
            live_block(alloc, no, set)?;
            set.join(&first);
            set.step_back_test(*condition);
        }
        FlatCmd::While {
            before,
            condition,
            body,
        } => {
            let mut round = VariableSet::none(alloc, set.len())?;
            live_block(alloc, body, &mut round)?;
            set.join(&round);
            set.step_back_test(*condition);
            live_block(alloc, before, set)?;
        }
        _ => {
            let step = step_of(c);
            set.step_back(step.reads(), step.sets());
        }
    }
    Ok(())
}

/// The same of a block.
#[cycle(live)]
pub fn live_block(alloc: Global, block: &FlatBlock, set: &mut VariableSet) -> Result<(), AllocError>
    requires { NamesVariables (length set.old) (flat_block block.now) }
    ensures live { OnOk result (IsLiveBefore (flat_block block.now) set.old set.new) }
    ensures len { length set.new ≡ length set.old }
{
    let commands = block.commands.as_slice();
    let mut i = commands.len();
    while i > 0 {
        i -= 1;
        let Some(c) = commands.get(i) else {
            unreachable!()
        };
        names_in_command(commands, i, c, set.len());
        live_command(alloc, c, set)?;
    }
    Ok(())
}

/// A fact alone: what a command of a block names, the block names.
pub fn names_in_command(commands: &[FlatCmd], i: usize, c: &FlatCmd, variables: usize)
    requires here { i < length commands.now }
    requires is { c.now ≡ get_or commands.now i c.now }
    requires names { NamesVariables variables (chain (map flat_command commands.now)) }
    ensures { NamesVariables variables (flat_command c.now) }
{}
